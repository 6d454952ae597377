ghost use Rattle.std.specs.Prelude.{◌≡◌, ◌∷◌, ◌++◌, [], true, false, Some, None, Ok, Err, codes, replicate};
ghost use Rattle.iscsi_keys.specs.Answers.{answer_to};
ghost use Rattle.iscsi_keys.specs.Negotiations.{answered, after, begun};
ghost use Rattle.iscsi_keys.specs.IscsiNames.{is_iscsi_name, is_same_name};
ghost use Rattle.iscsi_keys.specs.Numbers.{number_in};
ghost use Rattle.iscsi_keys.specs.Texts.{first_item, End, Pair, Invalid};
ghost use Rattle.iscsi_keys.specs.Rows.{normal, by_chap, discovery, for_hosts, answer_for, offered, initiator_offers};
ghost use Rattle.iscsi_keys.specs.declared.key.Key.TheVariants as key;
ghost use Rattle.iscsi_keys.specs.declared.word.Word.TheVariants as word;
ghost use Rattle.iscsi_keys.specs.declared.answer.KeyAnswer.TheVariants.{Nothing, Number, Boolean, Word, Reject, NotUnderstood, Irrelevant};
ghost use Rattle.iscsi_keys.specs.declared.fault.NegotiationFault.TheVariants.{KeyTwice, DigestNeeded, AuthenticationFailure, NeededKeyRejected};
ghost use Rattle.iscsi_keys.specs.declared.fault.TextFault.TheVariants.{NoNul, NoEquals};

/// Worked rows: numbers in decimal and in hexadecimal.
pub fn number_rows()
    ensures zero { number_in (codes "0") ≡ Some 0 }
    ensures greatest { number_in (codes "4294967295") ≡ Some 4294967295 }
    ensures too_great { number_in (codes "4294967296") ≡ None }
    ensures hexadecimal { number_in (codes "0x40000") ≡ Some 262144 }
    ensures either_case { number_in (codes "0X1fF") ≡ Some 511 }
    ensures too_great_in_hexadecimal { number_in (codes "0x100000000") ≡ None }
    ensures nothing { number_in (codes "") ≡ None }
    ensures no_digits { number_in (codes "0x") ≡ None }
    ensures no_decimal_digit { number_in (codes "1a") ≡ None }
    ensures sign { number_in (codes "-1") ≡ None }
    ensures space { number_in (codes " 1") ≡ None }
{}

/// Worked rows: texts, and what they begin with.
pub fn text_rows()
    ensures nothing { first_item [] ≡ End }
    ensures pair { first_item (codes "A=b" ++ 0 ∷ codes "C=d" ++ 0 ∷ []) ≡ Pair (codes "A") (codes "b") (codes "C=d" ++ 0 ∷ []) }
    ensures empty_value { first_item (codes "A=" ++ 0 ∷ []) ≡ Pair (codes "A") [] [] }
    ensures equals_in_the_value { first_item (codes "A=b=c" ++ 0 ∷ []) ≡ Pair (codes "A") (codes "b=c") [] }
    ensures no_nul { first_item (codes "A=b") ≡ Invalid NoNul }
    ensures no_equals { first_item (codes "Ab" ++ 0 ∷ codes "C=d" ++ 0 ∷ []) ≡ Invalid NoEquals }
    ensures nul_alone { first_item (0 ∷ []) ≡ End }
    ensures nuls { first_item (0 ∷ 0 ∷ []) ≡ End }
    ensures nul_before_an_item { first_item (0 ∷ codes "A=b" ++ 0 ∷ []) ≡ Invalid NoEquals }
{}

/// Worked rows: each key in its range, at its ends, out of it, and malformed.
pub fn answer_rows()
    ensures initiator_name { answer_for key.InitiatorName (codes "iqn.2026-11.localhost:a") ≡ Nothing }
    ensures auth_method { answer_for key.AuthMethod (codes "CHAP,None") ≡ Word word.None }
    ensures no_auth_method { answer_for key.AuthMethod (codes "CHAP") ≡ Reject }
    ensures by_chap { answer_to by_chap 262144 key.AuthMethod (codes "CHAP,None") ≡ Word word.Chap }
    ensures header_digest { answer_for key.HeaderDigest (codes "None") ≡ Word word.None }
    ensures digest_of_several { answer_for key.DataDigest (codes "CRC32C,None") ≡ Word word.None }
    ensures no_digest { answer_for key.DataDigest (codes "CRC32C") ≡ Reject }
    ensures no_element { answer_for key.HeaderDigest (codes "CRC32C,None2") ≡ Reject }
    ensures connections { answer_for key.MaxConnections (codes "8") ≡ Number 1 }
    ensures most_connections { answer_for key.MaxConnections (codes "65535") ≡ Number 1 }
    ensures no_connection { answer_for key.MaxConnections (codes "0") ≡ Reject }
    ensures too_many_connections { answer_for key.MaxConnections (codes "65536") ≡ Reject }
    ensures initial_r2t { answer_for key.InitialR2t (codes "Yes") ≡ Boolean true }
    ensures no_initial_r2t { answer_for key.InitialR2t (codes "No") ≡ Boolean false }
    ensures small_letters { answer_for key.InitialR2t (codes "yes") ≡ Reject }
    ensures immediate_data { answer_for key.ImmediateData (codes "Yes") ≡ Boolean true }
    ensures no_immediate_data { answer_for key.ImmediateData (codes "No") ≡ Boolean false }
    ensures segment { answer_for key.MaxRecvDataSegmentLength (codes "8192") ≡ Number 262144 }
    ensures longest_segment { answer_for key.MaxRecvDataSegmentLength (codes "0xFFFFFF") ≡ Number 262144 }
    ensures no_segment { answer_for key.MaxRecvDataSegmentLength (codes "0") ≡ Reject }
    ensures too_long_a_segment { answer_for key.MaxRecvDataSegmentLength (codes "16777216") ≡ Reject }
    ensures burst { answer_for key.MaxBurstLength (codes "16776192") ≡ Number 1048576 }
    ensures shortest_burst { answer_for key.MaxBurstLength (codes "512") ≡ Number 512 }
    ensures too_short_a_burst { answer_for key.MaxBurstLength (codes "511") ≡ Reject }
    ensures too_long_a_burst { answer_for key.MaxBurstLength (codes "16777216") ≡ Reject }
    ensures malformed_burst { answer_for key.MaxBurstLength (codes "64K") ≡ Reject }
    ensures first_burst { answer_for key.FirstBurstLength (codes "16777215") ≡ Number 262144 }
    ensures first_burst_within_a_burst { answer_to normal 65536 key.FirstBurstLength (codes "262144") ≡ Number 65536 }
    ensures first_burst_for_hosts { answer_to for_hosts 262144 key.FirstBurstLength (codes "262144") ≡ Number 65536 }
    ensures shorter_first_burst_for_hosts { answer_to for_hosts 262144 key.FirstBurstLength (codes "4096") ≡ Number 4096 }
    ensures first_burst_within_a_burst_for_hosts { answer_to for_hosts 512 key.FirstBurstLength (codes "65536") ≡ Number 512 }
    ensures too_short_a_first_burst { answer_for key.FirstBurstLength (codes "511") ≡ Reject }
    ensures wait { answer_for key.DefaultTime2Wait (codes "3600") ≡ Number 3600 }
    ensures too_long_a_wait { answer_for key.DefaultTime2Wait (codes "3601") ≡ Reject }
    ensures retain { answer_for key.DefaultTime2Retain (codes "60") ≡ Number 0 }
    ensures r2ts { answer_for key.MaxOutstandingR2t (codes "16") ≡ Number 1 }
    ensures no_r2t { answer_for key.MaxOutstandingR2t (codes "0") ≡ Reject }
    ensures pdus_in_order { answer_for key.DataPduInOrder (codes "No") ≡ Boolean true }
    ensures sequences_in_order { answer_for key.DataSequenceInOrder (codes "Yes") ≡ Boolean true }
    ensures recovery_level { answer_for key.ErrorRecoveryLevel (codes "2") ≡ Number 0 }
    ensures no_recovery_level { answer_for key.ErrorRecoveryLevel (codes "3") ≡ Reject }
    ensures task_reporting { answer_for key.TaskReporting (codes "FastAbort,RFC3720") ≡ Word word.Rfc3720 }
    ensures marker { answer_for key.IfMarker (codes "Yes") ≡ Boolean false }
    ensures marker_interval { answer_for key.OfMarkInt (codes "2048~8192") ≡ Reject }
    ensures data_in_discovery { answer_to discovery 262144 key.MaxBurstLength (codes "0") ≡ Irrelevant }
    ensures marker_in_discovery { answer_to discovery 262144 key.IfMarker (codes "No") ≡ Boolean false }
    ensures text_in_discovery { answer_to discovery 262144 key.MaxRecvDataSegmentLength (codes "32768") ≡ Number 262144 }
{}

/// Worked rows: what ends a login, and what an initiator's offers come to.
#[tactic(auto, unfolding(crate::specs::Keys::all_keys))]
pub fn negotiation_rows()
    ensures unknown { answered (begun normal) (codes "X-com.example.key") (codes "1") ≡ Ok NotUnderstood }
    ensures rejected { answered (begun normal) (codes "MaxConnections") (codes "0") ≡ Ok Reject }
    ensures twice { answered (after (begun normal) (offered (codes "MaxConnections") (codes "1") ∷ [])) (codes "MaxConnections") (codes "1") ≡ Err KeyTwice }
    ensures no_digest { answered (begun normal) (codes "HeaderDigest") (codes "CRC32C") ≡ Err DigestNeeded }
    ensures no_method { answered (begun by_chap) (codes "AuthMethod") (codes "None") ≡ Err AuthenticationFailure }
    ensures needed { answered (begun normal) (codes "MaxRecvDataSegmentLength") (codes "0") ≡ Err NeededKeyRejected }
    ensures first_burst_before_burst { (after (begun normal) (offered (codes "FirstBurstLength") (codes "262144") ∷ offered (codes "MaxBurstLength") (codes "8192") ∷ [])).parameters.first_burst_length ≡ 8192 }
    ensures agreed { (after (begun normal) initiator_offers).parameters
        ≡ record { max_send_data_segment_length = 262144; max_burst_length = 1048576; first_burst_length = 262144; initial_r2t = false; immediate_data = true; default_time2wait = 2 } }
{}

/// Worked rows: the names of RFC 7143, "iSCSI Names", and what is none.
pub fn name_rows()
    ensures qualified { is_iscsi_name (codes "iqn.2001-04.com.example:storage:diskarrays-sn-a8675309") ≡ true }
    ensures authority_alone { is_iscsi_name (codes "iqn.2001-04.com.example") ≡ true }
    ensures identifier { is_iscsi_name (codes "eui.02004567A425678D") ≡ true }
    ensures network_address { is_iscsi_name (codes "naa.52004567BA64678D") ≡ true }
    ensures long_network_address { is_iscsi_name (codes "naa.62004567BA64678D0123456789ABCDEF") ≡ true }
    ensures nothing { is_iscsi_name [] ≡ false }
    ensures other_type { is_iscsi_name (codes "wwn.2001-04.com.example") ≡ false }
    ensures no_date { is_iscsi_name (codes "iqn.com.example:host") ≡ false }
    ensures no_authority { is_iscsi_name (codes "iqn.2001-04.") ≡ false }
    ensures capital_letter { is_iscsi_name (codes "iqn.2001-04.com.example:Host") ≡ true }
    ensures low_line { is_iscsi_name (codes "iqn.2001-04.com.example:a_b") ≡ true }
    ensures long_identifier { is_iscsi_name (codes "eui.62004567BA64678D0123456789ABCDEF") ≡ false }
    ensures no_digit { is_iscsi_name (codes "naa.52004567BA64678G") ≡ false }
    ensures longest { is_iscsi_name (codes "iqn.2001-04.com.example:" ++ replicate 199 97) ≡ true }
    ensures too_long { is_iscsi_name (codes "iqn.2001-04.com.example:" ++ replicate 200 97) ≡ false }
    ensures capital_type { is_iscsi_name (codes "IQN.2001-04.com.example") ≡ true }
    ensures capital_network_address { is_iscsi_name (codes "NAA.52004567BA64678D") ≡ true }
    ensures same { is_same_name (codes "iqn.2001-04.com.example:Host_1") (codes "IQN.2001-04.com.example:hOST_1") ≡ true }
    ensures another { is_same_name (codes "iqn.2001-04.com.example:a") (codes "iqn.2001-04.com.example:b") ≡ false }
    ensures longer { is_same_name (codes "iqn.2001-04.com.example") (codes "iqn.2001-04.com.example:") ≡ false }
    ensures space { is_iscsi_name (codes "iqn.2001-04.com.example:a b") ≡ false }
{}
