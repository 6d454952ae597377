ghost use Rattle.std.specs.Prelude.{◌≡◌, [], ◌∷◌, ◌++◌, replicate, take, drop};
ghost use Rattle.iscsi_pdu.specs.Segments.{Partial, Complete, Invalid};
ghost use Rattle.iscsi_pdu.specs.Pdus.{parsed_initiator, parsed_target, initiator_bytes, target_bytes};
ghost use Rattle.iscsi_pdu.specs.Rows.{ping_request_row, ping_request_pdu, inquiry_row, inquiry_pdu, long_cdb_row, long_cdb_pdu, unit_reset_row, unit_reset_pdu, login_request_row, login_request_pdu, short_login_row, short_login_pdu, send_targets_row, send_targets_pdu, data_out_row, data_out_pdu, logout_request_row, logout_request_pdu, snack_row, snack_pdu, vendor_row, vendor_pdu, ping_of_target_row, ping_of_target_pdu, check_condition_row, check_condition_pdu, no_such_unit_row, no_such_unit_pdu, not_let_in_row, not_let_in_pdu, let_in_row, let_in_pdu, part_of_text_row, part_of_text_pdu, first_data_row, first_data_pdu, last_data_row, last_data_pdu, no_such_connection_row, no_such_connection_pdu, r2t_row, r2t_pdu, asks_for_logout_row, asks_for_logout_pdu, rejected_row, rejected_pdu, NumbersRoundTheCircle, StatusesOfNoLogin};
ghost use Rattle.iscsi_pdu.specs.declared.fault.PduFault.TheVariants.{AhsTooLong, DataSegmentTooLong, BadExtendedCdb};

/// Worked rows: each PDU of an initiator, as it is read.
#[tactic(auto, unfolding(crate::specs::Segments::segments, crate::specs::InitiatorHeaders::initiator_header))]
pub fn read_requests()
    ensures ping_request { parsed_initiator 8192 ping_request_row ≡ Complete ping_request_pdu 52 }
    ensures inquiry { parsed_initiator 8192 inquiry_row ≡ Complete inquiry_pdu 48 }
    ensures long_cdb { parsed_initiator 8192 long_cdb_row ≡ Complete long_cdb_pdu 60 }
    ensures unit_reset { parsed_initiator 8192 unit_reset_row ≡ Complete unit_reset_pdu 48 }
    ensures login_request { parsed_initiator 8192 login_request_row ≡ Complete login_request_pdu 64 }
    ensures short_login { parsed_initiator 8192 short_login_row ≡ Complete short_login_pdu 52 }
    ensures send_targets { parsed_initiator 8192 send_targets_row ≡ Complete send_targets_pdu 64 }
    ensures data_out { parsed_initiator 8192 data_out_row ≡ Complete data_out_pdu 56 }
    ensures logout_request { parsed_initiator 8192 logout_request_row ≡ Complete logout_request_pdu 48 }
    ensures snack { parsed_initiator 8192 snack_row ≡ Complete snack_pdu 48 }
    ensures vendor { parsed_initiator 8192 vendor_row ≡ Complete vendor_pdu 48 }
{}

/// Worked rows: each PDU of an initiator, as it is written.
pub fn written_requests()
    ensures ping_request { initiator_bytes ping_request_pdu ≡ ping_request_row }
    ensures inquiry { initiator_bytes inquiry_pdu ≡ inquiry_row }
    ensures long_cdb { initiator_bytes long_cdb_pdu ≡ long_cdb_row }
    ensures unit_reset { initiator_bytes unit_reset_pdu ≡ unit_reset_row }
    ensures login_request { initiator_bytes login_request_pdu ≡ login_request_row }
    ensures short_login { initiator_bytes short_login_pdu ≡ short_login_row }
    ensures send_targets { initiator_bytes send_targets_pdu ≡ send_targets_row }
    ensures data_out { initiator_bytes data_out_pdu ≡ data_out_row }
    ensures logout_request { initiator_bytes logout_request_pdu ≡ logout_request_row }
    ensures snack { initiator_bytes snack_pdu ≡ snack_row }
    ensures vendor { initiator_bytes vendor_pdu ≡ vendor_row }
{}

/// Worked rows: each PDU of a target, as it is read.
#[tactic(auto, unfolding(crate::specs::Segments::segments, crate::specs::TargetHeaders::target_header))]
pub fn read_responses()
    ensures ping_of_target { parsed_target 8192 ping_of_target_row ≡ Complete ping_of_target_pdu 48 }
    ensures check_condition { parsed_target 8192 check_condition_row ≡ Complete check_condition_pdu 52 }
    ensures no_such_unit { parsed_target 8192 no_such_unit_row ≡ Complete no_such_unit_pdu 48 }
    ensures not_let_in { parsed_target 8192 not_let_in_row ≡ Complete not_let_in_pdu 48 }
    ensures let_in { parsed_target 0 let_in_row ≡ Complete let_in_pdu 48 }
    ensures part_of_text { parsed_target 8192 part_of_text_row ≡ Complete part_of_text_pdu 52 }
    ensures first_data { parsed_target 8192 first_data_row ≡ Complete first_data_pdu 52 }
    ensures last_data { parsed_target 8192 last_data_row ≡ Complete last_data_pdu 52 }
    ensures no_such_connection { parsed_target 8192 no_such_connection_row ≡ Complete no_such_connection_pdu 48 }
    ensures r2t { parsed_target 8192 r2t_row ≡ Complete r2t_pdu 48 }
    ensures asks_for_logout { parsed_target 8192 asks_for_logout_row ≡ Complete asks_for_logout_pdu 48 }
    ensures rejected { parsed_target 8192 rejected_row ≡ Complete rejected_pdu 52 }
{}

/// Worked rows: each PDU of a target, as it is written.
pub fn written_responses()
    ensures ping_of_target { target_bytes ping_of_target_pdu ≡ ping_of_target_row }
    ensures check_condition { target_bytes check_condition_pdu ≡ check_condition_row }
    ensures no_such_unit { target_bytes no_such_unit_pdu ≡ no_such_unit_row }
    ensures not_let_in { target_bytes not_let_in_pdu ≡ not_let_in_row }
    ensures let_in { target_bytes let_in_pdu ≡ let_in_row }
    ensures part_of_text { target_bytes part_of_text_pdu ≡ part_of_text_row }
    ensures first_data { target_bytes first_data_pdu ≡ first_data_row }
    ensures last_data { target_bytes last_data_pdu ≡ last_data_row }
    ensures no_such_connection { target_bytes no_such_connection_pdu ≡ no_such_connection_row }
    ensures r2t { target_bytes r2t_pdu ≡ r2t_row }
    ensures asks_for_logout { target_bytes asks_for_logout_pdu ≡ asks_for_logout_row }
    ensures rejected { target_bytes rejected_pdu ≡ rejected_row }
{}

/// Worked rows: what is less than a PDU, what is none, and what makes no difference.
#[tactic(auto, unfolding(crate::specs::Segments::segments, crate::specs::InitiatorHeaders::initiator_header))]
pub fn stream_rows()
    ensures nothing { parsed_initiator 8192 [] ≡ Partial 48 }
    ensures in_the_header { parsed_initiator 8192 (take 47 inquiry_row) ≡ Partial 48 }
    ensures in_the_padding { parsed_initiator 8192 (take 55 data_out_row) ≡ Partial 56 }
    ensures data_within_the_limit { parsed_initiator 5 data_out_row ≡ Complete data_out_pdu 56 }
    ensures data_beyond_the_limit { parsed_initiator 4 data_out_row ≡ Invalid DataSegmentTooLong }
    ensures longest_ahs { parsed_initiator 0 (0x01 ∷ 0x80 ∷ 0 ∷ 0 ∷ 64 ∷ replicate 43 0) ≡ Partial 304 }
    ensures ahs_beyond_the_limit { parsed_initiator 0 (0x01 ∷ 0x80 ∷ 0 ∷ 0 ∷ 65 ∷ replicate 43 0) ≡ Invalid AhsTooLong }
    ensures cdb_past_the_ahs { parsed_initiator 0 (0x01 ∷ 0x80 ∷ 0 ∷ 0 ∷ 1 ∷ replicate 43 0 ++ 0 ∷ 2 ∷ 1 ∷ 0 ∷ []) ≡ Invalid BadExtendedCdb }
    ensures cdb_of_no_reserved_byte { parsed_initiator 0 (0x01 ∷ 0x80 ∷ 0 ∷ 0 ∷ 1 ∷ replicate 43 0 ++ 0 ∷ 0 ∷ 1 ∷ 0 ∷ []) ≡ Invalid BadExtendedCdb }
    ensures bit_7_is_ignored { parsed_initiator 8192 (0xC0 ∷ drop 1 ping_request_row) ≡ Complete ping_request_pdu 52 }
    ensures what_follows { parsed_initiator 8192 (inquiry_row ++ ping_request_row) ≡ Complete inquiry_pdu 48 }
{}

/// Worked rows: serial numbers round the circle, and statuses by their class and detail.
pub fn number_rows()
    ensures circle { NumbersRoundTheCircle }
    ensures statuses { StatusesOfNoLogin }
{}
