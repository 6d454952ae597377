ghost use Rattle.std.specs.Prelude.{◌≡◌, ℕ, Bool, true, false, List, [], ◌∷◌, ◌++◌, replicate, Some, None};
ghost use Rattle.scsi_cdb.specs.declared.profile.Profile.{Profile};
ghost use Rattle.scsi_cdb.specs.declared.profile.Profile.TheVariants.{Spec, Hosts};
ghost use Rattle.scsi_sense.specs.Conditions.{sense_for};
ghost use Rattle.scsi_sense.specs.declared.condition.Condition.TheVariants.{PowerOnOrResetOccurred};
ghost use Rattle.scsi_sense.specs.declared.status.Status.TheVariants.{Good, CheckCondition, Busy};
ghost use Rattle.frames.specs.declared.reply_frame.LoginAnswer.TheVariants.{Accepted, AlreadyConnected};
ghost use Rattle.frames.specs.Replies.{LoginReply, CommandReply, ResetReply, LogoutReply, reply_bytes};
ghost use Rattle.frames.specs.Limits.{frame_size_limit, command_data_limit, reply_limit, reply_size_limit, frame_buffer_size};
ghost use Rattle.frames.specs.declared.fault.FrameFault.TheVariants.{BadFrame, TooLong};
ghost use Rattle.frames.specs.Frames.{FrameValue, Login, Command, Reset, Logout, Partial, Complete, Invalid, parsed_frame};
ghost use Rattle.frames.specs.Rows.{a, login_by, test_unit_ready, write, logout, one_session, one_session_frames, cut_session};
ghost use Rattle.frames.specs.Stream.{Reads, Stop, Waiting, Broken, Feeds, Takes};

/// Worked rows: how long frames and replies are at the most.
pub fn limit_rows()
    ensures frame { frame_size_limit Spec ≡ 131076 }
    ensures command_data { command_data_limit Spec ≡ 131053 }
    ensures reply { reply_limit Spec ≡ 65565 }
    ensures whole_reply { reply_size_limit Spec ≡ 65569 }
    ensures buffer { frame_buffer_size Spec ≡ 262144 }
    ensures frame_for_hosts { frame_size_limit Hosts ≡ 1114116 }
    ensures command_data_for_hosts { command_data_limit Hosts ≡ 1114093 }
    ensures reply_for_hosts { reply_limit Hosts ≡ 1048605 }
    ensures whole_reply_for_hosts { reply_size_limit Hosts ≡ 1048609 }
    ensures buffer_for_hosts { frame_buffer_size Hosts ≡ 2228224 }
{}

/// Worked rows: streams that begin with a frame, and what more lies behind it.
pub fn frame_rows()
    ensures login { parsed_frame Spec false (login_by 1) ≡ Complete (Login a) 15 }
    ensures last_port { parsed_frame Spec false (login_by 4) ≡ Complete (Login (record a { port = 4 })) 15 }
    ensures command { parsed_frame Spec true test_unit_ready ≡ Complete (Command 0 (replicate 6 0) []) 13 }
    ensures write { parsed_frame Spec true (write ++ logout)
        ≡ Complete (Command 1 (0x0A ∷ 0 ∷ 0 ∷ 0 ∷ 4 ∷ 0 ∷ []) (1 ∷ 2 ∷ 3 ∷ 4 ∷ [])) 17 }
    ensures reset { parsed_frame Spec true (0 ∷ 0 ∷ 0 ∷ 2 ∷ 3 ∷ 7 ∷ []) ≡ Complete (Reset 7) 6 }
    ensures logout { parsed_frame Spec true (logout ++ login_by 1) ≡ Complete Logout 5 }
{}

/// Worked rows: streams that begin with less than a frame.
pub fn partial_rows()
    ensures nothing { parsed_frame Spec false [] ≡ Partial }
    ensures in_the_length { parsed_frame Spec true (0 ∷ 0 ∷ 0 ∷ []) ≡ Partial }
    ensures longest { parsed_frame Spec true (0 ∷ 2 ∷ 0 ∷ 0 ∷ []) ≡ Partial }
    ensures longest_for_hosts { parsed_frame Hosts true (0 ∷ 0x11 ∷ 0 ∷ 0 ∷ []) ≡ Partial }
    ensures in_a_login { parsed_frame Spec false (0 ∷ 0 ∷ 0 ∷ 0x0B ∷ 1 ∷ 0x50 ∷ []) ≡ Partial }
    ensures before_the_length_of_a_cdb { parsed_frame Spec true (0 ∷ 0 ∷ 0 ∷ 9 ∷ 2 ∷ 0 ∷ []) ≡ Partial }
    ensures in_a_cdb { parsed_frame Spec true (0 ∷ 0 ∷ 0 ∷ 9 ∷ 2 ∷ 0 ∷ 6 ∷ 0 ∷ []) ≡ Partial }
    ensures before_the_unit { parsed_frame Spec true (0 ∷ 0 ∷ 0 ∷ 2 ∷ 3 ∷ []) ≡ Partial }
{}

/// Worked rows: faults, each told by the first byte that shows it.
pub fn fault_rows()
    ensures no_body { parsed_frame Spec false (0 ∷ 0 ∷ 0 ∷ 0 ∷ []) ≡ Invalid BadFrame }
    ensures too_long { parsed_frame Spec false (0 ∷ 2 ∷ 0 ∷ 1 ∷ []) ≡ Invalid TooLong }
    ensures too_long_for_hosts { parsed_frame Hosts true (0 ∷ 0x11 ∷ 0 ∷ 1 ∷ []) ≡ Invalid TooLong }
    ensures unknown_kind { parsed_frame Spec true (0 ∷ 0 ∷ 0 ∷ 5 ∷ 9 ∷ []) ≡ Invalid BadFrame }
    ensures command_before_login { parsed_frame Spec false (0 ∷ 0 ∷ 0 ∷ 9 ∷ 2 ∷ []) ≡ Invalid BadFrame }
    ensures logout_before_login { parsed_frame Spec false logout ≡ Invalid BadFrame }
    ensures second_login { parsed_frame Spec true (0 ∷ 0 ∷ 0 ∷ 0x0B ∷ 1 ∷ []) ≡ Invalid BadFrame }
    ensures length_of_a_login { parsed_frame Spec false (0 ∷ 0 ∷ 0 ∷ 0x0A ∷ 1 ∷ []) ≡ Invalid BadFrame }
    ensures port_0 { parsed_frame Spec false (login_by 0) ≡ Invalid BadFrame }
    ensures port_5 { parsed_frame Spec false (login_by 5) ≡ Invalid BadFrame }
    ensures command_of_three { parsed_frame Spec true (0 ∷ 0 ∷ 0 ∷ 3 ∷ 2 ∷ []) ≡ Invalid BadFrame }
    ensures empty_cdb { parsed_frame Spec true (0 ∷ 0 ∷ 0 ∷ 9 ∷ 2 ∷ 0 ∷ 0 ∷ []) ≡ Invalid BadFrame }
    ensures cdb_of_17 { parsed_frame Spec true (0 ∷ 0 ∷ 0 ∷ 0x14 ∷ 2 ∷ 0 ∷ 0x11 ∷ []) ≡ Invalid BadFrame }
    ensures cdb_past_the_body { parsed_frame Spec true (0 ∷ 0 ∷ 0 ∷ 8 ∷ 2 ∷ 0 ∷ 6 ∷ []) ≡ Invalid BadFrame }
    ensures length_of_a_reset { parsed_frame Spec true (0 ∷ 0 ∷ 0 ∷ 3 ∷ 3 ∷ []) ≡ Invalid BadFrame }
    ensures length_of_a_logout { parsed_frame Spec true (0 ∷ 0 ∷ 0 ∷ 2 ∷ 4 ∷ []) ≡ Invalid BadFrame }
{}

/// Worked rows: what is read of whole streams, and where that stops.
pub fn stream_rows()
    ensures one_session { Reads Spec false one_session one_session_frames (Waiting true []) }
    ensures cut_session { Reads Spec false cut_session (Login a ∷ []) (Waiting true (0 ∷ 0 ∷ 0 ∷ [])) }
    ensures two_logins { Reads Spec false (login_by 1 ++ login_by 2) (Login a ∷ []) (Broken BadFrame) }
{}

/// Worked rows: streams with a fault, and the frames before it.
pub fn broken_rows()
    ensures no_body { Reads Spec false (0 ∷ 0 ∷ 0 ∷ 0 ∷ []) [] (Broken BadFrame) }
    ensures too_long { Reads Spec false (0 ∷ 2 ∷ 0 ∷ 1 ∷ []) [] (Broken TooLong) }
    ensures unknown_kind { Reads Spec false (0 ∷ 0 ∷ 0 ∷ 5 ∷ 9 ∷ []) [] (Broken BadFrame) }
    ensures port_0 { Reads Spec false (login_by 0) [] (Broken BadFrame) }
    ensures second_login { Reads Spec false (login_by 1 ++ 0 ∷ 0 ∷ 0 ∷ 0x0B ∷ 1 ∷ []) (Login a ∷ []) (Broken BadFrame) }
    ensures cdb_of_17 { Reads Spec false (login_by 1 ++ 0 ∷ 0 ∷ 0 ∷ 0x13 ∷ 2 ∷ 0 ∷ 0x11 ∷ []) (Login a ∷ []) (Broken BadFrame) }
{}

/// Worked rows: replies, byte by byte.
pub fn reply_rows()
    ensures accepted { reply_bytes (LoginReply Accepted) ≡ 0 ∷ 0 ∷ 0 ∷ 2 ∷ 0x81 ∷ 0 ∷ [] }
    ensures already_connected { reply_bytes (LoginReply AlreadyConnected) ≡ 0 ∷ 0 ∷ 0 ∷ 2 ∷ 0x81 ∷ 1 ∷ [] }
    ensures first_contact { reply_bytes (CommandReply CheckCondition (Some (sense_for PowerOnOrResetOccurred)) 1 [])
        ≡ (0 ∷ 0 ∷ 0 ∷ 0x1D ∷ 0x82 ∷ 2 ∷ 0x12 ∷ [])
        ++ (0x70 ∷ 0 ∷ 6 ∷ 0 ∷ 0 ∷ 0 ∷ 0 ∷ 0x0A ∷ 0 ∷ 0 ∷ 0 ∷ 0 ∷ 0x29 ∷ 0 ∷ 0 ∷ 0 ∷ 0 ∷ 0 ∷ [])
        ++ (0 ∷ 0 ∷ 0 ∷ 0 ∷ 0 ∷ 0 ∷ 0 ∷ 1 ∷ []) }
    ensures two_bytes_read { reply_bytes (CommandReply Good None 258 (0x61 ∷ 0x62 ∷ []))
        ≡ 0 ∷ 0 ∷ 0 ∷ 0x0D ∷ 0x82 ∷ 0 ∷ 0 ∷ 0 ∷ 0 ∷ 0 ∷ 0 ∷ 0 ∷ 0 ∷ 1 ∷ 2 ∷ 0x61 ∷ 0x62 ∷ [] }
    ensures busy_reset { reply_bytes (ResetReply Busy) ≡ 0 ∷ 0 ∷ 0 ∷ 2 ∷ 0x83 ∷ 8 ∷ [] }
    ensures logout { reply_bytes LogoutReply ≡ 0 ∷ 0 ∷ 0 ∷ 1 ∷ 0x84 ∷ [] }
{}

/// Law: the frames that a stream begins with, and where that stops, are one answer.
pub fn one_reading()
    ensures { (p : Profile) (l : Bool) (b : List ℕ) (fs gs : List FrameValue) (s t : Stop) → Reads p l b fs s → Reads p l b gs t → (fs ≡ gs) × (s ≡ t) }
{}

/// Law: two pieces of a stream give the frames that they give as one, and end in one state: where a
/// stream is cut changes nothing.
pub fn pieces_join()
    ensures { (profile : Profile) (a s t : Stop) (p q : List ℕ) (fs gs : List FrameValue) → Feeds profile a p fs s → Feeds profile s q gs t → Feeds profile a (p ++ q) (fs ++ gs) t }
{}

/// Law: behind a LOGIN, what is read of a stream is the frames that were taken off its front, and then what
/// is read of the rest.
pub fn taken_is_read()
    ensures { (p : Profile) (pending rest : List ℕ) (fs gs : List FrameValue) (stop : Stop) → Takes p true pending fs rest → Reads p true rest gs stop → Reads p true pending (fs ++ gs) stop }
{}
