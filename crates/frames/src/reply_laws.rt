ghost use Rattle.std.specs.Prelude.{◌≡◌, ℕ, List, [], ◌∷◌, ◌++◌, length, drop, replicate, Some, None};
ghost use Rattle.scsi_cdb.specs.declared.profile.Profile.{Profile};
ghost use Rattle.scsi_cdb.specs.declared.profile.Profile.TheVariants.{Spec, Hosts};
ghost use Rattle.scsi_sense.specs.Conditions.{sense_for};
ghost use Rattle.scsi_sense.specs.declared.condition.Condition.TheVariants.{PowerOnOrResetOccurred};
ghost use Rattle.scsi_sense.specs.declared.status.Status.TheVariants.{Good, CheckCondition, Busy, ReservationConflict};
ghost use Rattle.frames.specs.declared.reply_frame.LoginAnswer.TheVariants.{Accepted, AlreadyConnected};
ghost use Rattle.frames.specs.declared.reply_fault.ReplyFault.TheVariants.{NoBody, TooLong, UnknownKind, BadLength, UnknownAnswer, UnknownStatus, BadSenseLength, BadSense};
ghost use Rattle.frames.specs.Replies.{ReplyFrameValue, LoginReply, CommandReply, ResetReply, LogoutReply, IsShort, reply_bytes};
ghost use Rattle.frames.specs.ParsedReplies.{Partial, Complete, Invalid, IsTellable, parsed_reply};
ghost use Rattle.frames.specs.Rows.{first_contact, two_bytes_read};

use scsi_sense::sense_reads_back;

/// Worked rows: streams that begin with a reply, and what more lies behind it.
pub fn parsed_reply_rows()
    ensures accepted { parsed_reply Spec (0 ∷ 0 ∷ 0 ∷ 2 ∷ 0x81 ∷ 0 ∷ []) ≡ Complete (LoginReply Accepted) 6 }
    ensures already_connected { parsed_reply Spec (0 ∷ 0 ∷ 0 ∷ 2 ∷ 0x81 ∷ 1 ∷ [])
        ≡ Complete (LoginReply AlreadyConnected) 6 }
    ensures two_bytes_read { parsed_reply Spec (two_bytes_read ++ first_contact)
        ≡ Complete (CommandReply Good None 258 (0x61 ∷ 0x62 ∷ [])) 17 }
    ensures first_contact { parsed_reply Spec first_contact
        ≡ Complete (CommandReply CheckCondition (Some (sense_for PowerOnOrResetOccurred)) 1 []) 33 }
    ensures conflict { parsed_reply Spec (0 ∷ 0 ∷ 0 ∷ 0x0B ∷ 0x82 ∷ 0x18 ∷ 0 ∷ 0 ∷ 0 ∷ 0 ∷ 0 ∷ 0 ∷ 0 ∷ 0 ∷ 3 ∷ [])
        ≡ Complete (CommandReply ReservationConflict None 3 []) 15 }
    ensures reset { parsed_reply Spec (0 ∷ 0 ∷ 0 ∷ 2 ∷ 0x83 ∷ 8 ∷ []) ≡ Complete (ResetReply Busy) 6 }
    ensures logout { parsed_reply Spec (0 ∷ 0 ∷ 0 ∷ 1 ∷ 0x84 ∷ 0 ∷ []) ≡ Complete LogoutReply 5 }
{}

/// Worked rows: streams that begin with less than a reply.
pub fn reply_partial_rows()
    ensures nothing { parsed_reply Spec [] ≡ Partial }
    ensures in_the_length { parsed_reply Spec (0 ∷ 0 ∷ 0 ∷ []) ≡ Partial }
    ensures longest { parsed_reply Spec (0 ∷ 1 ∷ 0 ∷ 0x1D ∷ []) ≡ Partial }
    ensures longest_for_hosts { parsed_reply Hosts (0 ∷ 0x10 ∷ 0 ∷ 0x1D ∷ []) ≡ Partial }
    ensures before_the_answer { parsed_reply Spec (0 ∷ 0 ∷ 0 ∷ 2 ∷ 0x81 ∷ []) ≡ Partial }
    ensures before_the_length_of_sense_data { parsed_reply Spec (0 ∷ 0 ∷ 0 ∷ 0x1D ∷ 0x82 ∷ 2 ∷ []) ≡ Partial }
    ensures in_the_sense_data { parsed_reply Spec (0 ∷ 0 ∷ 0 ∷ 0x1D ∷ 0x82 ∷ 2 ∷ 0x12 ∷ 0x70 ∷ []) ≡ Partial }
    ensures in_the_number { parsed_reply Spec (0 ∷ 0 ∷ 0 ∷ 0x0B ∷ 0x82 ∷ 0 ∷ 0 ∷ 0 ∷ []) ≡ Partial }
    ensures in_the_data { parsed_reply Spec (0 ∷ 0 ∷ 0 ∷ 0x0D ∷ 0x82 ∷ 0 ∷ 0 ∷ replicate 8 0 ++ 0x61 ∷ []) ≡ Partial }
{}

/// Worked rows: faults, each told by the first byte that shows it.
pub fn reply_fault_rows()
    ensures no_body { parsed_reply Spec (0 ∷ 0 ∷ 0 ∷ 0 ∷ []) ≡ Invalid NoBody }
    ensures too_long { parsed_reply Spec (0 ∷ 1 ∷ 0 ∷ 0x1E ∷ []) ≡ Invalid TooLong }
    ensures too_long_for_hosts { parsed_reply Hosts (0 ∷ 0x10 ∷ 0 ∷ 0x1E ∷ []) ≡ Invalid TooLong }
    ensures kind_of_a_frame { parsed_reply Spec (0 ∷ 0 ∷ 0 ∷ 2 ∷ 1 ∷ []) ≡ Invalid UnknownKind }
    ensures unknown_kind { parsed_reply Spec (0 ∷ 0 ∷ 0 ∷ 2 ∷ 0x85 ∷ []) ≡ Invalid UnknownKind }
    ensures length_of_an_answer { parsed_reply Spec (0 ∷ 0 ∷ 0 ∷ 3 ∷ 0x81 ∷ []) ≡ Invalid BadLength }
    ensures command_of_ten { parsed_reply Spec (0 ∷ 0 ∷ 0 ∷ 0x0A ∷ 0x82 ∷ []) ≡ Invalid BadLength }
    ensures sense_past_the_body { parsed_reply Spec (0 ∷ 0 ∷ 0 ∷ 0x1C ∷ 0x82 ∷ 2 ∷ 0x12 ∷ []) ≡ Invalid BadLength }
    ensures length_of_a_reset { parsed_reply Spec (0 ∷ 0 ∷ 0 ∷ 1 ∷ 0x83 ∷ []) ≡ Invalid BadLength }
    ensures length_of_a_logout { parsed_reply Spec (0 ∷ 0 ∷ 0 ∷ 2 ∷ 0x84 ∷ []) ≡ Invalid BadLength }
    ensures unknown_answer { parsed_reply Spec (0 ∷ 0 ∷ 0 ∷ 2 ∷ 0x81 ∷ 2 ∷ []) ≡ Invalid UnknownAnswer }
    ensures unknown_status { parsed_reply Spec (0 ∷ 0 ∷ 0 ∷ 0x0B ∷ 0x82 ∷ 4 ∷ []) ≡ Invalid UnknownStatus }
    ensures unknown_status_of_a_reset { parsed_reply Spec (0 ∷ 0 ∷ 0 ∷ 2 ∷ 0x83 ∷ 0x28 ∷ []) ≡ Invalid UnknownStatus }
    ensures sense_of_17 { parsed_reply Spec (0 ∷ 0 ∷ 0 ∷ 0x1D ∷ 0x82 ∷ 2 ∷ 0x11 ∷ []) ≡ Invalid BadSenseLength }
    ensures descriptor_format { parsed_reply Spec (0 ∷ 0 ∷ 0 ∷ 0x1D ∷ 0x82 ∷ 2 ∷ 0x12 ∷ 0x72 ∷ replicate 17 0)
        ≡ Invalid BadSense }
{}

/// Law: a stream that begins with what the server writes for a reply has that very reply at its front (its kind,
/// status, sense data, number and data), and then the rest. So a client reads each reply, in their order.
pub fn reply_is_read()
    ensures parsed { (p : Profile) (r : ReplyFrameValue) (rest : List ℕ) → IsShort p r → IsTellable r
        → parsed_reply p (reply_bytes r ++ rest) ≡ Complete r (length (reply_bytes r)) }
    ensures rest { (r : ReplyFrameValue) (rest : List ℕ) → drop (length (reply_bytes r)) (reply_bytes r ++ rest) ≡ rest }
{
    sense_reads_back();
}

/// Law: a front that is more than a part of a reply stays, whatever follows: where a stream of replies is cut changes
/// nothing.
pub fn reply_stays()
    ensures { (p : Profile) (bytes more : List ℕ) → (parsed_reply p bytes ≡ Partial → ⊥) → parsed_reply p (bytes ++ more) ≡ parsed_reply p bytes }
{}
