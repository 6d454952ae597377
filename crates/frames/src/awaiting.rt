ghost use Rattle.std.specs.Prelude.{◌≡◌, ◌≤◌};
ghost use Rattle.std.specs.Io.KnownBytes.{Keeps, IsAtEnd};
ghost use Rattle.read_buffer.specs.Reading.{Added};
ghost use Rattle.frames.specs.Limits.{reply_size_limit};
ghost use Rattle.frames.specs.ParsedReplies.{Partial, parsed_reply};

use crate::reply_frame::ParsedReply;
use crate::reply_parse::parse_reply;
use read_buffer::ReadBuffer;
use scsi_cdb::Profile;
use std::io::Read;

/// What came of waiting for a reply.
#[derive(Clone, Copy)]
pub enum ReplyWait {
    /// What is pending begins with a reply, or with what is none.
    Arrived,
    /// The reader is at its end, and less than a reply is pending.
    Ended,
    /// A read failed, also by an interruption, or one more was needed than was allowed; less than a reply is pending.
    Failed,
}

/// Reads until what is pending begins with more than a part of a reply of a library of a profile, and takes each read off `turns`. Where it
/// does already, nothing is read. What was read is pending in any case, and a client may wait again. The buffer has room for the longest
/// reply.
pub fn await_reply<const ROOM: usize, R: Read>(
    profile: Profile,
    read_buffer: &mut ReadBuffer<ROOM>,
    reader: &mut R,
    turns: &mut u64,
) -> ReplyWait
    requires { reply_size_limit profile ≤ ROOM }
    ensures read { Added read_buffer.old read_buffer.new (R.remaining reader.old) (R.remaining reader.new) }
    ensures arrived { result ≡ ReplyWait.Arrived → parsed_reply profile read_buffer.new ≡ Partial → ⊥ }
    ensures ended { result ≡ ReplyWait.Ended → (parsed_reply profile read_buffer.new ≡ Partial) × IsAtEnd (R.remaining reader.new) }
    ensures failed { result ≡ ReplyWait.Failed → parsed_reply profile read_buffer.new ≡ Partial }
    ensures ready { (parsed_reply profile read_buffer.old ≡ Partial → ⊥)
        → (result ≡ ReplyWait.Arrived) × (read_buffer.new ≡ read_buffer.old) × Keeps (R.remaining reader.old) (R.remaining reader.new) }
{
    'reads: loop {
        match parse_reply(profile, read_buffer.pending()) {
            ParsedReply::Partial => {}
            _ => return ReplyWait::Arrived,
        }
        if *turns == 0 {
            return ReplyWait::Failed;
        }
        *turns -= 1;
        match read_buffer.fill(reader) {
            Ok(0) => return ReplyWait::Ended,
            Ok(_) => {}
            Err(_) => return ReplyWait::Failed,
        }
    }
}
