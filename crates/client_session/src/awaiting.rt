ghost use Rattle.std.specs.Prelude.{◌≡◌, ◌≤◌, OnOk, IfErr};
ghost use Rattle.read_buffer.specs.Reading.{Added};
ghost use Rattle.frames.specs.Limits.{reply_size_limit};
ghost use Rattle.frames.specs.ParsedReplies.{Partial, parsed_reply};
ghost use Rattle.client_session.specs.Waiting.{EndsBeforeReply};

use crate::client_session_fault::ClientSessionFault;
use frames::{ReplyWait, await_reply};
use read_buffer::ReadBuffer;
use scsi_cdb::Profile;
use std::io::Read;

/// Waits for a reply, and takes each read off `turns`.
///
/// `BadReply`: the reader is at its end before that. `Read`: a read failed, or one more was needed than `turns`.
pub(crate) fn expect_reply<const ROOM: usize, R: Read>(
    profile: Profile,
    read_buffer: &mut ReadBuffer<ROOM>,
    reader: &mut R,
    turns: &mut u64,
) -> Result<(), ClientSessionFault>
    requires { reply_size_limit profile ≤ ROOM }
    ensures read { Added read_buffer.old read_buffer.new (R.remaining reader.old) (R.remaining reader.new) }
    ensures ok { OnOk result (parsed_reply profile read_buffer.new ≡ Partial → ⊥) }
    ensures err { IfErr result (λ fault. EndsBeforeReply profile fault read_buffer.new (R.remaining reader.new)) }
{
    match await_reply(profile, read_buffer, reader, turns) {
        ReplyWait::Arrived => Ok(()),
        ReplyWait::Ended => Err(ClientSessionFault::BadReply),
        ReplyWait::Failed => Err(ClientSessionFault::Read),
    }
}
