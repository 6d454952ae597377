ghost use Rattle.std.specs.Prelude.{◌≡◌, ◌≤◌, ◌*◌, [], IfOk, IfErr};
ghost use Rattle.frames.specs.Limits.{frame_buffer_size};
ghost use Rattle.session.specs.Faults.{IsOfStream};
ghost use Rattle.session.specs.Login.{Awaits, IsKeptOutBy, LeavesReads, ReadsAtMost, end_of};

use crate::fault::{End, SessionFault};
use frames::{FrameRef, ParsedFrame, parse_frame};
use read_buffer::ReadBuffer;
use scsi_cdb::Profile;
use scsi_nexus::Nexus;
use std::io::Read;

/// What came of waiting for a LOGIN.
#[derive(Clone, Copy)]
pub(crate) enum LoginWait {
    /// A LOGIN, with how many reads may follow.
    Login { nexus: Nexus, turns: u64 },
    /// The end of input before it.
    Ended(End),
}

/// Reads until a LOGIN of a session of a library of a profile has come whole, and takes it off what is pending.
pub(crate) fn await_login<const ROOM: usize, R: Read>(
    profile: Profile,
    read_buffer: &mut ReadBuffer<ROOM>,
    reader: &mut R,
    turns: u64,
) -> Result<LoginWait, SessionFault>
    requires empty { read_buffer.old ≡ [] }
    requires room { ROOM ≡ frame_buffer_size profile }
    ensures wait { IfOk result (λ wait. Awaits profile turns (R.remaining reader.old) (R.remaining reader.new) read_buffer.new wait) }
    ensures reads { ReadsAtMost (turns * frame_buffer_size profile) (R.remaining reader.old) (R.remaining reader.new) }
    ensures rest { IfOk result (λ wait. LeavesReads profile turns (R.remaining reader.old) (R.remaining reader.new) wait) }
    ensures fault { IfErr result IsOfStream }
    ensures kept_out { IfErr result (λ fault. IsKeptOutBy profile fault (R.remaining reader.old) (R.remaining reader.new)) }
{
    'reads: for turn in 0..turns {
        match read_buffer.fill(reader) {
            Ok(0) => return Ok(LoginWait::Ended(end_of(read_buffer.pending()))),
            Ok(_) => {}
            Err(_) => return Err(SessionFault::Read),
        }
        match parse_frame(profile, false, read_buffer.pending()) {
            ParsedFrame::Partial => {}
            ParsedFrame::Invalid(fault) => return Err(fault.into()),
            ParsedFrame::Complete(FrameRef::Login { nexus }, count) => {
                read_buffer.consume(count);
                let turns = turns - turn - 1;
                return Ok(LoginWait::Login { nexus, turns });
            }
            // Before a LOGIN there is no other frame.
            ParsedFrame::Complete(FrameRef::Command { .. }, _) => {
                return Err(SessionFault::BadFrame);
            }
            ParsedFrame::Complete(FrameRef::Reset { .. }, _) => return Err(SessionFault::BadFrame),
            ParsedFrame::Complete(FrameRef::Logout, _) => return Err(SessionFault::BadFrame),
        }
    }
    Err(SessionFault::Read)
}

/// How the end of input ends a session: between frames, or within one.
pub(crate) fn end_of(pending: &[u8]) -> End
    ensures { result ≡ end_of pending.now }
{
    if pending.is_empty() {
        End::Closed
    } else {
        End::Cut
    }
}
