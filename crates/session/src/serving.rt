ghost use Rattle.std.specs.Prelude.{◌≡◌, ◌⊎◌, ◌≤◌, ◌*◌, IfOk, IfErr, OnOk, IsOkUnless, [], vec_len, vec_capacity};
ghost use Rattle.std.specs.Io.KnownBytes.{Appends};
ghost use Rattle.frames.specs.Limits.{frame_buffer_size};
ghost use Rattle.session.specs.Limits.{out_room};
ghost use Rattle.session.specs.Leaving.{Leaves};
ghost use Rattle.session.specs.Login.{ReadsAtMost};
ghost use Rattle.session.specs.Serving.{IsLostBelow, IsKeptOut, BreaksOff, Serves, refusal};

use crate::fault::{End, SessionFault};
use crate::logged_in::{Session, flush, room_for_replies};
use crate::login::{LoginWait, await_login};
use crate::service::Service;
use frames::{FRAME_BUFFER, HOSTS_FRAME_BUFFER, LoginAnswer, ReplyFrame, write_reply};
use read_buffer::ReadBuffer;
use scsi_cdb::Profile;
use scsi_nexus::Nexus;
use scsi_sense::Status;
use std::alloc::Global;
use std::io::{Read, Write};

/// Loses a nexus at every unit, also where another has no room for it, and says whether none was BUSY.
pub fn lose_all<S: Service>(alloc: Global, service: &mut S, nexus: Nexus, units: u8) -> bool
    ensures { IsLostBelow S.notes nexus units service.old service.new result }
{
    let mut is_lost = true;
    'units: for lun in 0..units {
        let done = service.lose(alloc, nexus, lun);
        is_lost = is_lost && done.receipt().reply.status != Status::Busy;
    }
    is_lost
}

/// Loses a nexus at every unit, and says whether none was BUSY.
pub fn lose_at_units<S: Service>(alloc: Global, service: &mut S, nexus: Nexus) -> bool
    ensures { IsLostBelow S.notes nexus (S.count service.old) service.old service.new result }
{
    let units = service.units();
    lose_all(alloc, service, nexus, units)
}

/// Tells a client that its LOGIN is refused, where it is since the nexus has a session already.
fn refuse_login<W: Write>(
    profile: Profile,
    fault: SessionFault,
    out: &mut Vec<u8>,
    writer: &mut W,
) -> Result<(), SessionFault>
    requires empty { (out.old.items ≡ []) × (vec_len out.old ≡ 0) }
    requires room { out_room profile ≤ vec_capacity out.old }
    ensures said { OnOk result (Appends (W.contents writer.old) (W.contents writer.new) (refusal fault)) }
    ensures fault { IsOkUnless result SessionFault.Write }
{
    match fault {
        SessionFault::AlreadyConnected => {
            write_reply(
                profile,
                out,
                &ReplyFrame::Login(LoginAnswer::AlreadyConnected),
            )?;
            flush(out, writer)
        }
        SessionFault::BadFrame
        | SessionFault::TooLong
        | SessionFault::Read
        | SessionFault::Write
        | SessionFault::NoMemory => Ok(()),
    }
}

/// A session with a buffer of that size for what is read.
fn serve_with<const ROOM: usize, S: Service, R: Read, W: Write>(
    alloc: Global,
    profile: Profile,
    mut read_buffer: ReadBuffer<ROOM>,
    service: &mut S,
    reader: &mut R,
    writer: &mut W,
    turns: u64,
) -> Result<End, SessionFault>
    requires empty { read_buffer ≡ [] }
    requires buffer { ROOM ≡ frame_buffer_size profile }
    ensures session { IfOk result (λ end. Serves profile S.notes S.count service.old (R.remaining reader.old) (R.remaining reader.new)
        (W.contents writer.old) (W.contents writer.new) end service.new) }
    ensures broken { IfErr result (λ fault. IsKeptOut profile service.old (R.remaining reader.old) (R.remaining reader.new)
        (W.contents writer.old) (W.contents writer.new) fault service.new ⊎ BreaksOff profile S.notes S.count service.old (R.remaining reader.old) fault service.new) }
    ensures reads { ReadsAtMost (turns * frame_buffer_size profile) (R.remaining reader.old) (R.remaining reader.new) }
    ensures service { Leaves S.notes S.count service.old service.new }
{
    let mut out = Vec::with_capacity(alloc, room_for_replies(profile))?;
    let (nexus, left) = match await_login(profile, &mut read_buffer, reader, turns)? {
        LoginWait::Login { nexus, turns } => (nexus, turns),
        LoginWait::Ended(end) => return Ok(end),
    };
    let key = match service.login(nexus) {
        Ok(key) => key,
        Err(fault) => {
            refuse_login(profile, fault, &mut out, writer)?;
            return Err(fault);
        }
    };
    let mut session = Session {
        nexus,
        read_buffer,
        out,
    };
    let ended = session.greet_and_serve(alloc, profile, service, reader, writer, left);
    let is_lost = lose_at_units(alloc, service, nexus);
    service.logout(key);
    if !is_lost {
        return Err(SessionFault::NoMemory);
    }
    ended
}

/// The life of a session:
///
/// ```text
///   no LOGIN yet ── LOGIN, the nexus is free ──> logged in ── COMMAND, RESET ──> logged in
///        │                                          │
///        │ LOGIN of a nexus with a session:         │ LOGOUT, the end of input, a fault, a failed read or write:
///        │ refused, nothing is lost                 │ the nexus is lost at every unit and leaves the directory
///        │ the end of input, a fault: nothing       │
///        v                                          v
///      ended                                      ended
/// ```
///
/// One session of a library of a profile: its frames, however the stream is cut, and a reply frame for each, in order, from the answer to
/// that very frame's call; the reader is read at most `turns` times, for `FRAME_BUFFER` bytes each, or in the hosts' profile
/// `HOSTS_FRAME_BUFFER`; a clause bounds the bytes. Room for the largest reply, behind what waits to be written, is made before a LOGIN is
/// answered: from then on no reply takes memory.
///
/// However a session that logged in ends, its nexus is lost at every unit, also where another has no
/// room for the loss, and then leaves the directory. Where a loss was BUSY the end is `NoMemory`. A session that isn't let in
/// changes nothing, and is told so where its nexus has a session already, as long as that can be written.
pub fn serve<S: Service, R: Read, W: Write>(
    alloc: Global,
    profile: Profile,
    service: &mut S,
    reader: &mut R,
    writer: &mut W,
    turns: u64,
) -> Result<End, SessionFault>
    ensures session { IfOk result (λ end. Serves profile S.notes S.count service.old (R.remaining reader.old) (R.remaining reader.new)
        (W.contents writer.old) (W.contents writer.new) end service.new) }
    ensures broken { IfErr result (λ fault. IsKeptOut profile service.old (R.remaining reader.old) (R.remaining reader.new)
        (W.contents writer.old) (W.contents writer.new) fault service.new ⊎ BreaksOff profile S.notes S.count service.old (R.remaining reader.old) fault service.new) }
    ensures reads { ReadsAtMost (turns * frame_buffer_size profile) (R.remaining reader.old) (R.remaining reader.new) }
    ensures service { Leaves S.notes S.count service.old service.new }
{
    match profile {
        Profile::Spec => {
            let read_buffer: ReadBuffer<FRAME_BUFFER> = ReadBuffer::new(alloc)?;
            serve_with(alloc, profile, read_buffer, service, reader, writer, turns)
        }
        Profile::Hosts => {
            let read_buffer: ReadBuffer<HOSTS_FRAME_BUFFER> = ReadBuffer::new(alloc)?;
            serve_with(alloc, profile, read_buffer, service, reader, writer, turns)
        }
    }
}
