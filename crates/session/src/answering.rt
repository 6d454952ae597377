ghost use Rattle.std.specs.Prelude.{◌≡◌, ◌≢◌, ◌≤◌, ◌<◌, ◌+◌, ◌++◌, Ok, Err, IfErr, OnOk, OnErr, vec_len, vec_capacity};
ghost use Rattle.scsi_nexus.specs.declared.nexus.Nexus.{Nexus};
ghost use Rattle.frames.specs.Frames as frames;
ghost use Rattle.frames.specs.Limits.{reply_size_limit};
ghost use Rattle.frames.specs.Views.{frame_value};
ghost use Rattle.frames.specs.Replies.{LogoutReply, reply_bytes};
ghost use Rattle.session.specs.Answering.{Commanded, WasReset, Says, ComesByCalls};
ghost use Rattle.session.specs.Faults.{IsOfAnswer};

use crate::fault::SessionFault;
use crate::service::Service;
use frames::{FrameRef, ReplyFrame, most_reply_data, write_reply};
use scsi_cdb::Profile;
use scsi_nexus::Nexus;
use std::alloc::{AllocError, Global};

/// Submits a command in a session of a library of a profile, and adds the reply frame of its answer. An answer with more data than a reply
/// carries, which no unit of the session's library gives, is `TooLong`.
fn answer_command<S: Service>(
    profile: Profile,
    service: &mut S,
    nexus: Nexus,
    lun: u8,
    cdb: &[u8],
    bytes: &[u8],
    out: &mut Vec<u8>,
) -> Result<(), SessionFault>
    ensures calls { ComesByCalls S.notes nexus service.old service.new }
    ensures said { OnOk result (Commanded S.notes service.old nexus lun cdb.now bytes.now out.old.items out.new.items service.new) }
    ensures most { OnOk result (vec_len out.new ≤ vec_len out.old + reply_size_limit profile) }
    ensures capacity { vec_capacity out.old ≤ vec_capacity out.new }
    ensures full { result ≡ Err SessionFault.NoMemory → vec_capacity out.old < vec_len out.old + reply_size_limit profile }
    ensures fault { IfErr result IsOfAnswer }
{
    let done = service.submit(*out.allocator(), nexus, lun, cdb, bytes);
    let reply = &done.receipt().reply;
    let bytes = reply.payload.bytes();
    if bytes.len() > most_reply_data(profile) {
        return Err(SessionFault::TooLong);
    }
    let frame = ReplyFrame::Command {
        status: reply.status,
        sense: reply.sense,
        number: reply.number,
        bytes,
    };
    write_reply(profile, out, &frame)?;
    Ok(())
}

/// Resets a unit, and adds the reply frame.
fn answer_reset<S: Service>(
    alloc: Global,
    profile: Profile,
    service: &mut S,
    lun: u8,
    out: &mut Vec<u8>,
) -> Result<(), AllocError>
    ensures calls { (n : Nexus) → ComesByCalls S.notes n service.old service.new }
    ensures said { OnOk result (WasReset S.notes service.old lun out.old.items out.new.items service.new) }
    ensures most { OnOk result (vec_len out.new ≤ vec_len out.old + reply_size_limit profile) }
    ensures capacity { vec_capacity out.old ≤ vec_capacity out.new }
    ensures full { OnErr result (vec_capacity out.old < vec_len out.old + reply_size_limit profile) }
{
    let done = service.reset(alloc, lun);
    write_reply(
        profile,
        out,
        &ReplyFrame::Reset(done.receipt().reply.status),
    )
}

/// What comes behind a frame.
#[derive(Clone, Copy)]
pub(crate) enum AfterFrame {
    /// Other frames.
    Frames,
    /// Nothing: it was a LOGOUT.
    Nothing,
    /// A second LOGIN, which no stream of frames gives.
    Again,
}

/// Answers one frame of a session that is logged in.
pub(crate) fn answer_frame<S: Service>(
    alloc: Global,
    profile: Profile,
    service: &mut S,
    nexus: Nexus,
    frame: FrameRef<'_>,
    out: &mut Vec<u8>,
) -> Result<AfterFrame, SessionFault>
    ensures calls { ComesByCalls S.notes nexus service.old service.new }
    ensures goes_on { result ≡ Ok AfterFrame.Frames
        → Says S.notes nexus service.old (frame_value frame.entry) out.old.items out.new.items service.new }
    ensures logout { result ≡ Ok AfterFrame.Nothing → (frame_value frame.entry ≡ frames.Logout)
        × (out.new.items ≡ out.old.items ++ reply_bytes LogoutReply) × (service.new ≡ service.old) }
    ensures most { OnOk result (vec_len out.new ≤ vec_len out.old + reply_size_limit profile) }
    ensures capacity { vec_capacity out.old ≤ vec_capacity out.new }
    ensures full { result ≡ Err SessionFault.NoMemory → vec_capacity out.old < vec_len out.old + reply_size_limit profile }
    ensures fault { IfErr result IsOfAnswer }
{
    match frame {
        FrameRef::Login { .. } => Ok(AfterFrame::Again),
        FrameRef::Command { lun, cdb, bytes } => {
            answer_command(profile, service, nexus, lun, cdb, bytes, out)?;
            Ok(AfterFrame::Frames)
        }
        FrameRef::Reset { lun } => {
            answer_reset(alloc, profile, service, lun, out)?;
            Ok(AfterFrame::Frames)
        }
        FrameRef::Logout => {
            write_reply(profile, out, &ReplyFrame::Logout)?;
            Ok(AfterFrame::Nothing)
        }
    }
}
