ghost use Rattle.std.specs.Prelude.{◌≡◌, ◌≤◌, length, OnOk, IfOk, IfErr};
ghost use Rattle.std.specs.Io.KnownBytes.{Appends};
ghost use Rattle.frames.specs.Sending.{IsSendable, frame_bytes};
ghost use Rattle.frames.specs.ParsedReplies.{Partial, parsed_reply};
ghost use Rattle.frames.specs.Views.{frame_value};
ghost use Rattle.client_session.specs.Waiting.{Answers, IsOfSending, IsWhy};

use crate::client_session_fault::ClientSessionFault;
use frames::{FrameRef, LoginAnswer, ParsedReply, ReplyFrame, parse_reply, write_frame};
use output_lines::{Explanations, write_explained, write_out};
use scsi_cdb::Profile;
use std::io::Write;

/// Sends a frame to a library of a profile.
pub(crate) fn send<W: Write>(
    profile: Profile,
    frame: &FrameRef<'_>,
    buffer: &mut Vec<u8>,
    writer: &mut W,
) -> Result<(), ClientSessionFault>
    requires { IsSendable profile (frame_value frame.now) }
    ensures ok { OnOk result (Appends (W.contents writer.old) (W.contents writer.new) (frame_bytes (frame_value frame.now))) }
    ensures err { IfErr result IsOfSending }
{
    buffer.clear();
    write_frame(profile, buffer, frame)?;
    match write_out(writer, buffer.as_slice()) {
        Ok(()) => Ok(()),
        Err(_) => Err(ClientSessionFault::Write),
    }
}

/// Takes the reply to a frame that is pending, adds what is written of it, and answers how many bytes the reply has.
pub(crate) fn take_reply(
    profile: Profile,
    words: Explanations,
    frame: &FrameRef<'_>,
    pending: &[u8],
    line: &mut Vec<u8>,
) -> Result<usize, ClientSessionFault>
    requires { parsed_reply profile pending.now ≡ Partial → ⊥ }
    ensures within { IfOk result (λ count. count ≤ length pending.now) }
    ensures ok { IfOk result (λ count. Answers profile words (frame_value frame.now) (parsed_reply profile pending.now) count line.old.items line.new.items) }
    ensures err { IfErr result (λ fault. IsWhy fault (frame_value frame.now) (parsed_reply profile pending.now)) }
{
    let (reply, count) = match parse_reply(profile, pending) {
        ParsedReply::Complete(reply, count) => (reply, count),
        ParsedReply::Partial => return Err(ClientSessionFault::BadReply),
        ParsedReply::Invalid(_) => return Err(ClientSessionFault::BadReply),
    };
    match (frame, reply) {
        (FrameRef::Login { .. }, ReplyFrame::Login(LoginAnswer::Accepted)) => {}
        (FrameRef::Login { nexus }, ReplyFrame::Login(LoginAnswer::AlreadyConnected)) => {
            return Err(ClientSessionFault::Refused(*nexus));
        }
        (
            FrameRef::Command { lun, cdb, .. },
            ReplyFrame::Command {
                status,
                sense,
                bytes,
                ..
            },
        ) => {
            write_explained(line, words, profile, *lun, cdb, status, &sense, bytes)?;
        }
        (FrameRef::Reset { lun }, ReplyFrame::Reset(status)) => {
            write_explained(line, words, profile, *lun, b"", status, &None, b"")?;
        }
        (FrameRef::Logout, ReplyFrame::Logout) => {}
        _ => return Err(ClientSessionFault::BadReply),
    }
    Ok(count)
}
