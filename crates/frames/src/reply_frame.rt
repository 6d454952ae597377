ghost use Rattle.std.specs.Prelude.{◌≡◌, ◌≤◌, ◌<◌, ◌+◌, ◌++◌, length, vec_len, vec_capacity, OnOk, OnErr};
ghost use Rattle.frames.specs.Limits.{reply_data_limit, reply_size_limit};
ghost use Rattle.frames.specs.Replies.{IsShort, reply_bytes, sense_bytes, login_code, CommandReply};
ghost use Rattle.frames.specs.Views.{reply_value};

use crate::layout::*;
use crate::reply_fault::ReplyFault;
use scsi_cdb::Profile;
use scsi_sense::{Sense, Status};
use std::alloc::AllocError;

/// How a LOGIN is answered.
#[derive(Clone, Copy)]
pub enum LoginAnswer {
    Accepted,
    /// The nexus has a session already.
    AlreadyConnected,
}

/// What a session is answered, one reply a frame.
#[derive(Clone, Copy)]
pub enum ReplyFrame<'a> {
    Login(LoginAnswer),
    /// A command's status, its sense data where it has any, the number of its record, and its data.
    Command {
        status: Status,
        sense: Option<Sense>,
        number: u64,
        bytes: &'a [u8],
    },
    Reset(Status),
    Logout,
}

/// What a stream of replies begins with.
#[derive(Clone, Copy)]
pub enum ParsedReply<'a> {
    /// Less than a reply.
    Partial,
    /// A reply, and how many bytes it takes.
    Complete(ReplyFrame<'a>, usize),
    Invalid(ReplyFault),
}

fn code_of(answer: LoginAnswer) -> u8
    ensures { result ≡ login_code answer }
{
    match answer {
        LoginAnswer::Accepted => 0,
        LoginAnswer::AlreadyConnected => 1,
    }
}

/// Adds a reply frame in a session of a library of a profile: four bytes of length, then a body whose first byte is its kind. Room for all
/// of it is made first; where memory is refused, nothing that counts was added. No reply has more bytes than `most_reply` behind its
/// length, so none takes memory where there is room for as many.
pub fn write_reply(
    profile: Profile,
    out: &mut Vec<u8>,
    reply: &ReplyFrame<'_>,
) -> Result<(), AllocError>
    requires { IsShort profile (reply_value reply.now) }
    ensures added { OnOk result (out.new.items ≡ out.old.items ++ reply_bytes (reply_value reply.now)) }
    ensures most { OnOk result (vec_len out.new ≤ vec_len out.old + reply_size_limit profile) }
    ensures capacity { vec_capacity out.old ≤ vec_capacity out.new }
    ensures full { OnErr result (vec_capacity out.old < vec_len out.old + reply_size_limit profile) }
{
    match reply {
        ReplyFrame::Login(answer) => {
            out.extend_from_slice(&[0, 0, 0, 2, LOGIN_REPLY, code_of(*answer)])
        }
        ReplyFrame::Command {
            status,
            sense,
            number,
            bytes,
        } => write_command_reply(profile, out, *status, sense, *number, bytes),
        ReplyFrame::Reset(status) => {
            out.extend_from_slice(&[0, 0, 0, 2, RESET_REPLY, status.code()])
        }
        ReplyFrame::Logout => out.extend_from_slice(&[0, 0, 0, 1, LOGOUT_REPLY]),
    }
}

/// Adds the reply to a COMMAND.
fn write_command_reply(
    profile: Profile,
    out: &mut Vec<u8>,
    status: Status,
    sense: &Option<Sense>,
    number: u64,
    bytes: &[u8],
) -> Result<(), AllocError>
    requires { length bytes.now ≤ reply_data_limit profile }
    ensures added { OnOk result (out.new.items ≡ out.old.items ++ reply_bytes (CommandReply status sense.now number bytes.now)) }
    ensures most { OnOk result (vec_len out.new ≤ vec_len out.old + reply_size_limit profile) }
    ensures capacity { vec_capacity out.old ≤ vec_capacity out.new }
    ensures full { OnErr result (vec_capacity out.old < vec_len out.old + reply_size_limit profile) }
{
    let size = COMMAND_REPLY_FIELDS + sense_length(sense) as usize + bytes.len();
    out.reserve(LENGTH_FIELD + size)?;
    out.extend_from_slice(&(size as u32).to_be_bytes())?;
    out.extend_from_slice(&[COMMAND_REPLY, status.code(), sense_length(sense)])?;
    if let Some(sense) = sense {
        out.extend_from_slice(&sense.to_bytes())?;
    }
    out.extend_from_slice(&number.to_be_bytes())?;
    out.extend_from_slice(bytes)
}

fn sense_length(sense: &Option<Sense>) -> u8
    ensures value { result ≡ length (sense_bytes sense.now) }
    ensures most { result ≤ 18 }
{
    match sense {
        None => 0,
        Some(_) => SENSE_COUNT,
    }
}
