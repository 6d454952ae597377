ghost use Rattle.std.specs.Prelude.{◌≡◌, ◌≤◌, ◌<◌, ◌+◌, length};
ghost use Rattle.frames.specs.Limits.{longest_reply, reply_size_limit};
ghost use Rattle.frames.specs.ParsedReplies.{coded_status, parsed_login_reply, parsed_reset_reply, parsed_numbered, parsed_sense, parsed_command_reply, parsed_reply_body, parsed_reply, Partial};
ghost use Rattle.frames.specs.Views.{parsed_reply_value, IsReplyWithin};

use crate::layout::*;
use crate::reply_fault::ReplyFault;
use crate::reply_frame::{LoginAnswer, ParsedReply, ReplyFrame};
use byteorder::{BigEndian, ByteOrder};
use scsi_cdb::Profile;
use scsi_sense::{SENSE_LENGTH, Sense, Status};

fn status_of(code: u8) -> Option<Status>
    ensures { result ≡ coded_status code }
{
    match code {
        0x00 => Some(Status::Good),
        0x02 => Some(Status::CheckCondition),
        0x08 => Some(Status::Busy),
        0x18 => Some(Status::ReservationConflict),
        _ => None,
    }
}

fn login_reply_of(fields: &[u8]) -> ParsedReply<'_>
    ensures parsed { parsed_reply_value result ≡ parsed_login_reply fields.now }
    ensures within { IsReplyWithin (5 + length fields.now) result }
    ensures partial { parsed_reply_value result ≡ Partial → length fields.now < 1 }
{
    let Some(code) = fields.first() else {
        return ParsedReply::Partial;
    };
    let answer = match *code {
        0 => LoginAnswer::Accepted,
        1 => LoginAnswer::AlreadyConnected,
        _ => return ParsedReply::Invalid(ReplyFault::UnknownAnswer),
    };
    ParsedReply::Complete(ReplyFrame::Login(answer), LENGTH_FIELD + 1 + CODE_FIELD)
}

fn reset_reply_of(fields: &[u8]) -> ParsedReply<'_>
    ensures parsed { parsed_reply_value result ≡ parsed_reset_reply fields.now }
    ensures within { IsReplyWithin (5 + length fields.now) result }
    ensures partial { parsed_reply_value result ≡ Partial → length fields.now < 1 }
{
    let Some(code) = fields.first() else {
        return ParsedReply::Partial;
    };
    match status_of(*code) {
        None => ParsedReply::Invalid(ReplyFault::UnknownStatus),
        Some(status) => ParsedReply::Complete(
            ReplyFrame::Reset(status),
            LENGTH_FIELD + 1 + CODE_FIELD,
        ),
    }
}

/// A COMMAND's reply from the number of its record on, of which the body has `size` bytes; `before` are the bytes of
/// the frame before it.
fn numbered_of(
    status: Status,
    sense: Option<Sense>,
    before: usize,
    size: usize,
    left: &[u8],
) -> ParsedReply<'_>
    requires before { before ≤ 25 }
    requires least { 8 ≤ size }
    requires most { size ≤ longest_reply }
    ensures parsed { parsed_reply_value result ≡ parsed_numbered status sense before size left.now }
    ensures within { IsReplyWithin (before + length left.now) result }
    ensures partial { parsed_reply_value result ≡ Partial → length left.now < size }
{
    if left.len() < size {
        return ParsedReply::Partial;
    }
    let reply = ReplyFrame::Command {
        status,
        sense,
        number: BigEndian::read_u64(left),
        bytes: &left[NUMBER_FIELD..size],
    };
    ParsedReply::Complete(reply, before + size)
}

/// A COMMAND's reply whose body has `size` bytes, from its sense data on.
fn sensed_of(status: Status, size: usize, left: &[u8]) -> ParsedReply<'_>
    requires most { size ≤ longest_reply }
    ensures parsed { parsed_reply_value result ≡ parsed_sense status size left.now }
    ensures within { IsReplyWithin (7 + length left.now) result }
    ensures partial { parsed_reply_value result ≡ Partial → length left.now + 3 < size }
{
    let before = BEFORE_SENSE + SENSE_LENGTH;
    if size < before + NUMBER_FIELD {
        return ParsedReply::Invalid(ReplyFault::BadLength);
    }
    if left.len() < SENSE_LENGTH {
        return ParsedReply::Partial;
    }
    let (sense, left) = left.split_at(SENSE_LENGTH);
    match Sense::from_bytes(sense) {
        Err(_) => ParsedReply::Invalid(ReplyFault::BadSense),
        Ok(sense) => numbered_of(
            status,
            Some(sense),
            LENGTH_FIELD + before,
            size - before,
            left,
        ),
    }
}

/// A COMMAND's reply whose body has `size` bytes, from its status on.
fn command_reply_of(size: usize, fields: &[u8]) -> ParsedReply<'_>
    requires least { 11 ≤ size }
    requires most { size ≤ longest_reply }
    ensures parsed { parsed_reply_value result ≡ parsed_command_reply size fields.now }
    ensures within { IsReplyWithin (5 + length fields.now) result }
    ensures partial { parsed_reply_value result ≡ Partial → length fields.now + 1 < size }
{
    let Some((code, counted)) = fields.split_first() else {
        return ParsedReply::Partial;
    };
    let Some(status) = status_of(*code) else {
        return ParsedReply::Invalid(ReplyFault::UnknownStatus);
    };
    let Some((count, left)) = counted.split_first() else {
        return ParsedReply::Partial;
    };
    match *count {
        0 => numbered_of(
            status,
            None,
            LENGTH_FIELD + BEFORE_SENSE,
            size - BEFORE_SENSE,
            left,
        ),
        SENSE_COUNT => sensed_of(status, size, left),
        _ => ParsedReply::Invalid(ReplyFault::BadSenseLength),
    }
}

/// What a body of `size` bytes begins with, by its kind.
#[tactic(auto, unfolding(crate::specs::ParsedReplies::parsed_reply_body))]
fn reply_body_of(size: usize, body: &[u8]) -> ParsedReply<'_>
    requires least { 0 < size }
    requires most { size ≤ longest_reply }
    ensures parsed { parsed_reply_value result ≡ parsed_reply_body size body.now }
    ensures within { IsReplyWithin (4 + length body.now) result }
    ensures partial { parsed_reply_value result ≡ Partial → length body.now < size }
{
    let Some((kind, fields)) = body.split_first() else {
        return ParsedReply::Partial;
    };
    match *kind {
        LOGIN_REPLY if size == 1 + CODE_FIELD => login_reply_of(fields),
        COMMAND_REPLY if size >= COMMAND_REPLY_FIELDS => command_reply_of(size, fields),
        RESET_REPLY if size == 1 + CODE_FIELD => reset_reply_of(fields),
        LOGOUT_REPLY if size == 1 => ParsedReply::Complete(ReplyFrame::Logout, LENGTH_FIELD + 1),
        LOGIN_REPLY | COMMAND_REPLY | RESET_REPLY | LOGOUT_REPLY => {
            ParsedReply::Invalid(ReplyFault::BadLength)
        }
        _ => ParsedReply::Invalid(ReplyFault::UnknownKind),
    }
}

/// What a stream of replies begins with, as a client of a library of a profile reads it. Nothing is copied, and a fault is told by the first
/// byte that shows it, of sense data once all 18 bytes are there.
#[tactic(auto, unfolding(crate::specs::ParsedReplies::parsed_reply))]
pub fn parse_reply(profile: Profile, bytes: &[u8]) -> ParsedReply<'_>
    ensures parsed { parsed_reply_value result ≡ parsed_reply profile bytes.now }
    ensures within { IsReplyWithin (length bytes.now) result }
    ensures partial { parsed_reply_value result ≡ Partial → length bytes.now < reply_size_limit profile }
{
    if bytes.len() < LENGTH_FIELD {
        return ParsedReply::Partial;
    }
    let size = BigEndian::read_u32(bytes) as usize;
    if size == 0 {
        return ParsedReply::Invalid(ReplyFault::NoBody);
    }
    if size > most_reply(profile) {
        return ParsedReply::Invalid(ReplyFault::TooLong);
    }
    reply_body_of(size, &bytes[LENGTH_FIELD..])
}
