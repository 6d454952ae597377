ghost use Rattle.std.specs.Prelude.{◌≡◌, ◌≤◌, ◌<◌, ◌+◌, length};
ghost use Rattle.frames.specs.Frames.{parsed_login, parsed_command, parsed_reset, parsed_body, parsed_frame, Partial};
ghost use Rattle.frames.specs.Limits.{longest_frame, frame_size_limit};
ghost use Rattle.frames.specs.Views.{parsed_value, IsWithin};

use crate::fault::FrameFault;
use crate::frame::{FrameRef, ParsedFrame};
use crate::layout::*;
use byteorder::{BigEndian, ByteOrder};
use scsi_cdb::Profile;
use scsi_nexus::Nexus;

/// A LOGIN of these bytes behind its kind.
fn login_of(fields: &[u8]) -> ParsedFrame<'_>
    ensures parsed { parsed_value result ≡ parsed_login fields.now }
    ensures within { IsWithin (5 + length fields.now) result }
    ensures partial { parsed_value result ≡ Partial → length fields.now < 10 }
{
    if fields.len() < LOGIN_FIELDS {
        return ParsedFrame::Partial;
    }
    let sas = BigEndian::read_u64(fields);
    let port = BigEndian::read_u16(&fields[PORT..]);
    let nexus = Nexus { sas, port };
    if !nexus.has_target_port() {
        return ParsedFrame::Invalid(FrameFault::BadFrame);
    }
    ParsedFrame::Complete(FrameRef::Login { nexus }, LENGTH_FIELD + 1 + LOGIN_FIELDS)
}

/// A COMMAND whose body has `size` bytes, of these behind its kind.
fn command_of(size: usize, fields: &[u8]) -> ParsedFrame<'_>
    requires least { 4 ≤ size }
    requires most { size ≤ longest_frame }
    ensures parsed { parsed_value result ≡ parsed_command size fields.now }
    ensures within { IsWithin (5 + length fields.now) result }
    ensures partial { parsed_value result ≡ Partial → length fields.now + 1 < size }
{
    if fields.len() < COMMAND_FIELDS {
        return ParsedFrame::Partial;
    }
    let cdb_end = COMMAND_FIELDS + fields[1] as usize;
    if fields[1] == 0 || fields[1] as usize > MAX_CDB {
        return ParsedFrame::Invalid(FrameFault::BadFrame);
    }
    if size < 1 + cdb_end {
        return ParsedFrame::Invalid(FrameFault::BadFrame);
    }
    if fields.len() < size - 1 {
        return ParsedFrame::Partial;
    }
    let frame = FrameRef::Command {
        lun: fields[0],
        cdb: &fields[COMMAND_FIELDS..cdb_end],
        bytes: &fields[cdb_end..size - 1],
    };
    ParsedFrame::Complete(frame, LENGTH_FIELD + size)
}

fn reset_of(fields: &[u8]) -> ParsedFrame<'_>
    ensures parsed { parsed_value result ≡ parsed_reset fields.now }
    ensures within { IsWithin (5 + length fields.now) result }
    ensures partial { parsed_value result ≡ Partial → length fields.now < 1 }
{
    match fields.first() {
        None => ParsedFrame::Partial,
        Some(lun) => ParsedFrame::Complete(FrameRef::Reset { lun: *lun }, LENGTH_FIELD + 2),
    }
}

/// What a body of `size` bytes begins with, by its kind.
#[tactic(auto, unfolding(crate::specs::Frames::parsed_body))]
fn body_of(logged_in: bool, size: usize, body: &[u8]) -> ParsedFrame<'_>
    requires least { 0 < size }
    requires most { size ≤ longest_frame }
    ensures parsed { parsed_value result ≡ parsed_body logged_in size body.now }
    ensures within { IsWithin (4 + length body.now) result }
    ensures partial { parsed_value result ≡ Partial → length body.now < size }
{
    let Some((kind, fields)) = body.split_first() else {
        return ParsedFrame::Partial;
    };
    match *kind {
        LOGIN if !logged_in && size == 1 + LOGIN_FIELDS => login_of(fields),
        COMMAND if logged_in && size > 1 + COMMAND_FIELDS => command_of(size, fields),
        RESET if logged_in && size == 2 => reset_of(fields),
        LOGOUT if logged_in && size == 1 => ParsedFrame::Complete(
            FrameRef::Logout,
            LENGTH_FIELD + 1,
        ),
        _ => ParsedFrame::Invalid(FrameFault::BadFrame),
    }
}

/// What a stream begins with, after a LOGIN or before it, in a session of a library of a profile. Nothing is copied, and a fault is told by
/// the first byte that shows it.
#[tactic(auto, unfolding(crate::specs::Frames::parsed_frame))]
pub fn parse_frame(profile: Profile, logged_in: bool, bytes: &[u8]) -> ParsedFrame<'_>
    ensures parsed { parsed_value result ≡ parsed_frame profile logged_in bytes.now }
    ensures within { IsWithin (length bytes.now) result }
    ensures partial { parsed_value result ≡ Partial → length bytes.now < frame_size_limit profile }
{
    if bytes.len() < LENGTH_FIELD {
        return ParsedFrame::Partial;
    }
    let size = BigEndian::read_u32(bytes) as usize;
    if size == 0 {
        return ParsedFrame::Invalid(FrameFault::BadFrame);
    }
    if size > most_body(profile) {
        return ParsedFrame::Invalid(FrameFault::TooLong);
    }
    body_of(logged_in, size, &bytes[LENGTH_FIELD..])
}
