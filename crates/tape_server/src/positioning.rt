//! SPACE, LOCATE and READ POSITION (SSC-4, "SPACE(6) command", "LOCATE(10) command", "READ POSITION command").

ghost use Rattle.std.specs.Prelude.{◌≡◌, IfOk, unsigned_abs};
ghost use Rattle.tape_medium.specs.Space.{spaced};
ghost use Rattle.device_server.specs.Drive.{space_code, space_ended, stopped, locates, position_data};
ghost use Rattle.device_server.specs.HostDrive.{host_position_data};

use crate::early_warning::is_in_zone;
use crate::sense::{at_beginning, at_end_of_data, at_mark};
use device_server::{Outcome, Payload};
use scsi_sense::Condition;
use std::alloc::{AllocError, Global};
use tape_medium::{SpaceCode, Stop, Tape};

/// Spaces over blocks, filemarks or to the end of data, by the code of the CDB.
pub(crate) fn space(alloc: Global, tape: &mut Tape, code: u8, count: i32) -> Outcome
    ensures { space_ended (unsigned_abs count) (spaced (space_code code) tape.old count) ≡ (tape.new, result) }
{
    let end = tape.space(space_code(code), count);
    stopped(
        alloc,
        count.unsigned_abs().saturating_sub(end.moved),
        end.stop,
    )
}

fn space_code(code: u8) -> SpaceCode
    ensures { result ≡ space_code code }
{
    match code {
        0 => SpaceCode::Blocks,
        1 => SpaceCode::Marks,
        _ => SpaceCode::EndOfData,
    }
}

/// The end of a SPACE that has so many left to pass.
fn stopped(alloc: Global, left: u32, stop: Stop) -> Outcome
    ensures { result ≡ stopped left stop }
{
    let none = Payload::none(alloc);
    match stop {
        Stop::Done => Outcome::good(none),
        Stop::AtMark => Outcome::ended(at_mark(left), none),
        Stop::AtEnd => Outcome::ended(at_end_of_data(left), none),
        Stop::AtStart => Outcome::ended(at_beginning(left), none),
    }
}

/// Goes to where so many logical objects lie before the position, or else to the end of data.
pub(crate) fn locate(alloc: Global, tape: &mut Tape, logical_object_identifier: u32) -> Outcome
    ensures { locates logical_object_identifier tape.old ≡ (tape.new, result) }
{
    if tape.locate(logical_object_identifier) {
        return Outcome::good(Payload::none(alloc));
    }
    Outcome::check(alloc, Condition::EndOfDataDetected)
}

/// The data of READ POSITION. Its two logical object locations are the same, since nothing is kept that isn't on the tape.
pub(crate) fn position_data(alloc: Global, position: u32) -> Result<Payload, AllocError>
    ensures { IfOk result (λ payload. payload ≡ position_data position) }
{
    let [p3, p2, p1, p0] = position.to_be_bytes();
    let beginning = if position == 0 { 0x80 } else { 0x00 };
    let bytes = [
        beginning, 0, 0, 0, p3, p2, p1, p0, p3, p2, p1, p0, 0, 0, 0, 0, 0, 0, 0, 0,
    ];
    Payload::copied(alloc, &bytes)
}

/// The same in the hosts' profile, which also tells of the early-warning zone.
pub(crate) fn host_position_data(alloc: Global, tape: &Tape) -> Result<Payload, AllocError>
    ensures { IfOk result (λ payload. payload ≡ host_position_data tape.now) }
{
    let position = tape.position();
    let [p3, p2, p1, p0] = position.to_be_bytes();
    let beginning = if position == 0 { 0x80 } else { 0x00 };
    let near_the_end = if is_in_zone(tape) { 0x40 } else { 0x00 };
    let flags: u8 = beginning + near_the_end;
    let bytes = [
        flags, 0, 0, 0, p3, p2, p1, p0, p3, p2, p1, p0, 0, 0, 0, 0, 0, 0, 0, 0,
    ];
    Payload::copied(alloc, &bytes)
}
