//! The early-warning zone of a tape in the hosts' profile, and the writes that it warns (SSC-4, "Early-warning").

ghost use Rattle.std.specs.Prelude.{◌≡◌, false, IfOk, OnErr};
ghost use Rattle.device_server.specs.EarlyWarning.{zone, is_in_zone, warned};
ghost use Rattle.device_server.specs.HostDrive.{host_on_tape};
ghost use Rattle.device_server.specs.Volumes.{is_move};

use crate::drive::on_tape;
use crate::positioning::host_position_data;
use crate::sense::early_warning;
use device_server::{Outcome, Payload};
use scsi_cdb::{Profile, Request};
use scsi_sense::Status;
use std::alloc::{AllocError, Global};
use tape_medium::{Tape, most_objects};

/// How many bytes the zone of a larger tape has at least (profile).
const LEAST_OF_LARGE: u64 = 4_194_304;

/// How many bytes the zone of any tape has at most (profile).
const MOST: u64 = 268_435_456;

/// How many objects there are to be left before the zone (profile).
const FEW_OBJECTS: u32 = 4_096;

/// How many bytes of blocks before the end of a tape the zone has: an eighth of them, and of larger tapes less.
pub(crate) fn zone(capacity: u64) -> u64
    ensures { result ≡ zone capacity }
{
    (capacity / 8).min((capacity / 128).max(LEAST_OF_LARGE).min(MOST))
}

/// Whether a tape stands in its zone.
pub(crate) fn is_in_zone(tape: &Tape) -> bool
    ensures { result ≡ is_in_zone tape.now }
{
    let capacity = tape.capacity();
    let before_the_zone = capacity.saturating_sub(zone(capacity));
    let left = most_objects(Profile::Hosts).saturating_sub(tape.position());
    tape.bytes_before_position() > before_the_zone || left < FEW_OBJECTS
}

/// The end of a write of so much that ended so, by where it left the tape: all was written where it is warned.
fn warned(alloc: Global, told: u32, tape: &Tape, outcome: Outcome) -> Outcome
    ensures { warned told (tape.now, outcome) ≡ (tape.now, result) }
{
    match outcome.status {
        Status::Good if told != 0 && is_in_zone(tape) => {
            Outcome::ended(early_warning(), Payload::none(alloc))
        }
        Status::Good | Status::CheckCondition | Status::Busy | Status::ReservationConflict => {
            outcome
        }
    }
}

/// A command on the tape of a volume that is loaded, in a drive of the hosts' profile.
pub(crate) fn host_on_tape(
    alloc: Global,
    tape: &mut Tape,
    protected: bool,
    block_length: u32,
    request: &Request,
    bytes: &[u8],
) -> Result<Outcome, AllocError>
    ensures ok { IfOk result (λ outcome. host_on_tape block_length protected tape.old request.now bytes.now ≡ (tape.new, outcome)) }
    ensures err { OnErr result (tape.new ≡ tape.old) }
    ensures want { OnErr result (is_move request.now ≡ false) }
{
    let profile = Profile::Hosts;
    match request {
        Request::Write {
            transfer_length,
            ..
        } => {
            let outcome = on_tape(
                alloc,
                profile,
                tape,
                protected,
                block_length,
                request,
                bytes,
            )?;
            Ok(warned(alloc, *transfer_length, tape, outcome))
        }
        Request::WriteFilemarks { filemark_count, .. } => {
            let outcome = on_tape(
                alloc,
                profile,
                tape,
                protected,
                block_length,
                request,
                bytes,
            )?;
            Ok(warned(alloc, *filemark_count, tape, outcome))
        }
        Request::ReadPosition => Ok(Outcome::good(host_position_data(alloc, tape)?)),
        Request::TestUnitReady
        | Request::Rewind
        | Request::RequestSense { .. }
        | Request::ReadBlockLimits
        | Request::InitializeElementStatus
        | Request::Read { .. }
        | Request::Space { .. }
        | Request::Inquiry { .. }
        | Request::ModeSelect { .. }
        | Request::Erase
        | Request::ModeSense { .. }
        | Request::LoadUnload { .. }
        | Request::PreventAllowMediumRemoval { .. }
        | Request::Locate { .. }
        | Request::PersistentReserveIn { .. }
        | Request::PersistentReserveOut { .. }
        | Request::ReportLuns { .. }
        | Request::MoveMedium { .. }
        | Request::ReadElementStatus { .. }
        | Request::Host(_) => {
            on_tape(
                alloc,
                profile,
                tape,
                protected,
                block_length,
                request,
                bytes,
            )
        }
    }
}
