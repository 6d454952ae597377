//! WRITE, WRITE FILEMARKS and ERASE (SSC-4, "WRITE(6) command", "WRITE FILEMARKS(6) command", "ERASE(6) command"). What doesn't
//! fit isn't written, and then nothing is dropped.

ghost use Rattle.std.specs.Prelude.{◌≡◌, ◌*◌, ◌==◌, ◌&&◌, [], length, IfOk, OnErr, if◌then◌else◌};
ghost use Rattle.tape_medium.specs.Tape.{writes_block, writes_blocks, writes_marks, erased};
ghost use Rattle.scsi_sense.specs.declared.condition.Condition.TheVariants.{InvalidFieldInCdb};
ghost use Rattle.device_server.specs.Outcomes.{done, refused};
ghost use Rattle.device_server.specs.Drive.{wrote, unless_protected, unless_nothing, is_fixed_transfer};
ghost use Rattle.tape_server.specs.Steps.{not_written, IsWritten};

use crate::reading::is_fixed_transfer;
use crate::sense::past_the_end;
use device_server::{Outcome, Payload};
use scsi_cdb::Profile;
use scsi_sense::Condition;
use std::alloc::{AllocError, Global};
use tape_medium::{Tape, TapeFault};

/// Writes the bytes as one block.
pub(crate) fn write_block(
    alloc: Global,
    profile: Profile,
    tape: &mut Tape,
    protected: bool,
    transfer_length: u32,
    bytes: &[u8],
) -> Result<Outcome, AllocError>
    ensures ok { IfOk result (λ outcome. unless_nothing transfer_length tape.old (unless_protected protected tape.old (wrote tape.old transfer_length (writes_block profile tape.old bytes.now))) ≡ (tape.new, outcome)) }
    ensures memory { OnErr result (IsWritten transfer_length protected (writes_block profile tape.old bytes.now)) }
    ensures err { OnErr result (tape.new ≡ tape.old) }
{
    if transfer_length == 0 {
        return Ok(Outcome::good(Payload::none(alloc)));
    }
    if protected {
        return Ok(Outcome::check(alloc, Condition::WriteProtected));
    }
    match tape.write_block(profile, bytes) {
        Ok(()) => Ok(Outcome::good(Payload::none(alloc))),
        Err(TapeFault::NoMemory) => Err(AllocError),
        Err(_) => Ok(not_written(alloc, transfer_length)),
    }
}

/// Writes the bytes as so many blocks of the mode's length, all or none.
pub(crate) fn write_blocks(
    alloc: Global,
    profile: Profile,
    tape: &mut Tape,
    protected: bool,
    block_length: u32,
    count: u32,
    bytes: &[u8],
) -> Result<Outcome, AllocError>
    ensures ok { IfOk result (λ outcome. (if is_fixed_transfer profile block_length count && length bytes.now == count * block_length
        then unless_nothing count tape.old (unless_protected protected tape.old (wrote tape.old count (writes_blocks profile tape.old bytes.now block_length)))
        else (tape.old, refused InvalidFieldInCdb)) ≡ (tape.new, outcome)) }
    ensures memory { OnErr result (IsWritten count protected (writes_blocks profile tape.old bytes.now block_length)) }
    ensures err { OnErr result (tape.new ≡ tape.old) }
{
    if !is_fixed_transfer(profile, block_length, count) {
        return Ok(Outcome::check(alloc, Condition::InvalidFieldInCdb));
    }
    if bytes.len() as u64 != u64::from(count) * u64::from(block_length) {
        return Ok(Outcome::check(alloc, Condition::InvalidFieldInCdb));
    }
    if count == 0 {
        return Ok(Outcome::good(Payload::none(alloc)));
    }
    if protected {
        return Ok(Outcome::check(alloc, Condition::WriteProtected));
    }
    match tape.write_blocks(profile, bytes, block_length) {
        Ok(()) => Ok(Outcome::good(Payload::none(alloc))),
        Err(TapeFault::NoMemory) => Err(AllocError),
        Err(_) => Ok(not_written(alloc, count)),
    }
}

/// Writes so many filemarks.
pub(crate) fn write_filemarks(
    alloc: Global,
    profile: Profile,
    tape: &mut Tape,
    protected: bool,
    filemark_count: u32,
) -> Result<Outcome, AllocError>
    ensures ok { IfOk result (λ outcome. unless_nothing filemark_count tape.old (unless_protected protected tape.old (wrote tape.old filemark_count (writes_marks profile tape.old filemark_count))) ≡ (tape.new, outcome)) }
    ensures memory { OnErr result (IsWritten filemark_count protected (writes_marks profile tape.old filemark_count)) }
    ensures err { OnErr result (tape.new ≡ tape.old) }
{
    if filemark_count == 0 {
        return Ok(Outcome::good(Payload::none(alloc)));
    }
    if protected {
        return Ok(Outcome::check(alloc, Condition::WriteProtected));
    }
    match tape.write_marks(profile, filemark_count) {
        Ok(()) => Ok(Outcome::good(Payload::none(alloc))),
        Err(TapeFault::NoMemory) => Err(AllocError),
        Err(_) => Ok(not_written(alloc, filemark_count)),
    }
}

/// Drops all from the position on.
pub(crate) fn erase(alloc: Global, tape: &mut Tape, protected: bool) -> Outcome
    ensures { unless_protected protected tape.old (erased tape.old, done []) ≡ (tape.new, result) }
{
    if protected {
        return Outcome::check(alloc, Condition::WriteProtected);
    }
    tape.erase();
    Outcome::good(Payload::none(alloc))
}

/// The end of a write for which the tape has no room, of a length or a count.
fn not_written(alloc: Global, told: u32) -> Outcome
    ensures { result ≡ not_written told }
{
    Outcome::ended(past_the_end(told), Payload::none(alloc))
}
