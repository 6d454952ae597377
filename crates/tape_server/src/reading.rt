//! READ (SSC-4, "READ(6) command").

ghost use Rattle.std.specs.Prelude.{◌≡◌, ◌+◌, ◌*◌, ◌++◌, ◌≤◌, length, vec_len, vec_capacity, IfOk, OnErr, IsTrue, if◌then◌else◌};
ghost use Rattle.std.specs.List.{flat_map};
ghost use Rattle.scsi_sense.specs.declared.condition.Condition.TheVariants.{InvalidFieldInCdb};
ghost use Rattle.tape_medium.specs.Tape.{ahead, object_at, passed, item_of, bytes_of};
ghost use Rattle.device_server.specs.Limits.{data_limit};
ghost use Rattle.device_server.specs.Outcomes.{refused};
ghost use Rattle.device_server.specs.Drive.{reads, reads_fixed, one_block, unless_nothing, is_fixed_transfer, run, bytes_of_object, ended_by, after_run, end_of_run};
ghost use Rattle.tape_server.specs.Steps.{is_block, is_item_of, met, whole_bytes};

use crate::sense::{at_end_of_data, at_mark, of_other_length};
use device_server::{Outcome, Payload};
use scsi_cdb::Profile;
use scsi_sense::Condition;
use std::alloc::{AllocError, Global};
use tape_medium::{Item, Tape, most_block};

/// Reads one block of any length.
pub(crate) fn read_block(
    alloc: Global,
    tape: &mut Tape,
    suppress_incorrect_length: bool,
    block_length: u32,
    transfer_length: u32,
) -> Result<Outcome, AllocError>
    ensures ok { IfOk result (λ outcome. unless_nothing transfer_length tape.old (reads suppress_incorrect_length block_length transfer_length tape.old) ≡ (tape.new, outcome)) }
    ensures memory { OnErr result (IsTrue (is_block (object_at tape.old))) }
    ensures err { OnErr result (tape.new ≡ tape.old) }
{
    if transfer_length == 0 {
        return Ok(Outcome::good(Payload::none(alloc)));
    }
    let mut bytes = Vec::new(alloc);
    match tape.read(transfer_length, &mut bytes) {
        Err(_) => Err(AllocError),
        Ok(Item::End) => Ok(Outcome::ended(at_end_of_data(transfer_length), Payload::none(alloc))),
        Ok(Item::Mark) => Ok(Outcome::ended(at_mark(transfer_length), Payload::none(alloc))),
        Ok(Item::Block(had)) => Ok(one_block(
            suppress_incorrect_length,
            block_length,
            transfer_length,
            had,
            bytes,
        )),
    }
}

/// The end of a READ that asked for so many bytes and met a block that had another number, with what it took of them.
fn one_block(
    suppress_incorrect_length: bool,
    block_length: u32,
    asked: u32,
    had: u32,
    bytes: Vec<u8>,
) -> Outcome
    requires { length bytes.items ≤ data_limit }
    ensures { result ≡ one_block suppress_incorrect_length block_length asked had bytes.items }
{
    let payload = Payload::of(bytes);
    let is_hidden = suppress_incorrect_length && (had <= asked || block_length == 0);
    if had == asked || is_hidden {
        return Outcome::good(payload);
    }
    Outcome::ended(of_other_length(asked.wrapping_sub(had)), payload)
}

/// Whether a drive of a profile does a transfer of so many blocks of the mode's length: there is such a length, and the whole isn't too
/// long.
pub(crate) fn is_fixed_transfer(profile: Profile, block_length: u32, count: u32) -> bool
    ensures { result ≡ is_fixed_transfer profile block_length count }
{
    block_length != 0
        && u64::from(count) * u64::from(block_length) <= u64::from(most_block(profile))
}

/// Reads so many blocks of the mode's length.
pub(crate) fn read_blocks(
    alloc: Global,
    profile: Profile,
    tape: &mut Tape,
    block_length: u32,
    count: u32,
) -> Result<Outcome, AllocError>
    ensures ok { IfOk result (λ outcome. (if is_fixed_transfer profile block_length count
        then unless_nothing count tape.old (reads_fixed block_length count tape.old)
        else (tape.old, refused InvalidFieldInCdb)) ≡ (tape.new, outcome)) }
    ensures err { OnErr result (tape.new ≡ tape.old) }
{
    if !is_fixed_transfer(profile, block_length, count) {
        return Ok(Outcome::check(alloc, Condition::InvalidFieldInCdb));
    }
    if count == 0 {
        return Ok(Outcome::good(Payload::none(alloc)));
    }
    // Room for all comes first, so that no read of a block can fail.
    let mut bytes = Vec::with_capacity(alloc, count as usize * block_length as usize)?;
    let (done, met) = read_run(tape, block_length, count, &mut bytes);
    Ok(end_of_run(count - done, met, bytes))
}

/// The end of a READ of blocks that has so many left to read, by what it met.
fn end_of_run(left: u32, met: Option<Item>, bytes: Vec<u8>) -> Outcome
    requires { length bytes.items ≤ data_limit }
    ensures { result ≡ end_of_run left met bytes.items }
{
    let payload = Payload::of(bytes);
    match met {
        None => Outcome::good(payload),
        Some(Item::End) => Outcome::ended(at_end_of_data(left), payload),
        Some(Item::Mark) => Outcome::ended(at_mark(left), payload),
        Some(Item::Block(_)) => Outcome::ended(of_other_length(left), payload),
    }
}

/// Reads blocks of one size, within the room: how many, and what ended it before there were `count`, which is passed too.
fn read_run(tape: &mut Tape, size: u32, count: u32, bytes: &mut Vec<u8>) -> (u32, Option<Item>)
    requires room { vec_len bytes.old + count * size ≤ vec_capacity bytes.old }
    ensures bytes { bytes.new.items ≡ bytes.old.items ++ flat_map bytes_of_object (run size (ahead tape.old) count) }
    ensures within { result.0 ≤ count }
    ensures done { result.0 ≡ length (run size (ahead tape.old) count) }
    ensures met { result.1 ≡ ended_by tape.old count (run size (ahead tape.old) count) }
    ensures after { tape.new ≡ after_run tape.old count (run size (ahead tape.old) count) }
{
    for done in 0..count {
        let met = read_whole(tape, size, bytes);
        if met.is_some() {
            return (done, met);
        }
    }
    (count, None)
}

/// Reads a block of one size, within the room. Anything else is passed without its bytes, and told.
fn read_whole(tape: &mut Tape, size: u32, bytes: &mut Vec<u8>) -> Option<Item>
    requires { vec_len bytes.old + size ≤ vec_capacity bytes.old }
    ensures met { result ≡ met size (object_at tape.old) }
    ensures bytes { bytes.new.items ≡ bytes.old.items ++ whole_bytes size (object_at tape.old) }
    ensures after { tape.new ≡ passed (object_at tape.old) tape.old }
    ensures capacity { vec_capacity bytes.old ≤ vec_capacity bytes.new }
{
    let before = bytes.len();
    let item = read_in_room(tape, size, bytes);
    if is_block_of(size, item) {
        return None;
    }
    bytes.truncate(before);
    Some(item)
}

fn is_block_of(size: u32, item: Item) -> bool
    ensures { result ≡ is_item_of size item }
{
    match item {
        Item::Block(had) => had == size,
        Item::Mark | Item::End => false,
    }
}

/// A read that has the room that it needs.
fn read_in_room(tape: &mut Tape, limit: u32, bytes: &mut Vec<u8>) -> Item
    requires { vec_len bytes.old + limit ≤ vec_capacity bytes.old }
    ensures item { result ≡ item_of (object_at tape.old) }
    ensures bytes { bytes.new.items ≡ bytes.old.items ++ bytes_of (object_at tape.old) limit }
    ensures after { tape.new ≡ passed (object_at tape.old) tape.old }
    ensures capacity { vec_capacity bytes.old ≤ vec_capacity bytes.new }
{
    match tape.read(limit, bytes) {
        Ok(item) => item,
        Err(_) => unreachable!(),
    }
}
