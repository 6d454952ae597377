ghost use Rattle.std.specs.Prelude.{◌≡◌, MatchOption, ◌≤◌, ◌+◌, ◌<◌, ◌^◌, ◌++◌, ◌↔◌, All, IsTrue, OnOk, IfOk, length, true, false};
ghost use Rattle.kept_unit.specs.Agreeing.{numbers_of, rises, SeatFits, Agrees};
ghost use Rattle.kept_unit.specs.Listing.{listed_at};
ghost use Rattle.kept_unit.specs.Ranges.{numbers_in_ranges};
ghost use Rattle.kept_unit.specs.SeatNotes.{notes_value};

use crate::fitting::are_told;
use crate::ranges::{end_by, follows, listed_ranges, rise_to};
use crate::seat_notes::SeatNotes;
use audit_log::Record;
use logical_unit::Entry;
use settled_numbers::NumberRange;
use std::alloc::{AllocError, Global};

/// The ranges of the numbers of one unit in entries, if they rise above a number.
fn rising_ranges(
    alloc: Global,
    lun: u8,
    low: u64,
    entries: &[Entry],
) -> Result<Option<Vec<NumberRange>>, AllocError>
    ensures { IfOk result (λ found. MatchOption found (rises low (listed_at lun entries.now) ≡ false) (λ own. (rises low (listed_at lun entries.now) ≡ true) × (numbers_in_ranges own.items ≡ listed_at lun entries.now))) }
{
    let ranges = listed_ranges(alloc, lun, entries)?;
    match rise_to(low, ranges.as_slice()) {
        Some(_) => Ok(Some(ranges)),
        None => Ok(None),
    }
}

/// The ranges of the numbers of one unit in a seat's entries, if all that the seat has noted fits the trail and rises.
fn fitting_ranges(
    alloc: Global,
    lun: u8,
    base: u64,
    records: &[Record],
    seat: &SeatNotes<'_>,
) -> Result<Option<Vec<NumberRange>>, AllocError>
    ensures { IfOk result (λ found. MatchOption found (¬ SeatFits lun base records.now (notes_value seat.now)) (λ own. SeatFits lun base records.now (notes_value seat.now) × (numbers_in_ranges own.items ≡ listed_at lun seat.now.listed.now))) }
{
    if !are_told(lun, base, records, seat.listed) {
        return Ok(None);
    }
    if !end_by(base, seat.settled) {
        return Ok(None);
    }
    match rise_to(seat.handed_over, seat.settled) {
        Some(low) => rising_ranges(alloc, lun, low, seat.listed),
        None => Ok(None),
    }
}

/// Adds what a seat has noted of one unit: ranges that were settled, and those of its entries.
fn add_noted(
    all: &mut Vec<NumberRange>,
    settled: &[NumberRange],
    listed: &[NumberRange],
) -> Result<(), AllocError>
    ensures { OnOk result (all.new.items ≡ all.old.items ++ settled.now ++ listed.now) }
{
    all.extend_from_slice(settled)?;
    all.extend_from_slice(listed)?;
    Ok(())
}

/// The ranges of all seats, if each fits.
fn gathered(
    alloc: Global,
    lun: u8,
    base: u64,
    records: &[Record],
    seats: &[SeatNotes<'_>],
) -> Result<Option<Vec<NumberRange>>, AllocError>
    ensures { IfOk result (λ found. MatchOption found (¬ All (λ s. SeatFits lun base records.now (notes_value s)) seats.now) (λ all. All (λ s. SeatFits lun base records.now (notes_value s)) seats.now × (numbers_in_ranges all.items ≡ numbers_of notes_value lun seats.now))) }
{
    let mut all = Vec::new(alloc);
    for seat in seats {
        match fitting_ranges(alloc, lun, base, records, seat)? {
            None => return Ok(None),
            Some(listed) => add_noted(&mut all, seat.settled, listed.as_slice())?,
        }
    }
    Ok(Some(all))
}

/// Whether what all seats have noted and what they handed over agrees with the trail of one unit, whose numbers are told from the
/// first on.
pub(crate) fn agree(
    alloc: Global,
    lun: u8,
    first: u64,
    base: u64,
    records: &[Record],
    handed_over: &[NumberRange],
    seats: &[SeatNotes<'_>],
) -> Result<bool, AllocError>
    requires first { first ≤ base + length records.now }
    requires fits { base + length records.now < 2 ^ 64 }
    ensures { IfOk result (λ agreed. IsTrue agreed ↔ Agrees notes_value lun first base records.now handed_over.now seats.now) }
{
    if !end_by(base, handed_over) {
        return Ok(false);
    }
    let Some(mut all) = gathered(alloc, lun, base, records, seats)? else {
        return Ok(false);
    };
    all.extend_from_slice(handed_over)?;
    all.sort_by_key(|range| range.first)?;
    let last = base + records.len() as u64;
    Ok(follows(first, last, all.as_slice()))
}
