//! Record numbers of one unit, as ranges.
ghost use Rattle.std.specs.Prelude.{◌≡◌, ◌≤◌, ◌+◌, ◌++◌, ◌↔◌, All, IsTrue, IsSome, IfSome, IfOk, OnOk, OnErr, ◌∷◌, [], length};
ghost use Rattle.std.specs.Vec.{vec_len, vec_capacity};
ghost use Rattle.logical_unit.specs.Answers.{at};
ghost use Rattle.kept_unit.specs.Ranges.{numbers_between, numbers_in_ranges, rise_to, follows};
ghost use Rattle.kept_unit.specs.Listing.{listed_at};

use logical_unit::Entry;
use settled_numbers::NumberRange;
use std::alloc::{AllocError, Global};

/// The two as one range, if the second goes on where the first ends.
fn joined(low: NumberRange, high: NumberRange) -> Option<NumberRange>
    ensures numbers { IfSome result (λ r. numbers_between r ≡ numbers_between low ++ numbers_between high) }
    ensures next { IsSome result ↔ (high.first ≡ low.last + 1) }
{
    if low.last < high.first && high.first - low.last == 1 {
        Some(NumberRange {
            first: low.first,
            last: high.last,
        })
    } else {
        None
    }
}

/// Adds a range behind the last one, as one with it if it goes on where that ends.
fn add_behind(ranges: &mut Vec<NumberRange>, last: NumberRange, range: NumberRange)
    requires { vec_len ranges.old + 2 ≤ vec_capacity ranges.old }
    ensures numbers { numbers_in_ranges ranges.new.items ≡ numbers_in_ranges (ranges.old.items ++ last ∷ []) ++ numbers_between range }
    ensures len { vec_len ranges.new ≤ vec_len ranges.old + 2 }
    ensures capacity { vec_capacity ranges.new ≡ vec_capacity ranges.old }
{
    match joined(last, range) {
        Some(both) => ranges.push_reserved(both),
        None => {
            ranges.push_reserved(last);
            ranges.push_reserved(range);
        }
    }
}

/// Adds a range behind others. Takes no memory.
fn add_range(ranges: &mut Vec<NumberRange>, range: NumberRange)
    requires { vec_len ranges.old + 1 ≤ vec_capacity ranges.old }
    ensures numbers { numbers_in_ranges ranges.new.items ≡ numbers_in_ranges ranges.old.items ++ numbers_between range }
    ensures len { vec_len ranges.new ≤ vec_len ranges.old + 1 }
    ensures capacity { vec_capacity ranges.new ≡ vec_capacity ranges.old }
{
    match ranges.pop() {
        Some(last) => add_behind(ranges, last, range),
        None => ranges.push_reserved(range),
    }
}

/// Adds ranges behind others; one that goes on where the one before it ends is joined to that. Takes no memory.
pub fn add_ranges(ranges: &mut Vec<NumberRange>, more: &[NumberRange])
    requires { vec_len ranges.old + length more.now ≤ vec_capacity ranges.old }
    ensures { numbers_in_ranges ranges.new.items ≡ numbers_in_ranges ranges.old.items ++ numbers_in_ranges more.now }
{
    for range in more {
        add_range(ranges, *range);
    }
}

/// Makes room for so many ranges more. Where there was none, a sixteenth of those that are there is the most that is left
/// over. The ranges stay as they are.
pub fn make_room(ranges: &mut Vec<NumberRange>, more: usize) -> Result<(), AllocError>
    ensures same { ranges.new.items ≡ ranges.old.items }
    ensures room { OnOk result (vec_len ranges.new + more ≤ vec_capacity ranges.new) }
{
    if ranges.capacity().saturating_sub(ranges.len()) < more {
        ranges.reserve_exact(more.max(ranges.len() / 16))?;
    }
    Ok(())
}

/// Adds a number behind ranges.
fn add_number(ranges: &mut Vec<NumberRange>, number: u64) -> Result<(), AllocError>
    ensures { OnOk result (numbers_in_ranges ranges.new.items ≡ numbers_in_ranges ranges.old.items ++ number ∷ []) }
{
    ranges.reserve(1)?;
    add_range(
        ranges,
        NumberRange {
            first: number,
            last: number,
        },
    );
    Ok(())
}

/// Adds the numbers of one unit behind ranges.
fn add_numbers(
    lun: u8,
    pairs: &[(u8, u64)],
    ranges: &mut Vec<NumberRange>,
) -> Result<(), AllocError>
    ensures { OnOk result (numbers_in_ranges ranges.new.items ≡ numbers_in_ranges ranges.old.items ++ at lun pairs.now) }
{
    for pair in pairs {
        if pair.0 == lun {
            add_number(ranges, pair.1)?;
        }
    }
    Ok(())
}

/// The numbers of one unit that entries have, in order, as ranges.
pub fn listed_ranges(
    alloc: Global,
    lun: u8,
    entries: &[Entry],
) -> Result<Vec<NumberRange>, AllocError>
    ensures { IfOk result (λ ranges. numbers_in_ranges ranges.items ≡ listed_at lun entries.now) }
{
    let mut ranges = Vec::new(alloc);
    for entry in entries {
        add_numbers(lun, entry.numbers.as_slice(), &mut ranges)?;
    }
    Ok(ranges)
}

/// Whether each range ends at or below a number.
pub(crate) fn end_by(base: u64, ranges: &[NumberRange]) -> bool
    ensures { IsTrue result ↔ All (λ r. r.last ≤ base) ranges.now }
{
    ranges.iter().all(|range| range.last <= base)
}

/// The last number of ranges, if each is above the one before; the one below them where there are none.
pub(crate) fn rise_to(low: u64, ranges: &[NumberRange]) -> Option<u64>
    ensures { result ≡ rise_to low ranges.now }
{
    let mut low = low;
    for range in ranges {
        if range.first <= low {
            return None;
        }
        low = range.last;
    }
    Some(low)
}

/// Whether ranges follow one another without a gap, from behind the first number up to the last.
pub(crate) fn follows(first: u64, last: u64, ranges: &[NumberRange]) -> bool
    ensures { result ≡ follows first last ranges.now }
{
    let mut next = first;
    for range in ranges {
        if range.first <= next || range.first - next != 1 {
            return false;
        }
        next = range.last;
    }
    next == last
}
