//! Seats that are settled between the drains of units.

use super::opened::Opened;
use crate::comparing::assert_same;
use kept_unit::NumberRange;
use std::alloc::Global;
use std::process::Abort;
use std::sync::Wait;

/// How many ranges of numbers there are, and the ends of the first two: zeros where there is none.
type Ranges = (usize, (u64, u64), (u64, u64));

/// No ranges.
pub(super) const NONE: Ranges = (0, (0, 0), (0, 0));

/// What a seat has of a unit: the last number that it handed over, and the ranges that it keeps.
type AtUnit = (u8, u64, Ranges);

/// Which unit is drained before, how many entries a seat has once it was told up to which numbers the units were drained,
/// what it has of two units, and what that shows.
pub(super) type Settled = (u8, [u64; 5], usize, AtUnit, AtUnit, &'static str);

/// No unit, of which nothing is drained.
pub(super) const NO_UNIT_THERE: u8 = 9;

fn ends_at(ranges: &[NumberRange], place: usize) -> (u64, u64) {
    match ranges.get(place) {
        Some(range) => (range.first, range.last),
        None => (0, 0),
    }
}

fn shown_of(ranges: &[NumberRange]) -> Ranges {
    (ranges.len(), ends_at(ranges, 0), ends_at(ranges, 1))
}

fn assert_at_unit<T: Opened, R: Abort>(
    rt: &R,
    seat: &T::Seat,
    (lun, last, ranges): AtUnit,
    shows: &'static str,
) {
    let found = (T::handed_over(seat, lun), shown_of(T::settled(seat, lun)));
    assert_same(rt, found, (last, ranges), shows);
}

/// Settles a seat, and compares what it has.
pub(super) fn assert_settled<T: Opened, R: Abort + Wait>(
    rt: &R,
    alloc: Global,
    library: &T,
    seat: &mut T::Seat,
    row: &Settled,
) {
    let (drains, drained, entries, first, second, shows) = *row;
    let _handed_out = library.drained(rt, alloc, drains);
    let is_settled = library.settle(rt, seat, &drained).is_ok();
    assert_same(rt, (is_settled, T::entries(seat)), (true, entries), shows);
    assert_at_unit::<T, R>(rt, seat, first, shows);
    assert_at_unit::<T, R>(rt, seat, second, shows);
}
