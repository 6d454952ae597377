ghost use Rattle.std.specs.Prelude.{◌≡◌, ◌++◌, ◌↔◌, IsTrue, OnOk, OnErr, slice_get};
ghost use Rattle.kept_unit.specs.Listing.{listed_at};
ghost use Rattle.kept_unit.specs.Ranges.{numbers_in_ranges};
ghost use Rattle.lun_router.specs.Seats.{is_at_most, is_drained, drained_count};
ghost use Rattle.lun_router.specs.Settling.{ranges_of, SettlesAll};

use crate::entry_queue::EntryQueue;
use crate::handing_over::UnitRanges;
use crate::unit_ranges::{add_all, make_room_for, ranges_in};
use logical_unit::Entry;
use std::alloc::AllocError;

/// Whether the record of a number was handed out.
fn is_handed_out(drained: &[u64], lun: u8, number: u64) -> bool
    ensures { result ≡ is_at_most (slice_get drained.now lun) number }
{
    match drained.get(lun as usize) {
        Some(last) => number <= *last,
        None => false,
    }
}

/// Whether all records of an entry were handed out.
fn is_drained(drained: &[u64], entry: &Entry) -> bool
    ensures { result ≡ is_drained drained.now entry.now }
{
    entry
        .numbers
        .as_slice()
        .iter()
        .all(|pair| is_handed_out(drained, pair.0, pair.1))
}

/// How many entries the longest beginning has of which all records were handed out.
fn drained_count(drained: &[u64], entries: &[Entry]) -> usize
    ensures { result ≡ drained_count drained.now entries.now }
{
    let mut count = 0;
    for entry in entries {
        if !is_drained(drained, entry) {
            return count;
        }
        count += 1;
    }
    count
}

/// Takes the longest beginning off whose records were handed out, and adds its numbers to the ranges. On an error nothing
/// has changed.
pub(crate) fn settle(
    entries: &mut EntryQueue,
    settled: &mut UnitRanges,
    drained: &[u64],
) -> Result<(), AllocError>
    ensures ok { OnOk result (SettlesAll drained.now entries.old.entries (ranges_of settled.old) entries.new.entries (ranges_of settled.new)) }
    ensures err_entries { OnErr result (entries.new.entries ≡ entries.old.entries) }
    ensures err_settled { OnErr result (ranges_of settled.new ≡ ranges_of settled.old) }
{
    let count = drained_count(drained, entries.as_slice());
    let more = ranges_in(entries.allocator(), entries.oldest(count))?;
    make_room_for(settled, &more)?;
    add_all(settled, &more);
    entries.remove_oldest(count);
    Ok(())
}
