ghost use Rattle.std.specs.Prelude.{◌≡◌, ◌+◌, ◌≤◌, Some, length, take};
ghost use Rattle.kept_unit.specs.Ranges.{numbers_in_ranges, rise_to};

use crate::kept::Kept;
use crate::ledgers::UnitLedger;
use device_server::DeviceServer;
use settled_numbers::NumberRange;
use std::sync::ledger::Share;

impl<const LUN: u8, L: UnitLedger, D: DeviceServer> Kept<LUN, L, D> {
    /// Takes ranges over that a seat has settled, in order, up to the first that doesn't rise above the last number that this seat
    /// handed over, or that is refused. How many it took.
    pub fn take_over_first(
        &mut self,
        ranges: &[NumberRange],
        last: &mut u64,
        part: &mut Share<L>,
    ) -> usize
        requires part { part.old.parts ≡ 1 }
        requires counted { length (numbers_in_ranges ranges.now) ≤ part.old.amount }
        ensures within { result ≤ length ranges.now }
        ensures rise { rise_to last.old (take result ranges.now) ≡ Some last.new }
        ensures amount { part.new.amount + length (numbers_in_ranges (take result ranges.now)) ≡ part.old.amount }
        ensures parts { part.new.parts ≡ 1 }
    {
        let mut count = 0;
        for range in ranges {
            if range.first <= *last || self.take_over(*range, part).is_err() {
                return count;
            }
            *last = range.last;
            count += 1;
        }
        count
    }
}
