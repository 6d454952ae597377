//! What a seat has settled goes over to the units, each under its lock.
ghost use Rattle.std.specs.Prelude.{◌≡◌, ◌≤◌, drop, length};
ghost use Rattle.kept_unit.specs.Ranges.{numbers_in_ranges};
ghost use Rattle.lun_router.specs.HandingOver.{AreCounted, GoesOver};

use crate::all_locks::UnitLocks;
use crate::gate::Gate;
use crate::locked::Locked;
use crate::seat_shares::SeatShares;
use device_server::DeviceServer;
use kept_unit::{Ledgers, NumberRange, UnitLedger};
use std::sync::Wait;
use std::sync::ledger::Share;

/// Ranges of the record numbers of each unit, by its logical unit number.
#[derive(Drop)]
pub struct UnitRanges {
    pub zero: Vec<NumberRange>,
    pub one: Vec<NumberRange>,
    pub two: Vec<NumberRange>,
    pub three: Vec<NumberRange>,
    pub four: Vec<NumberRange>,
}

/// A record number of each unit, by its logical unit number.
#[derive(Clone, Copy)]
pub struct UnitNumbers {
    pub zero: u64,
    pub one: u64,
    pub two: u64,
    pub three: u64,
    pub four: u64,
}

/// Takes the first ranges off.
fn remove_first(ranges: &mut Vec<NumberRange>, count: usize)
    requires { count ≤ length ranges.old.items }
    ensures { ranges.new.items ≡ drop count ranges.old.items }
{
    let left = ranges.len() - count;
    ranges.rotate_left(count);
    ranges.truncate(left);
}

/// Hands ranges over to the unit under this lock, in order, up to the first that it refuses.
fn hand_over_at<const LUN: u8, L: UnitLedger, D: DeviceServer, R: Wait>(
    rt: &R,
    lock: &Locked<LUN, L, D>,
    part: &mut Share<L>,
    ranges: &mut Vec<NumberRange>,
    last: &mut u64,
)
    requires parts { part.old.parts ≡ 1 }
    requires counted { length (numbers_in_ranges ranges.old.items) ≤ part.old.amount }
    ensures over { GoesOver ranges.old.items last.old part.old.amount ranges.new.items last.new part.new.amount }
    ensures parts { part.new.parts ≡ 1 }
{
    if ranges.is_empty() {
        return;
    }
    let count = {
        let mut kept = lock.mutex().lock(rt);
        kept.take_over_first(ranges, last, part)
    };
    remove_first(ranges, count);
}

/// The same where the unit may be absent: then nothing goes over.
fn hand_over_if_there<const LUN: u8, L: UnitLedger, D: DeviceServer, R: Wait>(
    rt: &R,
    lock: &Option<Locked<LUN, L, D>>,
    part: &mut Share<L>,
    ranges: &mut Vec<NumberRange>,
    last: &mut u64,
)
    requires parts { part.old.parts ≡ 1 }
    requires counted { length (numbers_in_ranges ranges.old.items) ≤ part.old.amount }
    ensures over { GoesOver ranges.old.items last.old part.old.amount ranges.new.items last.new part.new.amount }
    ensures parts { part.new.parts ≡ 1 }
{
    if let Some(lock) = lock {
        hand_over_at(rt, lock, part, ranges, last);
    }
}

impl<B: Ledgers, D: DeviceServer, G: Gate> UnitLocks<B, D, G> {
    /// Hands over to each unit what a seat has settled of it, in order, up to what the unit refuses: nothing is lost, and the
    /// seat's share of the ledger goes along. `last` has the number that the seat handed over last, of each unit. May wait for a
    /// call at a unit.
    pub fn hand_over<R: Wait>(
        &self,
        rt: &R,
        shares: &mut SeatShares<B>,
        ranges: &mut UnitRanges,
        last: &mut UnitNumbers,
    )
        requires counted { AreCounted ranges.old shares.old }
        ensures zero { GoesOver ranges.old.zero.items last.old.zero shares.old.zero ranges.new.zero.items last.new.zero shares.new.zero }
        ensures one { GoesOver ranges.old.one.items last.old.one shares.old.one ranges.new.one.items last.new.one shares.new.one }
        ensures two { GoesOver ranges.old.two.items last.old.two shares.old.two ranges.new.two.items last.new.two shares.new.two }
        ensures three { GoesOver ranges.old.three.items last.old.three shares.old.three ranges.new.three.items last.new.three shares.new.three }
        ensures four { GoesOver ranges.old.four.items last.old.four shares.old.four ranges.new.four.items last.new.four shares.new.four }
    {
        hand_over_at(
            rt,
            &self.changer,
            &mut shares.zero,
            &mut ranges.zero,
            &mut last.zero,
        );
        hand_over_at(
            rt,
            &self.first,
            &mut shares.one,
            &mut ranges.one,
            &mut last.one,
        );
        hand_over_if_there(
            rt,
            &self.second,
            &mut shares.two,
            &mut ranges.two,
            &mut last.two,
        );
        hand_over_if_there(
            rt,
            &self.third,
            &mut shares.three,
            &mut ranges.three,
            &mut last.three,
        );
        hand_over_if_there(
            rt,
            &self.fourth,
            &mut shares.four,
            &mut ranges.four,
            &mut last.four,
        );
    }
}
