ghost use Rattle.std.specs.Prelude.{◌≡◌, ◌+◌, ◌<◌, is_some};
ghost use Rattle.std.specs.Option.{ForSome};
ghost use Rattle.logical_unit.specs.UnitView.{last_number};
ghost use Rattle.lun_router.specs.Blanks.{AreBlanks};
ghost use Rattle.lun_router.specs.Units.{IsAt, HasUnits};

use crate::all_locks::UnitLocks;
use crate::gate::Gate;
use crate::locked::Locked;
use crate::seat_shares::AllShares;
use device_server::DeviceServer;
use kept_unit::{Kept, Ledgers, UnitLedger};
use logical_unit::LogicalUnit;
use std::alloc::Global;
use std::sync::ledger::{Blank, Share};

/// The units of a target, one by one.
#[derive(Drop)]
pub struct UnitsByLun<D: DeviceServer> {
    pub count: u8,
    pub changer: LogicalUnit<D>,
    pub first: LogicalUnit<D>,
    pub second: Option<LogicalUnit<D>>,
    pub third: Option<LogicalUnit<D>>,
    pub fourth: Option<LogicalUnit<D>>,
}

/// A new ledger for each logical unit number that a unit can have, each cut into one part more than there will be seats.
#[derive(Drop)]
pub struct Blanks {
    pub zero: Blank,
    pub one: Blank,
    pub two: Blank,
    pub three: Blank,
    pub four: Blank,
}

/// Puts a unit under a lock, with one part of its ledger for what will be handed over.
fn put_under_lock<const LUN: u8, L: UnitLedger, D: DeviceServer>(
    alloc: Global,
    unit: LogicalUnit<D>,
    blank: Blank,
) -> (Locked<LUN, L, D>, Share<L>)
    requires parts { 0 < L.parts }
    requires blank { (blank.name ≡ L.name) × (blank.parts ≡ L.parts) }
    requires unit { IsAt L.profile LUN unit.unit }
    requires since { last_number unit.unit ≡ L.since }
    ensures parts { result.1.parts + 1 ≡ L.parts }
    ensures amount { result.1.amount ≡ 0 }
{
    let (book, mut share) = blank.open::<L>();
    let part = share.split_off(1, 0);
    (Locked::new(Kept::new(alloc, unit, book, part)), share)
}

/// The same where the unit may be absent. Its book then goes, and the shares stay at nothing.
fn put_under_lock_if_there<const LUN: u8, L: UnitLedger, D: DeviceServer>(
    alloc: Global,
    unit: Option<LogicalUnit<D>>,
    blank: Blank,
) -> (Option<Locked<LUN, L, D>>, Share<L>)
    requires parts { 0 < L.parts }
    requires blank { (blank.name ≡ L.name) × (blank.parts ≡ L.parts) }
    requires unit { ForSome unit (λ u. IsAt L.profile LUN u.unit) }
    requires since { ForSome unit (λ u. last_number u.unit ≡ L.since) }
    ensures there { is_some result.0 ≡ is_some unit }
    ensures parts { result.1.parts + 1 ≡ L.parts }
    ensures amount { result.1.amount ≡ 0 }
{
    match unit {
        Some(unit) => {
            let (lock, share) = put_under_lock(alloc, unit, blank);
            (Some(lock), share)
        }
        None => {
            let (_, mut share) = blank.open::<L>();
            let _ = share.split_off(1, 0);
            (None, share)
        }
    }
}

impl<B: Ledgers, D: DeviceServer, G: Gate> UnitLocks<B, D, G> {
    /// Puts each unit under a lock of its own, with one part of its ledger. The other parts come back, also of ledgers that have no
    /// unit.
    pub fn open(
        alloc: Global,
        units: UnitsByLun<D>,
        blanks: Blanks,
        gate: G,
    ) -> (UnitLocks<B, D, G>, AllShares<B>)
        requires blanks { AreBlanks B.names B.all_parts blanks }
        requires some { 0 < B.all_parts }
        requires units { HasUnits units.count units.second units.third units.fourth }
        requires changer { IsAt B.profile 0 units.changer.unit }
        requires first { IsAt B.profile 1 units.first.unit }
        requires second { ForSome units.second (λ u. IsAt B.profile 2 u.unit) }
        requires third { ForSome units.third (λ u. IsAt B.profile 3 u.unit) }
        requires fourth { ForSome units.fourth (λ u. IsAt B.profile 4 u.unit) }
        requires changer_since { last_number units.changer.unit ≡ B.since_of 0 }
        requires first_since { last_number units.first.unit ≡ B.since_of 1 }
        requires second_since { ForSome units.second (λ u. last_number u.unit ≡ B.since_of 2) }
        requires third_since { ForSome units.third (λ u. last_number u.unit ≡ B.since_of 3) }
        requires fourth_since { ForSome units.fourth (λ u. last_number u.unit ≡ B.since_of 4) }
        ensures units { result.0.units ≡ units.count }
        ensures parts { (result.1.zero.parts + 1 ≡ B.all_parts) × (result.1.one.parts + 1 ≡ B.all_parts) × (result.1.two.parts + 1 ≡ B.all_parts) × (result.1.three.parts + 1 ≡ B.all_parts) × (result.1.four.parts + 1 ≡ B.all_parts) }
        ensures amounts { (result.1.zero.amount ≡ 0) × (result.1.one.amount ≡ 0) × (result.1.two.amount ≡ 0) × (result.1.three.amount ≡ 0) × (result.1.four.amount ≡ 0) }
    {
        let UnitsByLun {
            count,
            changer,
            first,
            second,
            third,
            fourth,
        } = units;
        let Blanks {
            zero,
            one,
            two,
            three,
            four,
        } = blanks;
        let (changer, zero) = put_under_lock(alloc, changer, zero);
        let (first, one) = put_under_lock(alloc, first, one);
        let (second, two) = put_under_lock_if_there(alloc, second, two);
        let (third, three) = put_under_lock_if_there(alloc, third, three);
        let (fourth, four) = put_under_lock_if_there(alloc, fourth, four);
        let shares = AllShares {
            zero,
            one,
            two,
            three,
            four,
        };
        let locks = UnitLocks {
            count,
            changer,
            first,
            second,
            third,
            fourth,
            gate,
        };
        (locks, shares)
    }
}
