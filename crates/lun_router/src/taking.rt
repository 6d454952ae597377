ghost use Rattle.std.specs.Prelude.{◌≡◌, ◌+◌, IfSome, is_some};
ghost use Rattle.std.specs.Option.{option_map};
ghost use Rattle.logical_unit.specs.UnitView.{last_number};
ghost use Rattle.settled_numbers.specs.Numbers.{count};
ghost use Rattle.lun_router.specs.Units.{HasUnits};

use crate::all_locks::UnitLocks;
use crate::gate::Gate;
use crate::locked::Locked;
use crate::seat_shares::AllShares;
use device_server::DeviceServer;
use kept_unit::{At, Kept, Ledgers, UnitLedger};
use logical_unit::LogicalUnit;
use std::sync::ledger::Share;

/// The units of a library that was closed, each with its trail.
#[derive(Drop)]
pub struct Histories<D: DeviceServer> {
    pub changer: LogicalUnit<D>,
    pub first: LogicalUnit<D>,
    pub second: Option<LogicalUnit<D>>,
    pub third: Option<LogicalUnit<D>>,
    pub fourth: Option<LogicalUnit<D>>,
}

/// What lay under the locks.
#[derive(Drop)]
pub struct TakenUnits<B: Ledgers, D: DeviceServer> {
    pub changer: Kept<0, At<0, B>, D>,
    pub first: Kept<1, At<1, B>, D>,
    pub second: Option<Kept<2, At<2, B>, D>>,
    pub third: Option<Kept<3, At<3, B>, D>>,
    pub fourth: Option<Kept<4, At<4, B>, D>>,
}

/// What lay under a lock, if there is one.
fn taken_out<const LUN: u8, L: UnitLedger, D: DeviceServer>(
    lock: Option<Locked<LUN, L, D>>,
) -> Option<Kept<LUN, L, D>>
    ensures { is_some result ≡ is_some lock }
{
    match lock {
        Some(lock) => Some(lock.into_inner()),
        None => None,
    }
}

/// Puts a unit under a lock again, if there is one.
fn put_back<const LUN: u8, L: UnitLedger, D: DeviceServer>(
    kept: Option<Kept<LUN, L, D>>,
) -> Option<Locked<LUN, L, D>>
    ensures { is_some result ≡ is_some kept }
{
    match kept {
        Some(kept) => Some(Locked::new(kept)),
        None => None,
    }
}

/// The unit that was kept, if there is one, once all other parts of its ledger are here.
fn unit_if_there<const LUN: u8, L: UnitLedger, D: DeviceServer>(
    kept: Option<Kept<LUN, L, D>>,
    rest: Share<L>,
) -> Option<LogicalUnit<D>>
    requires { rest.parts + 1 ≡ L.parts }
    ensures unit { option_map (λ u. u.unit) result ≡ option_map (λ k. k.unit) kept }
    ensures there { is_some result ≡ is_some kept }
    ensures sum { IfSome result (λ u. IfSome kept (λ k. last_number u.unit ≡ L.since + (count k.handed_over + rest.amount))) }
{
    match kept {
        Some(kept) => Some(kept.close(rest)),
        None => None,
    }
}

impl<B: Ledgers, D: DeviceServer> TakenUnits<B, D> {
    /// The units, once all other parts of their ledgers are here: the numbers that each has used since are as many as were handed
    /// over to it and as those parts count.
    pub fn histories(self, rest: AllShares<B>) -> Histories<D>
        requires { (rest.zero.parts + 1 ≡ B.all_parts) × (rest.one.parts + 1 ≡ B.all_parts) × (rest.two.parts + 1 ≡ B.all_parts) × (rest.three.parts + 1 ≡ B.all_parts) × (rest.four.parts + 1 ≡ B.all_parts) }
        ensures changer { result.changer.unit ≡ self.changer.unit }
        ensures first { result.first.unit ≡ self.first.unit }
        ensures second { option_map (λ u. u.unit) result.second ≡ option_map (λ k. k.unit) self.second }
        ensures third { option_map (λ u. u.unit) result.third ≡ option_map (λ k. k.unit) self.third }
        ensures fourth { option_map (λ u. u.unit) result.fourth ≡ option_map (λ k. k.unit) self.fourth }
        ensures changer_sum { last_number result.changer.unit ≡ B.since_of 0 + (count self.changer.handed_over + rest.zero.amount) }
        ensures first_sum { last_number result.first.unit ≡ B.since_of 1 + (count self.first.handed_over + rest.one.amount) }
        ensures second_sum { IfSome result.second (λ u. IfSome self.second (λ k. last_number u.unit ≡ B.since_of 2 + (count k.handed_over + rest.two.amount))) }
        ensures third_sum { IfSome result.third (λ u. IfSome self.third (λ k. last_number u.unit ≡ B.since_of 3 + (count k.handed_over + rest.three.amount))) }
        ensures fourth_sum { IfSome result.fourth (λ u. IfSome self.fourth (λ k. last_number u.unit ≡ B.since_of 4 + (count k.handed_over + rest.four.amount))) }
        ensures there { (is_some result.second ≡ is_some self.second) × (is_some result.third ≡ is_some self.third) × (is_some result.fourth ≡ is_some self.fourth) }
    {
        let TakenUnits {
            changer,
            first,
            second,
            third,
            fourth,
        } = self;
        let AllShares {
            zero,
            one,
            two,
            three,
            four,
        } = rest;
        Histories {
            changer: changer.close(zero),
            first: first.close(one),
            second: unit_if_there(second, two),
            third: unit_if_there(third, three),
            fourth: unit_if_there(fourth, four),
        }
    }
}

impl<B: Ledgers, D: DeviceServer, G: Gate> UnitLocks<B, D, G> {
    /// The units, taken out of their locks, and the gate.
    pub fn take(self) -> (TakenUnits<B, D>, G)
        ensures { HasUnits self.units result.0.second result.0.third result.0.fourth }
    {
        let UnitLocks {
            count: _,
            changer,
            first,
            second,
            third,
            fourth,
            gate,
        } = self;
        let units = TakenUnits {
            changer: changer.into_inner(),
            first: first.into_inner(),
            second: taken_out(second),
            third: taken_out(third),
            fourth: taken_out(fourth),
        };
        (units, gate)
    }

    /// The locks again, as they were.
    pub fn put(count: u8, units: TakenUnits<B, D>, gate: G) -> UnitLocks<B, D, G>
        requires { HasUnits count units.second units.third units.fourth }
        ensures { result.units ≡ count }
    {
        let TakenUnits {
            changer,
            first,
            second,
            third,
            fourth,
        } = units;
        UnitLocks {
            count,
            changer: Locked::new(changer),
            first: Locked::new(first),
            second: put_back(second),
            third: put_back(third),
            fourth: put_back(fourth),
            gate,
        }
    }
}
