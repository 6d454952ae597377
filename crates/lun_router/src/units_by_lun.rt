ghost use Rattle.std.specs.Prelude.{◌≡◌, ◌+◌, ℕ, Some, None, length, drop, slice_get, nat_lt, is_some};
ghost use Rattle.std.specs.Option.{ForSome, option_map};
ghost use Rattle.logical_unit.specs.UnitView.{last_number, units_of};
ghost use Rattle.target_core.specs.Faults.{fault_of, profile_in};
ghost use Rattle.lun_router.specs.Units.{IsAt, HasUnits};

use crate::locking::UnitsByLun;
use device_server::DeviceServer;
use logical_unit::LogicalUnit;
use target_core::TargetCore;

/// Takes the first unit off, if there is one.
fn take_first<D: DeviceServer>(units: &mut Vec<LogicalUnit<D>>) -> Option<LogicalUnit<D>>
    ensures unit { option_map (λ u. u.unit) result ≡ slice_get (units_of units.old.items) 0 }
    ensures rest { units_of units.new.items ≡ drop 1 (units_of units.old.items) }
{
    if units.is_empty() {
        return None;
    }
    Some(units.remove(0))
}

/// Takes a target apart.
pub(crate) fn split_units<D: DeviceServer>(core: TargetCore<D>) -> UnitsByLun<D>
    ensures count { result.count ≡ length (units_of core) }
    ensures units { HasUnits result.count result.second result.third result.fourth }
    ensures changer { IsAt (profile_in (units_of core)) 0 result.changer.unit }
    ensures first { IsAt (profile_in (units_of core)) 1 result.first.unit }
    ensures second { ForSome result.second (λ u. IsAt (profile_in (units_of core)) 2 u.unit) }
    ensures third { ForSome result.third (λ u. IsAt (profile_in (units_of core)) 3 u.unit) }
    ensures fourth { ForSome result.fourth (λ u. IsAt (profile_in (units_of core)) 4 u.unit) }
    ensures changer_is { slice_get (units_of core) 0 ≡ Some result.changer.unit }
    ensures first_is { slice_get (units_of core) 1 ≡ Some result.first.unit }
    ensures second_is { option_map (λ u. u.unit) result.second ≡ slice_get (units_of core) 2 }
    ensures third_is { option_map (λ u. u.unit) result.third ≡ slice_get (units_of core) 3 }
    ensures fourth_is { option_map (λ u. u.unit) result.fourth ≡ slice_get (units_of core) 4 }
{
    let mut units = core.into_units();
    let count = units.len() as u8;
    let Some(changer) = take_first(&mut units) else {
        unreachable!()
    };
    let Some(first) = take_first(&mut units) else {
        unreachable!()
    };
    let second = take_first(&mut units);
    let third = take_first(&mut units);
    let fourth = take_first(&mut units);
    UnitsByLun {
        count,
        changer,
        first,
        second,
        third,
        fourth,
    }
}
