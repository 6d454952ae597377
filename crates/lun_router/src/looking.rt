//! A look at a unit under its lock, which changes nothing.

ghost use Rattle.std.specs.Prelude.{◌≡◌, ◌<◌, true, false, IsTrue, IsSome, ◌↔◌};
ghost use Rattle.lun_router.specs.Looking.{WasShown};

use crate::all_locks::UnitLocks;
use crate::gate::Gate;
use crate::library::Library;
use crate::locked::Locked;
use device_server::DeviceServer;
use kept_unit::{Ledgers, UnitLedger};
use logical_unit::LogicalUnit;
use std::sync::Wait;

/// Who looks at a unit while it is under its lock, as to copy what is to be reported of it. The unit is lent, so nothing of it changes.
pub trait UnitObserver<D: DeviceServer> {
    ghost use Rattle.logical_unit.specs.UnitView.{UnitView};

    /// What it knows after a look at a unit. Nobody but the observer can say so.
    ghost sees: { Self → UnitView → Self → Type 0 };

    fn look(&mut self, unit: &LogicalUnit<D>)
        ensures { sees self.old unit.now.unit self.new };
}

/// A look at the unit under this lock. True, since the unit is there.
fn look_at<const LUN: u8, L: UnitLedger, D: DeviceServer, O: UnitObserver<D>, R: Wait>(
    rt: &R,
    lock: &Locked<LUN, L, D>,
    observer: &mut O,
) -> bool
    ensures there { result ≡ true }
    ensures shown { WasShown O.sees L.profile LUN observer.old observer.new }
{
    let kept = lock.mutex().lock(rt);
    observer.look(kept.unit());
    true
}

/// The same where the unit may be absent.
fn look_if_there<const LUN: u8, L: UnitLedger, D: DeviceServer, O: UnitObserver<D>, R: Wait>(
    rt: &R,
    lock: &Option<Locked<LUN, L, D>>,
    observer: &mut O,
) -> bool
    ensures there { IsTrue result ↔ IsSome lock.now }
    ensures shown { IsTrue result → WasShown O.sees L.profile LUN observer.old observer.new }
    ensures absent { result ≡ false → observer.new ≡ observer.old }
{
    match lock {
        Some(lock) => look_at(rt, lock, observer),
        None => false,
    }
}

impl<B: Ledgers, D: DeviceServer, G: Gate> UnitLocks<B, D, G> {
    fn look<O: UnitObserver<D>, R: Wait>(&self, rt: &R, lun: u8, observer: &mut O) -> bool
        ensures there { IsTrue result ↔ (lun < self.now.units) }
        ensures shown { lun < self.now.units → WasShown O.sees B.profile lun observer.old observer.new }
        ensures absent { result ≡ false → observer.new ≡ observer.old }
    {
        match lun {
            0 => look_at(rt, &self.changer, observer),
            1 => look_at(rt, &self.first, observer),
            2 => look_if_there(rt, &self.second, observer),
            3 => look_if_there(rt, &self.third, observer),
            4 => look_if_there(rt, &self.fourth, observer),
            _ => false,
        }
    }
}

impl<B: Ledgers, D: DeviceServer, G: Gate> Library<B, D, G> {
    /// Lets an observer look at a unit under its lock, which is taken once: the unit stays as it is, and no record and no entry is made.
    /// Whether there is such a unit; without one the observer stays as it is, too. May wait for a call at the unit.
    pub fn look<O: UnitObserver<D>, R: Wait>(&self, rt: &R, lun: u8, observer: &mut O) -> bool
        ensures there { IsTrue result ↔ (lun < self.now.units) }
        ensures shown { lun < self.now.units → WasShown O.sees B.profile lun observer.old observer.new }
        ensures absent { result ≡ false → observer.new ≡ observer.old }
    {
        self.locks.look(rt, lun, observer)
    }
}
