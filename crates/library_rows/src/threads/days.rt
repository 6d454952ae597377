//! Opens a library for a scene.
ghost use Rattle.std.specs.Prelude.{◌≡◌, ◌<◌, ◌+◌};
ghost use Rattle.logical_unit.specs.UnitView.{units_of};
ghost use Rattle.lun_router.specs.Blanks.{AreBlanks};
ghost use Rattle.target_core.specs.Faults.{profile_in};
ghost use Rattle.lun_router.specs.Opening.{IsSince};

use super::gates::{Flags, TestGate};
use super::playing::play;
use super::targets::two_drives;
use kept_unit::Ledgers;
use library_start::Device;
use lun_router::{Blanks, Library};
use std::alloc::Global;
use std::marker::Brand;
use std::process::Abort;
use std::sync::Wait;
use std::sync::ledger::Blank;
use std::thread::Threads;
use std::time::Clock;
use target_core::TargetCore;

/// How many seats the libraries have.
const SEATS: usize = 2;

fn day<B: Ledgers + Send + Sync, R: Abort + Clock + Threads + Wait + Sync>(
    rt: &R,
    alloc: Global,
    core: TargetCore<Device>,
    seats: usize,
    blanks: Blanks,
    gate: TestGate<'_>,
    flags: &Flags,
    scene: usize,
)
    requires some { 0 < seats }
    requires blanks { AreBlanks B.names B.all_parts blanks }
    requires parts { B.all_parts ≡ seats + 1 }
    requires since { IsSince (units_of core) B.since_of }
    requires profile { profile_in (units_of core) ≡ B.profile }
{
    match Library::<B, Device, TestGate<'_>>::new(alloc, core, seats, blanks, gate) {
        Ok((library, all)) => play(rt, alloc, library, all, flags, scene),
        Err(_) => rt.panic("no library"),
    }
}

/// Plays a scene in a library of two drives and two volumes, with two seats.
pub(super) fn run<R: Abort + Clock + Threads + Wait + Sync>(
    rt: &R,
    alloc: Global,
    gate: TestGate<'_>,
    flags: &Flags,
    scene: usize,
) {
    let core = two_drives(alloc).expect(rt, "a target");
    let parts = SEATS as u64 + 1;
    let blanks = Blanks {
        zero: Blank::new(parts),
        one: Blank::new(parts),
        two: Blank::new(parts),
        three: Blank::new(parts),
        four: Blank::new(parts),
    };
    day::<Brand, R>(rt, alloc, core, SEATS, blanks, gate, flags, scene);
}
