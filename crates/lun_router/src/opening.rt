ghost use Rattle.std.specs.Prelude.{◌≡◌, ◌<◌, ◌+◌, All, IfOk, IfErr, length, vec_len};
ghost use Rattle.logical_unit.specs.UnitView.{units_of};
ghost use Rattle.target_core.specs.Faults.{profile_in};
ghost use Rattle.lun_router.specs.Blanks.{AreBlanks};
ghost use Rattle.lun_router.specs.Opening.{IsSince};
ghost use Rattle.lun_router.specs.Seats.{IsUntold};

use crate::all_locks::UnitLocks;
use crate::gate::Gate;
use crate::library::Library;
use crate::locking::Blanks;
use crate::seat::Seat;
use crate::seat_shares::AllShares;
use crate::units_by_lun::split_units;
use device_server::DeviceServer;
use kept_unit::Ledgers;
use std::alloc::{AllocError, Global};
use target_core::TargetCore;

/// A seat with a part of each, which was told nothing.
fn cut<B: Ledgers>(alloc: Global, shares: &mut AllShares<B>) -> Seat<B>
    requires parts { (0 < shares.old.zero.parts) × (0 < shares.old.one.parts) × (0 < shares.old.two.parts) × (0 < shares.old.three.parts) × (0 < shares.old.four.parts) }
    requires amounts { (shares.old.zero.amount ≡ 0) × (shares.old.one.amount ≡ 0) × (shares.old.two.amount ≡ 0) × (shares.old.three.amount ≡ 0) × (shares.old.four.amount ≡ 0) }
    ensures seat { IsUntold result }
    ensures amounts { (shares.new.zero.amount ≡ 0) × (shares.new.one.amount ≡ 0) × (shares.new.two.amount ≡ 0) × (shares.new.three.amount ≡ 0) × (shares.new.four.amount ≡ 0) }
    ensures parts { (shares.new.zero.parts + 1 ≡ shares.old.zero.parts) × (shares.new.one.parts + 1 ≡ shares.old.one.parts) × (shares.new.two.parts + 1 ≡ shares.old.two.parts) × (shares.new.three.parts + 1 ≡ shares.old.three.parts) × (shares.new.four.parts + 1 ≡ shares.old.four.parts) }
{
    Seat::new(alloc, shares.cut())
}

impl<B: Ledgers, D: DeviceServer, G: Gate> Library<B, D, G> {
    /// Puts each unit of a target under a lock of its own, and makes so many seats. It is called by a function that is
    /// generic over the ledgers, which its caller picks with `Brand`: the blanks' names, and the last record numbers
    /// that the units have used and their profile. A refusal hands the target back; the blanks are spent.
    pub fn new(
        alloc: Global,
        core: TargetCore<D>,
        seats: usize,
        blanks: Blanks,
        gate: G,
    ) -> Result<(Library<B, D, G>, Vec<Seat<B>>), (AllocError, TargetCore<D>)>
        requires some { 0 < seats }
        requires blanks { AreBlanks B.names B.all_parts blanks }
        requires parts { B.all_parts ≡ seats + 1 }
        requires since { IsSince (units_of core) B.since_of }
        requires profile { profile_in (units_of core) ≡ B.profile }
        ensures units { IfOk result (λ opened. opened.0.units ≡ length (units_of core)) }
        ensures seats { IfOk result (λ opened. (opened.0.seats ≡ seats) × (vec_len opened.1 ≡ seats)) }
        ensures untold { IfOk result (λ opened. All IsUntold opened.1.items) }
        ensures back { IfErr result (λ back. back.1 ≡ core) }
    {
        let mut all = Vec::new(alloc);
        if let Err(refused) = all.reserve(seats) {
            return Err((refused.into(), core));
        }
        let profile = core.profile();
        let (locks, mut shares) = UnitLocks::open(alloc, split_units(core), blanks, gate);
        for _i in 0..seats {
            all.push_reserved(cut(alloc, &mut shares));
        }
        let library = Library {
            seats,
            profile,
            locks,
        };
        Ok((library, all))
    }
}
