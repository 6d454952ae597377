ghost use Rattle.std.specs.Prelude.{◌≡◌, ◌≢◌, ◌<◌, ◌↔◌, IfOk, IfErr, IfSome, IsTrue, IsErr, map, sum_by, vec_len};
ghost use Rattle.kept_unit.specs.Agreeing.{Agrees};
ghost use Rattle.kept_unit.specs.SeatNotes.{notes_value};
ghost use Rattle.lun_router.specs.Units.{HasUnits};
ghost use Rattle.lun_router.specs.Closing.{IsAccounted};
ghost use Rattle.lun_router.specs.Seats.{notes_at};

use crate::all_locks::UnitLocks;
use crate::gate::Gate;
use crate::library::Library;
use crate::seat::Seat;
use crate::seat_shares::AllShares;
use crate::taking::{Histories, TakenUnits};
use device_server::DeviceServer;
use kept_unit::{Kept, Ledgers, SeatNotes, UnitLedger};
use std::alloc::{AllocError, Global};
use thiserror::Error;

/// Why a library isn't closed.
#[derive(Clone, Copy, Debug, PartialEq, Eq, Error)]
pub enum CloseFault {
    /// What the seats have noted isn't what the trails say.
    #[error("the entries of the seats do not agree with the trails")]
    Mismatch,
    /// There are more seats than were made, or fewer.
    #[error("not every seat is here")]
    SeatMissing,
    /// Memory for comparing was refused.
    #[error("out of memory")]
    NoMemory,
}

/// What each seat has noted of a unit.
fn noted<'a, B: Ledgers>(
    alloc: Global,
    lun: u8,
    seats: &'a [Seat<B>],
) -> Result<Vec<SeatNotes<'a>>, AllocError>
    ensures { IfOk result (λ all. map notes_value all.items ≡ map (notes_at lun) seats.now) }
{
    let mut all = Vec::new(alloc);
    for seat in seats {
        all.push(SeatNotes {
            handed_over: seat.handed_over(lun),
            settled: seat.settled(lun),
            listed: seat.entries(),
        })?;
    }
    Ok(all)
}

/// Whether what all seats have noted agrees with the trail of a unit.
fn agree_at<const LUN: u8, L: UnitLedger, B: Ledgers, D: DeviceServer>(
    alloc: Global,
    kept: &Kept<LUN, L, D>,
    seats: &[Seat<B>],
) -> Result<bool, AllocError>
    ensures { IfOk result (λ agreed. IsTrue agreed → Agrees (notes_at LUN) LUN L.since kept.now.unit.base.last kept.now.unit.records kept.now.handed_over seats.now) }
{
    let all = noted(alloc, LUN, seats)?;
    kept.agree(alloc, all.as_slice())
}

/// The same of a unit, if there is one.
fn agree_if_there<const LUN: u8, L: UnitLedger, B: Ledgers, D: DeviceServer>(
    alloc: Global,
    kept: &Option<Kept<LUN, L, D>>,
    seats: &[Seat<B>],
) -> Result<bool, AllocError>
    ensures { IfOk result (λ agreed. IsTrue agreed → IfSome kept.now (λ k. Agrees (notes_at LUN) LUN L.since k.unit.base.last k.unit.records k.handed_over seats.now)) }
{
    match kept {
        Some(kept) => agree_at(alloc, kept, seats),
        None => Ok(true),
    }
}

/// Whether what all seats have noted agrees with each trail.
fn agree<B: Ledgers, D: DeviceServer>(
    alloc: Global,
    units: &TakenUnits<B, D>,
    seats: &[Seat<B>],
) -> Result<bool, AllocError>
    ensures changer { IfOk result (λ agreed. IsTrue agreed → Agrees (notes_at 0) 0 (B.since_of 0) units.now.changer.unit.base.last units.now.changer.unit.records units.now.changer.handed_over seats.now) }
    ensures first { IfOk result (λ agreed. IsTrue agreed → Agrees (notes_at 1) 1 (B.since_of 1) units.now.first.unit.base.last units.now.first.unit.records units.now.first.handed_over seats.now) }
    ensures second { IfOk result (λ agreed. IsTrue agreed → IfSome units.now.second (λ k. Agrees (notes_at 2) 2 (B.since_of 2) k.unit.base.last k.unit.records k.handed_over seats.now)) }
    ensures third { IfOk result (λ agreed. IsTrue agreed → IfSome units.now.third (λ k. Agrees (notes_at 3) 3 (B.since_of 3) k.unit.base.last k.unit.records k.handed_over seats.now)) }
    ensures fourth { IfOk result (λ agreed. IsTrue agreed → IfSome units.now.fourth (λ k. Agrees (notes_at 4) 4 (B.since_of 4) k.unit.base.last k.unit.records k.handed_over seats.now)) }
{
    Ok(
        agree_at(alloc, &units.changer, seats)?
            && agree_at(alloc, &units.first, seats)?
            && agree_if_there(alloc, &units.second, seats)?
            && agree_if_there(alloc, &units.third, seats)?
            && agree_if_there(alloc, &units.fourth, seats)?,
    )
}

/// The shares of all seats together.
fn gather<B: Ledgers>(seats: Vec<Seat<B>>) -> AllShares<B>
    requires { 0 < vec_len seats }
    ensures parts { (result.zero.parts ≡ vec_len seats) × (result.one.parts ≡ vec_len seats) × (result.two.parts ≡ vec_len seats) × (result.three.parts ≡ vec_len seats) × (result.four.parts ≡ vec_len seats) }
    ensures zero { result.zero.amount ≡ sum_by (λ s. s.amounts.zero) seats.items }
    ensures one { result.one.amount ≡ sum_by (λ s. s.amounts.one) seats.items }
    ensures two { result.two.amount ≡ sum_by (λ s. s.amounts.two) seats.items }
    ensures three { result.three.amount ≡ sum_by (λ s. s.amounts.three) seats.items }
    ensures four { result.four.amount ≡ sum_by (λ s. s.amounts.four) seats.items }
{
    let mut seats = seats;
    let Some(last) = seats.pop() else {
        unreachable!()
    };
    let mut all = AllShares::of_seat(last.into_shares());
    while let Some(seat) = seats.pop() {
        all.merge(seat.into_shares());
    }
    all
}

impl<B: Ledgers, D: DeviceServer, G: Gate> Library<B, D, G> {
    /// Ends the library, with all its seats. Where the answer is the units, each number that a unit has used since the
    /// library was opened stands in exactly one entry, settled range or range that was handed over, and all their numbers were used;
    /// the record of an entry is that of its call, with its nexus, kind of act, status and sense data, and a move's records at drives
    /// say that a volume was taken out or came in, without a nexus; along one seat the numbers of a unit rise, from the last one on that
    /// it handed over. Records that were handed out are compared by number alone, and each number that was settled or handed over is one
    /// of such a record. The unit has used as many numbers as were handed over and as the seats' shares of its ledger count. A refusal
    /// hands library and seats back. Takes memory, unit by unit, for each range and for each run of numbers in the entries of a seat.
    pub fn close(
        self,
        alloc: Global,
        seats: Vec<Seat<B>>,
    ) -> Result<Histories<D>, (CloseFault, Library<B, D, G>, Vec<Seat<B>>)>
        ensures changer { IfOk result (λ h. IsAccounted 0 (B.since_of 0) h.changer.unit seats.items) }
        ensures first { IfOk result (λ h. IsAccounted 1 (B.since_of 1) h.first.unit seats.items) }
        ensures second { IfOk result (λ h. IfSome h.second (λ u. IsAccounted 2 (B.since_of 2) u.unit seats.items)) }
        ensures third { IfOk result (λ h. IfSome h.third (λ u. IsAccounted 3 (B.since_of 3) u.unit seats.items)) }
        ensures fourth { IfOk result (λ h. IfSome h.fourth (λ u. IsAccounted 4 (B.since_of 4) u.unit seats.items)) }
        ensures units { IfOk result (λ h. HasUnits self.units h.second h.third h.fourth) }
        ensures missing { vec_len seats ≢ self.seats → IsErr result }
        ensures only_missing { IfErr result (λ back. (back.0 ≡ CloseFault.SeatMissing) ↔ (vec_len seats ≢ self.seats)) }
        ensures library { IfErr result (λ back. back.1 ≡ self) }
        ensures seats { IfErr result (λ back. back.2 ≡ seats) }
    {
        if seats.len() != self.seats {
            return Err((CloseFault::SeatMissing, self, seats));
        }
        let Library {
            seats: made,
            profile,
            locks,
        } = self;
        let count = locks.units();
        let (units, gate) = locks.take();
        let fault = match agree(alloc, &units, &seats) {
            Ok(true) => return Ok(units.histories(gather(seats))),
            Ok(false) => CloseFault::Mismatch,
            Err(_) => CloseFault::NoMemory,
        };
        let library = Library {
            seats: made,
            profile,
            locks: UnitLocks::put(count, units, gate),
        };
        Err((fault, library, seats))
    }
}
