ghost use Rattle.std.specs.Prelude.{◌≡◌, ◌<◌, ◌≤◌, [], true, false, Some, None, IsNone, IfSome, IsTrue, OnOk, OnErr, ◌↔◌};
ghost use Rattle.device_server.specs.Attending.{WasAsked};
ghost use Rattle.judgement.specs.Commands.{act_of};
ghost use Rattle.logical_unit.specs.declared.act_kind.ActKind.TheVariants as kind;
ghost use Rattle.logical_unit.specs.Answers as event;
ghost use Rattle.logical_unit.specs.Answers.{IsAnswer};
ghost use Rattle.logical_unit.specs.ActKinds.{act_kind_of, act_kind_if};
ghost use Rattle.scsi_cdb.specs.Kinds.{kind_at, commands_at};
ghost use Rattle.lun_router.specs.Answering.{AnswersAsAbsent, LeavesNoneFor, LosesNoneFor, RefusesAsAbsent, IsSomeTrail};
ghost use Rattle.lun_router.specs.Seats.{Notes, Settles};

use crate::gate::Gate;
use crate::library::Library;
use crate::seat::Seat;
use audit_log::Record;
use device_server::{Attendant, DeviceServer};
use judgement::ReceivedCommand;
use kept_unit::Ledgers;
use logical_unit::{Done, EventKind};
use scsi_cdb::commands_at;
use scsi_nexus::Nexus;
use std::alloc::{AllocError, Global};
use std::sync::Wait;

impl<B: Ledgers, D: DeviceServer, G: Gate> Library<B, D, G> {
    /// A command of a nexus to a logical unit, with an entry of its answer in the seat. A MOVE MEDIUM goes to the changer
    /// with the drives that it names. The seat's room comes first: where it is refused, the answer is BUSY, and nothing has
    /// changed. May wait for another call at the same units.
    pub fn submit<'a, R: Wait>(
        &self,
        rt: &R,
        alloc: Global,
        seat: &mut Seat<B>,
        nexus: Nexus,
        lun: u8,
        cdb: &'a [u8],
        bytes: &'a [u8],
    ) -> Done<'a>
        ensures answer { IsAnswer result (Some nexus) lun (event.Command cdb.now bytes.now) }
        ensures act { result.act ≡ act_kind_if result.numbers (act_kind_of (act_of (commands_at B.profile lun) cdb.now bytes.now)) }
        ensures absent { AnswersAsAbsent self.now.units lun cdb.now result.reply }
        ensures unnumbered { LeavesNoneFor self.now.units lun result.numbers result.reply }
        ensures notes { Notes seat.old result seat.new }
    {
        let Seat { parts, entries, .. } = seat;
        if !entries.make_room() {
            return Done::busy(alloc, Some(nexus), lun, EventKind::Command { cdb, bytes });
        }
        let received = ReceivedCommand::new(nexus, commands_at(self.profile, lun), cdb, bytes);
        let done = self.locks.step(rt, alloc, parts, lun, &received);
        entries.push_reserved(done.entry());
        done
    }

    /// An I_T nexus loss at a logical unit, with an entry of its answer in the seat, as of a command.
    pub fn lose<R: Wait>(
        &self,
        rt: &R,
        alloc: Global,
        seat: &mut Seat<B>,
        nexus: Nexus,
        lun: u8,
    ) -> Done<'static>
        ensures answer { IsAnswer result (Some nexus) lun event.Loss }
        ensures act { result.act ≡ act_kind_if result.numbers kind.Loss }
        ensures absent { RefusesAsAbsent self.now.units lun result.reply }
        ensures unnumbered { LosesNoneFor self.now.units lun result.numbers result.reply }
        ensures notes { Notes seat.old result seat.new }
    {
        let Seat { parts, entries, .. } = seat;
        if !entries.make_room() {
            return Done::busy(alloc, Some(nexus), lun, EventKind::Loss);
        }
        let done = self.locks.lose(rt, alloc, parts, nexus, lun);
        entries.push_reserved(done.entry());
        done
    }

    /// A reset of a logical unit, with an entry of its answer in the seat, as of a command.
    pub fn reset<R: Wait>(
        &self,
        rt: &R,
        alloc: Global,
        seat: &mut Seat<B>,
        lun: u8,
    ) -> Done<'static>
        ensures answer { IsAnswer result None lun event.Reset }
        ensures act { result.act ≡ act_kind_if result.numbers kind.Reset }
        ensures absent { RefusesAsAbsent self.now.units lun result.reply }
        ensures unnumbered { LeavesNoneFor self.now.units lun result.numbers result.reply }
        ensures notes { Notes seat.old result seat.new }
    {
        let Seat { parts, entries, .. } = seat;
        if !entries.make_room() {
            return Done::busy(alloc, None, lun, EventKind::Reset);
        }
        let done = self.locks.reset(rt, alloc, parts, lun);
        entries.push_reserved(done.entry());
        done
    }

    /// Settles what a seat has noted: the longest beginning of its entries whose records were handed out leaves the list, also an
    /// entry without a number, and the numbers go over to their units. `drained` says by logical unit number up to which number each
    /// unit's records were handed out, 0 where none was. It is a beginning because the numbers of a unit rise along a seat. What a
    /// unit can't take yet, the seat keeps as ranges of 16 bytes each, and offers again next time; a unit keeps one range for all
    /// numbers without a gap. On an error nothing has changed. Takes time for as many entries as are settled; may wait for a call at
    /// a unit.
    pub fn settle<R: Wait>(
        &self,
        rt: &R,
        seat: &mut Seat<B>,
        drained: &[u64; 5],
    ) -> Result<(), AllocError>
        ensures ok { OnOk result (Settles drained.now seat.old seat.new) }
        ensures err { OnErr result (seat.new ≡ seat.old) }
    {
        seat.settle_entries(drained)?;
        let Seat {
            parts,
            ranges,
            handed_over,
            ..
        } = seat;
        self.locks.hand_over(rt, parts, ranges, handed_over);
        Ok(())
    }

    /// Whether a nexus has a slot at a unit, or finds one: where it doesn't, its commands there are BUSY until the library is
    /// closed. A unit that isn't there wants no slot. May wait for a call at the unit.
    pub fn has_room<R: Wait>(&self, rt: &R, nexus: Nexus, lun: u8) -> bool
        ensures { self.now.units ≤ lun → result ≡ true }
    {
        self.locks.has_room(rt, nexus, lun)
    }

    /// Lets an attendant look after the volumes of a unit's device, under its lock: nothing of the unit changes but how many objects of
    /// a tape count as unchanged, and no record and no entry is made. Whether there is such a unit; without one the attendant isn't
    /// asked.
    pub fn attend<R: Wait, A: Attendant<D>>(&self, rt: &R, lun: u8, attendant: &mut A) -> bool
        ensures there { IsTrue result ↔ (lun < self.now.units) }
        ensures asked { lun < self.now.units → WasAsked A.looks_after lun (kind_at lun) attendant.old attendant.new }
        ensures absent { result ≡ false → attendant.new ≡ attendant.old }
    {
        self.locks.attend(rt, lun, attendant)
    }

    /// Hands out the records of a unit, a legal trail; its numbers go on, and no entry is added. `None` where there is no
    /// such unit. Takes no memory.
    pub fn drain<R: Wait>(&self, rt: &R, alloc: Global, lun: u8) -> Option<Vec<Record>>
        ensures none { IsNone result ↔ (self.now.units ≤ lun) }
        ensures trail { IfSome result (λ entries. IsSomeTrail entries.items) }
    {
        let mut records = Vec::new(alloc);
        if self.drain_into(rt, lun, &mut records) {
            Some(records)
        } else {
            None
        }
    }

    /// The same into a vector without records, whose room the unit's next records have from now on: who clears the records
    /// once they are read and drains into their vector again asks for no memory, nor do the commands until that room is used.
    /// Whether there is such a unit; without one nothing changes.
    pub fn drain_into<R: Wait>(&self, rt: &R, lun: u8, records: &mut Vec<Record>) -> bool
        requires { records.old.items ≡ [] }
        ensures there { IsTrue result ↔ (lun < self.now.units) }
        ensures trail { IsTrue result → IsSomeTrail records.new.items }
        ensures absent { result ≡ false → records.new ≡ records.old }
    {
        self.locks.drain_into(rt, lun, records)
    }
}
