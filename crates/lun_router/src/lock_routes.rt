ghost use Rattle.std.specs.Prelude.{◌≡◌, ◌<◌, ◌≤◌, [], true, false, Some, None, IsTrue, ◌↔◌};
ghost use Rattle.device_server.specs.Attending.{WasAsked};
ghost use Rattle.judgement.specs.Commands.{act_of_decoded};
ghost use Rattle.judgement.specs.Received.{command_in};
ghost use Rattle.logical_unit.specs.declared.act_kind.ActKind.TheVariants as kind;
ghost use Rattle.logical_unit.specs.Answers as event;
ghost use Rattle.logical_unit.specs.Answers.{IsAnswer};
ghost use Rattle.logical_unit.specs.ActKinds.{act_kind_of, act_kind_if};
ghost use Rattle.scsi_cdb.specs.Kinds.{kind_at, commands_at};
ghost use Rattle.lun_router.specs.Answering.{AnswersAsAbsent, LeavesNoneFor, LosesNoneFor, RefusesAsAbsent, IsSomeTrail};
ghost use Rattle.lun_router.specs.Shares.{Rise};

use crate::all_locks::UnitLocks;
use crate::gate::Gate;
use crate::locks::{
    attend_at, attend_if_there, drain_at, drain_if_there, has_room_at, has_room_if_there, lose_at,
    lose_if_there, reset_at, reset_if_there, step_at, step_if_there,
};
use crate::seat_shares::SeatShares;
use audit_log::Record;
use device_server::{Attendant, DeviceServer};
use judgement::ReceivedCommand;
use kept_unit::Ledgers;
use logical_unit::Done;
use scsi_nexus::Nexus;
use std::alloc::Global;
use std::sync::Wait;

impl<B: Ledgers, D: DeviceServer, G: Gate> UnitLocks<B, D, G> {
    /// A command at its unit, or at none. A MOVE MEDIUM or EXCHANGE MEDIUM goes to the changer with the drives that it names. May wait for another
    /// call at the same units.
    pub fn step<'a, R: Wait>(
        &self,
        rt: &R,
        alloc: Global,
        parts: &mut SeatShares<B>,
        lun: u8,
        received: &ReceivedCommand<'a>,
    ) -> Done<'a>
        requires commands { received.now.commands ≡ commands_at B.profile lun }
        ensures answer { IsAnswer result (Some received.now.nexus) lun (event.Command received.now.cdb received.now.bytes) }
        ensures act { result.act ≡ act_kind_if result.numbers (act_kind_of (act_of_decoded (command_in received.now))) }
        ensures absent { AnswersAsAbsent self.now.units lun received.now.cdb result.reply }
        ensures unnumbered { LeavesNoneFor self.now.units lun result.numbers result.reply }
        ensures rise { Rise parts.old result.numbers parts.new }
    {
        let gate = &self.gate;
        match lun {
            0 => self.step_changer(rt, alloc, parts, received),
            1 => step_at(rt, alloc, gate, &self.first, &mut parts.one, received),
            2 => step_if_there(rt, alloc, gate, &self.second, &mut parts.two, received),
            3 => step_if_there(rt, alloc, gate, &self.third, &mut parts.three, received),
            4 => step_if_there(rt, alloc, gate, &self.fourth, &mut parts.four, received),
            _ => Done::absent(alloc, lun, received),
        }
    }

    /// The loss of a nexus at a unit, or at none.
    pub fn lose<R: Wait>(
        &self,
        rt: &R,
        alloc: Global,
        parts: &mut SeatShares<B>,
        nexus: Nexus,
        lun: u8,
    ) -> Done<'static>
        ensures answer { IsAnswer result (Some nexus) lun event.Loss }
        ensures act { result.act ≡ act_kind_if result.numbers kind.Loss }
        ensures absent { RefusesAsAbsent self.now.units lun result.reply }
        ensures unnumbered { LosesNoneFor self.now.units lun result.numbers result.reply }
        ensures rise { Rise parts.old result.numbers parts.new }
    {
        match lun {
            0 => lose_at(rt, alloc, &self.changer, &mut parts.zero, nexus),
            1 => lose_at(rt, alloc, &self.first, &mut parts.one, nexus),
            2 => lose_if_there(rt, alloc, &self.second, &mut parts.two, nexus),
            3 => lose_if_there(rt, alloc, &self.third, &mut parts.three, nexus),
            4 => lose_if_there(rt, alloc, &self.fourth, &mut parts.four, nexus),
            _ => Done::absent_loss(alloc, nexus, lun),
        }
    }

    /// A reset of a unit, or of none.
    pub fn reset<R: Wait>(
        &self,
        rt: &R,
        alloc: Global,
        parts: &mut SeatShares<B>,
        lun: u8,
    ) -> Done<'static>
        ensures answer { IsAnswer result None lun event.Reset }
        ensures act { result.act ≡ act_kind_if result.numbers kind.Reset }
        ensures absent { RefusesAsAbsent self.now.units lun result.reply }
        ensures unnumbered { LeavesNoneFor self.now.units lun result.numbers result.reply }
        ensures rise { Rise parts.old result.numbers parts.new }
    {
        match lun {
            0 => reset_at(rt, alloc, &self.changer, &mut parts.zero),
            1 => reset_at(rt, alloc, &self.first, &mut parts.one),
            2 => reset_if_there(rt, alloc, &self.second, &mut parts.two),
            3 => reset_if_there(rt, alloc, &self.third, &mut parts.three),
            4 => reset_if_there(rt, alloc, &self.fourth, &mut parts.four),
            _ => Done::absent_reset(alloc, lun),
        }
    }

    /// Whether a nexus has a slot at a unit, or finds one: where it doesn't, its commands there are BUSY until the library is
    /// closed. A unit that isn't there wants no slot. May wait for a call at the unit.
    pub fn has_room<R: Wait>(&self, rt: &R, nexus: Nexus, lun: u8) -> bool
        ensures { self.now.units ≤ lun → result ≡ true }
    {
        match lun {
            0 => has_room_at(rt, &self.changer, nexus),
            1 => has_room_at(rt, &self.first, nexus),
            2 => has_room_if_there(rt, &self.second, nexus),
            3 => has_room_if_there(rt, &self.third, nexus),
            4 => has_room_if_there(rt, &self.fourth, nexus),
            _ => true,
        }
    }

    /// Lets an attendant look after the volumes of a unit's device, under its lock: nothing of the unit changes but how many objects of
    /// a tape count as unchanged, and no record and no entry is made. Whether there is such a unit; without one the attendant isn't
    /// asked.
    pub fn attend<R: Wait, A: Attendant<D>>(&self, rt: &R, lun: u8, attendant: &mut A) -> bool
        ensures there { IsTrue result ↔ (lun < self.now.units) }
        ensures asked { lun < self.now.units → WasAsked A.looks_after lun (kind_at lun) attendant.old attendant.new }
        ensures absent { result ≡ false → attendant.new ≡ attendant.old }
    {
        match lun {
            0 => attend_at(rt, &self.changer, attendant),
            1 => attend_at(rt, &self.first, attendant),
            2 => attend_if_there(rt, &self.second, attendant),
            3 => attend_if_there(rt, &self.third, attendant),
            4 => attend_if_there(rt, &self.fourth, attendant),
            _ => false,
        }
    }

    /// Hands out the records of a unit, a legal trail, into a vector without records, whose room the unit's next records have from
    /// now on. Whether there is such a unit; without one nothing changes. Takes no memory.
    pub fn drain_into<R: Wait>(&self, rt: &R, lun: u8, records: &mut Vec<Record>) -> bool
        requires { records.old.items ≡ [] }
        ensures there { IsTrue result ↔ (lun < self.now.units) }
        ensures trail { IsTrue result → IsSomeTrail records.new.items }
        ensures absent { result ≡ false → records.new ≡ records.old }
    {
        match lun {
            0 => drain_at(rt, &self.changer, records),
            1 => drain_at(rt, &self.first, records),
            2 => drain_if_there(rt, &self.second, records),
            3 => drain_if_there(rt, &self.third, records),
            4 => drain_if_there(rt, &self.fourth, records),
            _ => false,
        }
    }
}
