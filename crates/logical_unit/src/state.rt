use crate::act_kind::{ActKind, act_kind_of};
use crate::audit::span_lines;
use crate::move_finding::{MoveFinding, judge_move};
use crate::move_judgement::MoveJudgement;
use crate::route::Errand;
use audit_log::{Act, Record, Stage, Trail};
use device_server::DeviceServer;
use judgement::{Command, Decision, ReceivedCommand, Reply, UnitState, act_of, judge};
use scsi_cdb::Profile;
use scsi_nexus::Nexus;
use scsi_sense::{Sense, Status};
use std::alloc::{AllocError, Global};
use std::marker::Model;

/// A unit without its device: what it keeps now, the records, and what was kept before the first of
/// them. What it keeps is always what the records make of that.
// The trail, which each command writes, lies first: at the end it would share a cache line with what stands behind the unit in
// memory, which another thread may be writing.
#[derive(Drop)]
pub(crate) struct RecordedUnit {
    trail: Trail,
    state: UnitState,
    base: UnitState,
}

impl Model for RecordedUnit {
    ghost use Rattle.std.specs.Prelude.{◌≡◌};
    ghost use Rattle.logical_unit.specs.UnitView.{Base, RecordedUnitView};
    ghost use Rattle.logical_unit.specs.Legal.{AreJudged, kept_after};

    ghost Value = { RecordedUnitView };

    ghost view = { λ s. record {
      state = s.state;
      base = record { state = s.base; last = s.trail.base };
      records = s.trail.records;
      room = s.trail.room;
    } };

    ghost invariant = { λ s. AreJudged s.base s.trail.records × (s.state ≡ kept_after s.base s.trail.records) };
}

impl RecordedUnit {
    ghost use Rattle.std.specs.Prelude.{◌≡◌, ◌<◌, ◌≤◌, ◌+◌, ◌^◌, ◌⊎◌, ℕ, true, false, [], map, string_bytes, IfOk, IsTrue};
    ghost use Rattle.unit_attention.specs.Queues.{has_slot};
    ghost use Rattle.logical_unit.specs.UnitView.{Base, RecordedUnitView, last_in};
    ghost use Rattle.judgement.specs.UnitState.{at_power_on, has_room, is_prevented, HaveSlots};
    ghost use Rattle.logical_unit.specs.Audit.{span_lines};
    ghost use Rattle.logical_unit.specs.Legal.{IsTrail};

    /// At power on, for a unit of this number among so many, all of one profile. The first record will have the number
    /// after `last`.
    pub(crate) fn new(
        alloc: Global,
        profile: Profile,
        lun: u8,
        units: u8,
        last: u64,
    ) -> RecordedUnit
        ensures { result ≡ record { state = at_power_on profile lun units; base = record { state = at_power_on profile lun units; last = last }; records = []; room = 0 } }
    {
        RecordedUnit {
            state: UnitState::new(profile, lun, units),
            base: UnitState::new(profile, lun, units),
            trail: Trail::new(alloc, last),
        }
    }

    /// What is kept now.
    pub(crate) fn state(&self) -> &UnitState
        ensures { result.now ≡ self.now.state }
    {
        &self.state
    }

    pub(crate) fn lun(&self) -> u8
        ensures { result ≡ self.now.state.lun }
    {
        self.state.lun()
    }

    pub(crate) fn units(&self) -> u8
        ensures { result ≡ self.now.state.units }
    {
        self.state.units()
    }

    /// The last number that was used.
    pub(crate) fn last(&self) -> u64
        ensures { result ≡ last_in self.now }
    {
        self.trail.last()
    }

    /// Whether a sender has a slot, or one is left for it.
    pub(crate) fn has_room(&mut self, nexus: Nexus) -> bool
        ensures room { result ≡ has_room self.old.state nexus }
        ensures same { self.new ≡ self.old }
    {
        self.state.has_room(nexus)
    }

    /// Whether a nexus has a slot.
    pub(crate) fn has_slot(&self, nexus: Nexus) -> bool
        ensures { result ≡ has_slot self.now.state.slots nexus }
    {
        self.state.has_slot(nexus)
    }

    /// Whether somebody prevents the removal of media. Each nexus that does has a slot, and is among them once.
    pub(crate) fn is_prevented(&self) -> bool
        ensures prevented { result ≡ is_prevented self.now.state }
        ensures slots { HaveSlots self.now.state.slots self.now.state.preventers }
    {
        self.state.is_prevented()
    }

    /// The records, a legal trail.
    pub(crate) fn records(&self) -> &[Record]
        ensures records { result.now ≡ self.now.records }
        ensures trail { IsTrail self.now.base self.now.records self.now.state }
    {
        self.trail.records()
    }

    /// A line for each record, with the reservation that stood before it.
    #[tactic(auto, using(crate::proofs::Replay::trails_replay))]
    pub(crate) fn audit(&self, alloc: Global) -> Result<Vec<String>, AllocError>
        ensures { IfOk result (λ lines. map string_bytes lines.items ≡ span_lines self.now.base.state.reservations self.now.records) }
    {
        let entries = self.records();
        span_lines(alloc, self.base.reservations(), entries)
    }

    /// Makes room for one record more, where there is a number for it. Nothing else changes.
    pub(crate) fn reserve(&mut self) -> bool
        ensures rest { self.new ≡ record self.old { room = self.new.room } }
        ensures room { IsTrue result → 0 < self.new.room }
        ensures kept { self.old.room ≤ self.new.room }
        ensures number { IsTrue result → last_in self.new + 1 < 2 ^ 64 }
        ensures lacks { result ≡ false → (self.old.room ≡ 0) ⊎ (last_in self.old + 1 ≡ 2 ^ 64) }
    {
        if self.trail.last().checked_add(1).is_none() {
            return false;
        }
        self.trail.reserve_one().is_ok()
    }

    /// The same for so many records.
    pub(crate) fn reserve_for(&mut self, count: u8) -> bool
        ensures rest { self.new ≡ record self.old { room = self.new.room } }
        ensures room { IsTrue result → count ≤ self.new.room }
        ensures number { IsTrue result → last_in self.new + count < 2 ^ 64 }
        ensures lacks { result ≡ false → (self.old.room < count) ⊎ (2 ^ 64 ≤ last_in self.old + count) }
    {
        if self.trail.last().checked_add(u64::from(count)).is_none() {
            return false;
        }
        self.trail.reserve(usize::from(count)).is_ok()
    }
}

impl RecordedUnit {
    ghost use Rattle.std.specs.Prelude.{◌≡◌, ◌<◌, ◌+◌, ◌^◌, ℕ, true, false, [], ◌∷◌, ◌++◌, Some, None, IfOk, OnErr, length, vec_capacity};
    ghost use Rattle.device_server.specs.View.{DeviceView, kind_of, profile_of, commands_of};
    ghost use Rattle.judgement.specs.Commands.{act_of_decoded};
    ghost use Rattle.judgement.specs.Received.{IsFor, command_in};
    ghost use Rattle.logical_unit.specs.ActKinds.{act_kind_of};
    ghost use Rattle.judgement.specs.Judge.{takes_memory};
    ghost use Rattle.unit_attention.specs.Queues.{has_slot};
    ghost use Rattle.audit_log.specs.declared.act.Act.TheVariants.{Loss, Reset, MediumIn, MediumOut};
    ghost use Rattle.logical_unit.specs.UnitView.{Base, RecordedUnitView, unit_of, last_in};
    ghost use Rattle.judgement.specs.UnitState.{has_room, is_prevented, with_medium};
    ghost use Rattle.logical_unit.specs.Step.{answered, contacted_present, event_of};
    ghost use Rattle.judgement.specs.UnitState.{kept_after_loss, kept_after_reset};
    ghost use Rattle.logical_unit.specs.Legal.{IsTrail};
    ghost use Rattle.scsi_cdb.specs.declared.kind.Kind.TheVariants.{Changer};
    ghost use Rattle.device_server.specs.View.{commands_of, drives_of};
    ghost use Rattle.judgement.specs.Replies.{IsWhole, numbered};
    ghost use Rattle.logical_unit.specs.MoveJudgement.{DecodesTo, Begins, StaysIf, IsLeftOpen, AwaitsEnd};
    ghost use Rattle.logical_unit.specs.Step.{record_of};

    /// One command, with its record, and the kind of the act that it says was asked. Want of memory changes nothing.
    pub(crate) fn answer<D: DeviceServer>(
        &mut self,
        alloc: Global,
        device: &mut Box<D>,
        received: &ReceivedCommand<'_>,
    ) -> Result<(Reply, ActKind), AllocError>
        requires kind { IsFor (D.shown device.old.value) received.now }
        requires profile { self.old.state.profile ≡ profile_of (D.shown device.old.value) }
        requires slot { has_room self.old.state received.now.nexus ≡ true }
        requires room { 0 < self.old.room }
        requires number { last_in self.old + 1 < 2 ^ 64 }
        ensures ok { IfOk result (λ it. answered (unit_of (D.shown device.old.value) self.old) received.now.nexus received.now.cdb received.now.bytes ≡ (unit_of (D.shown device.new.value) self.new, it.0)) }
        ensures act { IfOk result (λ it. it.1 ≡ act_kind_of (act_of_decoded (command_in received.now))) }
        ensures err { OnErr result ((D.shown device.new.value ≡ D.shown device.old.value) × (self.new ≡ self.old)) }
        ensures want { OnErr result (takes_memory (contacted_present (unit_of (D.shown device.old.value) self.old) received.now.nexus) received.now.nexus (command_in received.now) ≡ true) }
    {
        let nexus = received.nexus();
        let decoded = Command::of(alloc, received)?;
        let (decision, reply) = judge(
            alloc,
            device,
            &mut self.state,
            nexus,
            &decoded,
            received.bytes(),
        )?;
        let act = act_of(decoded);
        let kind = act_kind_of(&act);
        let trail = &mut self.trail;
        let number = note(trail, Some(nexus), act, decision, reply.status, reply.sense);
        Ok((reply.numbered(number), kind))
    }

    /// Begins a MOVE MEDIUM or an EXCHANGE MEDIUM at a changer: judged, it is answered with its record, or left to the drives with
    /// nothing changed and without the device being asked. Want of memory changes nothing.
    pub(crate) fn begin<D: DeviceServer>(
        &mut self,
        alloc: Global,
        device: &mut Box<D>,
        received: &ReceivedCommand<'_>,
        errand: Errand,
    ) -> Result<MoveJudgement, AllocError>
        requires changer { kind_of (D.shown device.old.value) ≡ Changer }
        requires kind { IsFor (D.shown device.old.value) received.now }
        requires profile { self.old.state.profile ≡ profile_of (D.shown device.old.value) }
        requires errand { DecodesTo (commands_of (D.shown device.old.value)) (drives_of (D.shown device.old.value)) received.now.cdb errand }
        requires slot { has_room self.old.state received.now.nexus ≡ true }
        requires room { 0 < self.old.room }
        requires number { last_in self.old + 1 < 2 ^ 64 }
        ensures begins { IfOk result (Begins (unit_of (D.shown device.old.value) self.old) (unit_of (D.shown device.new.value) self.new) received.now.nexus received.now.cdb received.now.bytes errand) }
        ensures stays { IfOk result (StaysIf self.old self.new) }
        ensures device { IfOk result (λ begun. IsLeftOpen begun → D.shown device.new.value ≡ D.shown device.old.value) }
        ensures err { OnErr result ((D.shown device.new.value ≡ D.shown device.old.value) × (self.new ≡ self.old)) }
        ensures want { OnErr result (takes_memory (contacted_present (unit_of (D.shown device.old.value) self.old) received.now.nexus) received.now.nexus (command_in received.now) ≡ true) }
    {
        let nexus = received.nexus();
        let decoded = Command::of(alloc, received)?;
        let found = judge_move(
            alloc,
            device,
            &mut self.state,
            nexus,
            &decoded,
            received.bytes(),
        )?;
        let act = act_of(decoded);
        let (decision, reply) = match found {
            MoveFinding::Left(decision) => return Ok(MoveJudgement::Left(act, decision)),
            MoveFinding::Ended(decision, reply) => (decision, reply),
        };
        let trail = &mut self.trail;
        let number = note(trail, Some(nexus), act, decision, reply.status, reply.sense);
        Ok(MoveJudgement::Answered(reply.numbered(number)))
    }

    /// Ends a command that judgement left open by an answer, with its record.
    pub(crate) fn end(&mut self, nexus: Nexus, act: Act, decision: Decision, reply: Reply) -> Reply
        requires awaits { AwaitsEnd self.old.state nexus act decision }
        requires whole { IsWhole reply.status reply.sense }
        requires room { 0 < self.old.room }
        requires number { last_in self.old + 1 < 2 ^ 64 }
        ensures state { self.new.state ≡ self.old.state }
        ensures base { self.new.base ≡ self.old.base }
        ensures records { self.new.records ≡ self.old.records ++ record_of (last_in self.old + 1) (Some nexus) act decision reply.status reply.sense ∷ [] }
        ensures reply { result ≡ numbered reply (last_in self.old + 1) }
    {
        let trail = &mut self.trail;
        let number = note(trail, Some(nexus), act, decision, reply.status, reply.sense);
        reply.numbered(number)
    }

    /// The loss of a nexus that has a slot, with its record, whose number is answered.
    pub(crate) fn lose(&mut self, nexus: Nexus) -> u64
        requires slot { has_slot self.old.state.slots nexus ≡ true }
        requires room { 0 < self.old.room }
        requires number { last_in self.old + 1 < 2 ^ 64 }
        ensures state { self.new.state ≡ kept_after_loss self.old.state nexus }
        ensures base { self.new.base ≡ self.old.base }
        ensures records { self.new.records ≡ self.old.records ++ event_of (last_in self.old + 1) (Some nexus) Loss ∷ [] }
        ensures number { result ≡ last_in self.old + 1 }
    {
        self.state.lose(nexus);
        note_event(&mut self.trail, Some(nexus), Act::Loss)
    }

    /// A reset of the unit, with its record, whose number is answered.
    pub(crate) fn reset(&mut self) -> u64
        requires room { 0 < self.old.room }
        requires number { last_in self.old + 1 < 2 ^ 64 }
        ensures state { self.new.state ≡ kept_after_reset self.old.state }
        ensures base { self.new.base ≡ self.old.base }
        ensures records { self.new.records ≡ self.old.records ++ event_of (last_in self.old + 1) None Reset ∷ [] }
        ensures number { result ≡ last_in self.old + 1 }
    {
        self.state.reset();
        note_event(&mut self.trail, None, Act::Reset)
    }

    /// A volume came in, with its record, whose number is answered.
    pub(crate) fn take_in_medium(&mut self) -> u64
        requires room { 0 < self.old.room }
        requires number { last_in self.old + 1 < 2 ^ 64 }
        ensures state { self.new.state ≡ with_medium self.old.state }
        ensures base { self.new.base ≡ self.old.base }
        ensures records { self.new.records ≡ self.old.records ++ event_of (last_in self.old + 1) None MediumIn ∷ [] }
        ensures room { self.new.room + 1 ≡ self.old.room }
        ensures number { result ≡ last_in self.old + 1 }
    {
        self.state.take_in_medium();
        note_event(&mut self.trail, None, Act::MediumIn)
    }

    /// A volume was taken out, with its record, whose number is answered.
    pub(crate) fn give_out_medium(&mut self) -> u64
        requires room { 0 < self.old.room }
        requires number { last_in self.old + 1 < 2 ^ 64 }
        requires allowed { is_prevented self.old.state ≡ false }
        ensures state { self.new.state ≡ self.old.state }
        ensures base { self.new.base ≡ self.old.base }
        ensures records { self.new.records ≡ self.old.records ++ event_of (last_in self.old + 1) None MediumOut ∷ [] }
        ensures room { self.new.room + 1 ≡ self.old.room }
        ensures number { result ≡ last_in self.old + 1 }
    {
        note_event(&mut self.trail, None, Act::MediumOut)
    }

    /// Hands out the records, a legal trail, into a vector without records, and keeps none: what is kept
    /// now is the new base, and the vector's room that of the trail. Takes no memory.
    pub(crate) fn drain_into(&mut self, records: &mut Vec<Record>)
        requires { records.old.items ≡ [] }
        ensures records { records.new.items ≡ self.old.records }
        ensures capacity { vec_capacity records.new ≡ length self.old.records + self.old.room }
        ensures trail { IsTrail self.old.base self.old.records self.old.state }
        ensures rest { self.new ≡ record { state = self.old.state; base = record { state = self.old.state; last = last_in self.old }; records = []; room = vec_capacity records.old } }
    {
        self.base = self.state.copy();
        self.trail.drain_into(records);
    }
}

ghost use Rattle.std.specs.Prelude.{◌≡◌, ◌<◌, ◌+◌, ◌^◌, [], ◌∷◌, ◌++◌};
ghost use Rattle.audit_log.specs.TrailView.{last_of};
ghost use Rattle.logical_unit.specs.Step.{record_of, event_of};

/// Adds the record of an event, in room that was made before, and answers its number.
fn note(
    trail: &mut Trail,
    nexus: Option<Nexus>,
    act: Act,
    decision: Decision,
    status: Status,
    sense: Option<Sense>,
) -> u64
    requires room { 0 < trail.old.room }
    requires number { last_of trail.old + 1 < 2 ^ 64 }
    ensures base { trail.new.base ≡ trail.old.base }
    ensures records { trail.new.records ≡ trail.old.records ++ record_of (last_of trail.old + 1) nexus act decision status sense ∷ [] }
    ensures room { trail.new.room + 1 ≡ trail.old.room }
    ensures number { result ≡ last_of trail.old + 1 }
{
    let number = trail.last() + 1;
    trail.push(Record {
        number,
        nexus,
        act,
        stage: decision.stage,
        cell: decision.cell,
        rule: decision.rule,
        status,
        sense,
        told: decision.told,
    });
    number
}

/// The same for an event that isn't a command.
fn note_event(trail: &mut Trail, nexus: Option<Nexus>, act: Act) -> u64
    requires room { 0 < trail.old.room }
    requires number { last_of trail.old + 1 < 2 ^ 64 }
    ensures base { trail.new.base ≡ trail.old.base }
    ensures records { trail.new.records ≡ trail.old.records ++ event_of (last_of trail.old + 1) nexus act ∷ [] }
    ensures room { trail.new.room + 1 ≡ trail.old.room }
    ensures number { result ≡ last_of trail.old + 1 }
{
    let decision = Decision::at_stage(Stage::Device);
    note(trail, nexus, act, decision, Status::Good, None)
}
