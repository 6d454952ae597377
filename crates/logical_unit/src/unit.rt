use crate::act_kind::ActKind;
use crate::medium_fault::MediumFault;
use crate::move_judgement::MoveJudgement;
use crate::route::Errand;
use crate::state::RecordedUnit;
use audit_log::{Act, Record};
use device_server::{Attendant, DeviceServer, Payload};
use judgement::{Decision, ReceivedCommand, Reply, UnitState};
use scsi_cdb::{CommandSet, Kind};
use scsi_nexus::Nexus;
use scsi_sense::Condition;
use std::alloc::{AllocError, Global};
use std::marker::Model;
use tape_medium::{Volume, VolumeTag};
use thiserror::Error;

/// There is no room for a record of the event, or no number, and nothing has changed.
#[derive(Clone, Copy, Debug, Error)]
#[error("busy")]
pub struct Busy;

/// A logical unit: the device handed in, the registrations, the reservation and the pending unit
/// attentions, and a record of each event. The records are a legal trail: each is what judgement
/// gives after those before it, and together they give the registrations, the reservation and the
/// attentions that stand now. What is kept is of the profile of the device.
#[derive(Drop)]
pub struct LogicalUnit<D: DeviceServer> {
    device: Box<D>,
    // the tables are some 25 KB: behind a pointer, a unit is small to move
    state: Box<RecordedUnit>,
}

impl<D: DeviceServer> Model for LogicalUnit<D> {
    ghost use Rattle.std.specs.Prelude.{◌≡◌};
    ghost use Rattle.device_server.specs.View.{profile_of};
    ghost use Rattle.logical_unit.specs.UnitView.{UnitWithRoom, unit_with_room};

    ghost Value = { UnitWithRoom };

    ghost view = { λ u. unit_with_room (D.shown u.device.value) u.state.value };

    ghost invariant = { λ u. u.state.value.state.profile ≡ profile_of (D.shown u.device.value) };
}

impl<D: DeviceServer> LogicalUnit<D> {
    ghost use Rattle.std.specs.Prelude.{◌≡◌, map, string_bytes, IfOk, IfErr};
    ghost use Rattle.logical_unit.specs.Audit.{audit_of};
    ghost use Rattle.device_server.specs.View.{kind_of, profile_of, commands_of, drives_of, held_in};
    ghost use Rattle.judgement.specs.UnitState.{is_prevented, has_room, HaveSlots};
    ghost use Rattle.logical_unit.specs.Step.{made};
    ghost use Rattle.logical_unit.specs.Legal.{IsTrail};
    ghost use Rattle.logical_unit.specs.UnitView.{last_number};

    /// A unit at power on, with its logical unit number and the count of the target's units. Where
    /// memory is refused, the device is handed back.
    pub fn new(
        alloc: Global,
        lun: u8,
        units: u8,
        device: Box<D>,
    ) -> Result<LogicalUnit<D>, (AllocError, Box<D>)>
        ensures ok { IfOk result (λ unit. unit ≡ record { unit = made (D.shown device.value) lun units 0; room = 0 }) }
        ensures err { IfErr result (λ back. back.1.value ≡ device.value) }
    {
        LogicalUnit::new_after(alloc, lun, units, device, 0)
    }

    /// The same, with its first record numbered after `last`.
    pub fn new_after(
        alloc: Global,
        lun: u8,
        units: u8,
        device: Box<D>,
        last: u64,
    ) -> Result<LogicalUnit<D>, (AllocError, Box<D>)>
        ensures ok { IfOk result (λ unit. unit ≡ record { unit = made (D.shown device.value) lun units last; room = 0 }) }
        ensures err { IfErr result (λ back. back.1.value ≡ device.value) }
    {
        let profile = device.profile();
        match Box::new(alloc, RecordedUnit::new(alloc, profile, lun, units, last)) {
            Ok(state) => Ok(LogicalUnit { device, state }),
            Err(refused) => Err((refused.into(), device)),
        }
    }

    pub fn kind(&self) -> Kind
        ensures { result ≡ kind_of self.now.unit.device }
    {
        self.device.kind()
    }

    /// The commands that it has, by the profile and the kind of its device.
    pub fn commands(&self) -> CommandSet
        ensures { result ≡ commands_of self.now.unit.device }
    {
        CommandSet {
            profile: self.device.profile(),
            kind: self.device.kind(),
        }
    }

    /// How many data transfer elements a changer has; 0 for a drive.
    pub fn drives(&self) -> u16
        ensures { result ≡ drives_of self.now.unit.device }
    {
        self.device.drives()
    }

    /// The tag of the volume at a place of the device: 0 is a drive's bay, a changer's are its elements
    /// by address.
    pub fn held(&self, place: u16) -> Option<VolumeTag>
        ensures { result ≡ held_in self.now.unit.device place }
    {
        self.device.held(place)
    }

    /// The logical unit number.
    pub fn lun(&self) -> u8
        ensures { result ≡ self.now.unit.state.lun }
    {
        self.state.lun()
    }

    /// How many units the target has.
    pub fn units(&self) -> u8
        ensures { result ≡ self.now.unit.state.units }
    {
        self.state.units()
    }

    /// The last record number that was used, 0 if none was.
    pub fn last(&self) -> u64
        ensures { result ≡ last_number self.now.unit }
    {
        self.state.last()
    }

    /// Whether a nexus prevents the removal of media (SPC-4, "PREVENT ALLOW MEDIUM REMOVAL command").
    /// Each nexus that does has a slot, and is among them once.
    pub fn prevented(&self) -> bool
        ensures prevented { result ≡ is_prevented self.now.unit.state }
        ensures slots { HaveSlots self.now.unit.state.slots self.now.unit.state.preventers }
    {
        self.state.is_prevented()
    }

    /// Whether a nexus has a slot here, or finds one. One that doesn't is answered BUSY until the target ends, since slots
    /// are never given up.
    pub fn has_room(&mut self, nexus: Nexus) -> bool
        ensures room { result ≡ has_room self.old.unit.state nexus }
        ensures same { self.new ≡ self.old }
    {
        self.state.has_room(nexus)
    }

    /// The records since the base, oldest first: a legal trail, which gives what is kept now. What was kept before them,
    /// and what is kept now, is of the profile of the device.
    pub fn records(&self) -> &[Record]
        ensures records { result.now ≡ self.now.unit.records }
        ensures trail { IsTrail self.now.unit.base self.now.unit.records self.now.unit.state }
        ensures base { self.now.unit.base.state.profile ≡ profile_of self.now.unit.device }
        ensures profile { self.now.unit.state.profile ≡ profile_of self.now.unit.device }
    {
        self.state.records()
    }

    /// A line for each record, oldest first: its line, a space, and the reservation that stood before
    /// it, as `-`, `WE/500000000000000a.1` or, of an all registrants type, `WEAR/ALL` (profile). One walk
    /// over the records.
    pub fn audit(&self, alloc: Global) -> Result<Vec<String>, AllocError>
        ensures { IfOk result (λ lines. map string_bytes lines.items ≡ audit_of self.now.unit) }
    {
        self.state.audit(alloc)
    }
}

impl<D: DeviceServer> LogicalUnit<D> {
    ghost use Rattle.std.specs.Prelude.{◌≡◌};

    /// The device, to be read.
    pub fn device(&self) -> &D
        ensures { D.shown result.now ≡ self.now.unit.device }
    {
        &self.device
    }

    /// What it keeps beside its device and its records, to be read.
    pub fn state(&self) -> &UnitState
        ensures { result.now ≡ self.now.unit.state }
    {
        self.state.state()
    }
}

impl<D: DeviceServer> LogicalUnit<D> {
    ghost use Rattle.std.specs.Prelude.{◌≡◌, ◌≤◌, ◌+◌, [], true, length, vec_capacity, Ok, IfOk, IfErr, OnOk, OnErr};
    ghost use Rattle.unit_attention.specs.Queues.{has_slot};
    ghost use Rattle.device_server.specs.Settled.{SameButSettled};
    ghost use Rattle.logical_unit.specs.UnitView.{UnitView, UnitWithRoom, last_number, with_device};
    ghost use Rattle.logical_unit.specs.Step.{HasNumber, LacksRecord, IsBusyOnlyFor, IsBusyOnlyForRecord, Executes, Loses, Resets, IsLost, IsReset, drained};
    ghost use Rattle.logical_unit.specs.Medium.{taken_out, put_in, IsRefusal};
    ghost use Rattle.logical_unit.specs.Contents.{SameContents, MayNotChange};
    ghost use Rattle.logical_unit.specs.Legal.{IsTrail};
    ghost use Rattle.judgement.specs.Commands.{act_of_decoded};
    ghost use Rattle.judgement.specs.Received.{IsFor, command_in};
    ghost use Rattle.logical_unit.specs.ActKinds.{act_kind_of, act_kind_if};
    ghost use Rattle.logical_unit.specs.Answers.{own_number};

    /// One command, from its CDB and the data sent with it. BUSY leaves the unit as it was; any other
    /// answer leaves one record. A command to whose sender an attention is told, a conflict and bytes
    /// that decode to no command are BUSY only where there is no slot, no number or no room for the record;
    /// PERSISTENT RESERVE OUT, and a command that comes to its own rules and takes memory there, also for want
    /// of memory. A sender to whom the permission table closes the changing classes leaves what is in the unit.
    pub fn execute(&mut self, alloc: Global, received: &ReceivedCommand<'_>) -> Reply
        requires { IsFor self.old.unit.device received.now }
        ensures unit { Executes self.old.unit received.now.nexus received.now.cdb received.now.bytes (self.new.unit, result) }
        ensures busy { IsBusyOnlyFor self.old received.now.nexus received.now.cdb received.now.bytes result }
        ensures outsider { MayNotChange self.old.unit.state.reservations received.now.nexus → SameContents self.old.unit.device self.new.unit.device }
    {
        let (reply, _) = self.answer(alloc, received);
        reply
    }

    /// The same, with the kind of the act that its record says was asked; BUSY leaves none.
    pub(crate) fn answer(
        &mut self,
        alloc: Global,
        received: &ReceivedCommand<'_>,
    ) -> (Reply, Option<ActKind>)
        requires { IsFor self.old.unit.device received.now }
        ensures unit { Executes self.old.unit received.now.nexus received.now.cdb received.now.bytes (self.new.unit, result.0) }
        ensures busy { IsBusyOnlyFor self.old received.now.nexus received.now.cdb received.now.bytes result.0 }
        ensures act { result.1 ≡ act_kind_if (own_number self.old.unit.state.lun result.0.number) (act_kind_of (act_of_decoded (command_in received.now))) }
        ensures outsider { MayNotChange self.old.unit.state.reservations received.now.nexus → SameContents self.old.unit.device self.new.unit.device }
    {
        let device = &mut self.device;
        let state = &mut *self.state;
        if !state.has_room(received.nexus()) {
            return (Reply::busy(alloc), None);
        }
        if !state.reserve() {
            return (Reply::busy(alloc), None);
        }
        let Ok((reply, act)) = state.answer(alloc, device, received) else {
            return (Reply::busy(alloc), None);
        };
        (reply, Some(act))
    }

    /// An I_T nexus loss at this unit (SAM-5, "I_T nexus loss"). `None` where the nexus has no slot,
    /// and then nothing changes; else the number of its record. Registrations and reservation stay.
    pub fn lose(&mut self, nexus: Nexus) -> Result<Option<u64>, Busy>
        ensures unit { IfOk result (λ number. Loses self.old.unit nexus (self.new.unit, number)) }
        ensures busy { OnErr result (self.new.unit ≡ self.old.unit) }
        ensures known { OnErr result (has_slot self.old.unit.state.slots nexus ≡ true) }
        ensures lacks { OnErr result (LacksRecord self.old) }
    {
        if !self.state.has_slot(nexus) {
            return Ok(None);
        }
        if !self.state.reserve() {
            return Err(Busy);
        }
        Ok(Some(self.state.lose(nexus)))
    }

    /// A reset of this unit (SAM-5, "Logical unit reset"): the number of its record. Registrations and
    /// reservation stay.
    pub fn reset(&mut self) -> Result<u64, Busy>
        ensures unit { IfOk result (λ number. Resets self.old.unit (self.new.unit, number)) }
        ensures busy { OnErr result (self.new.unit ≡ self.old.unit) }
        ensures lacks { OnErr result (LacksRecord self.old) }
    {
        if !self.state.reserve() {
            return Err(Busy);
        }
        self.device.reset();
        Ok(self.state.reset())
    }

    /// An I_T nexus loss, and the reply to it: GOOD with the number of its record, 0 where it has none; or BUSY, only
    /// where there is no room or no number for the record.
    pub fn lose_reply(&mut self, alloc: Global, nexus: Nexus) -> Reply
        ensures unit { IsLost self.old.unit nexus (self.new.unit, result) }
        ensures busy { IsBusyOnlyForRecord self.old result }
    {
        match self.lose(nexus) {
            Ok(number) => event_reply(alloc, number.unwrap_or(0)),
            Err(Busy) => Reply::busy(alloc),
        }
    }

    /// A reset of this unit, and the reply to it: GOOD with the number of its record; or BUSY, only where there is no
    /// room or no number for the record.
    pub fn reset_reply(&mut self, alloc: Global) -> Reply
        ensures unit { IsReset self.old.unit (self.new.unit, result) }
        ensures busy { IsBusyOnlyForRecord self.old result }
    {
        match self.reset() {
            Ok(number) => event_reply(alloc, number),
            Err(Busy) => Reply::busy(alloc),
        }
    }

    /// Takes the volume out of a drive, with the number of its record. It is refused in the order of the
    /// faults; Busy is for want of room or of a number.
    pub fn medium_out(&mut self) -> Result<(Volume, u64), MediumFault>
        ensures ok { IfOk result (λ it. taken_out self.old.unit ≡ Ok (it.0, self.new.unit)) }
        ensures number { IfOk result (λ it. HasNumber self.old.unit × (it.1 ≡ last_number self.old.unit + 1)) }
        ensures err { IfErr result (IsRefusal (taken_out self.old.unit)) }
        ensures same { OnErr result (self.new.unit ≡ self.old.unit) }
        ensures lacks { IfErr result (λ fault. fault ≡ MediumFault.Busy → LacksRecord self.old) }
        ensures room { OnOk result (self.old.room ≤ self.new.room + 1) }
    {
        if self.device.kind() == Kind::Changer {
            return Err(MediumFault::NotADrive);
        }
        if self.state.is_prevented() {
            return Err(MediumFault::Prevented);
        }
        if !has_volume(&self.device) {
            return Err(MediumFault::Empty);
        }
        if !self.state.reserve() {
            return Err(MediumFault::Busy);
        }
        let volume = take_from_bay(&mut self.device);
        Ok((volume, self.state.give_out_medium()))
    }

    /// Puts a volume into a drive, and answers the number of its record. Every slot is told. It is
    /// refused in the order of the faults, and the volume handed back; Busy is for want of room or of a
    /// number. Who prevents removal doesn't prevent this.
    pub fn medium_in(&mut self, volume: Volume) -> Result<u64, (Volume, MediumFault)>
        ensures ok { OnOk result (put_in self.old.unit volume ≡ Ok self.new.unit) }
        ensures number { IfOk result (λ number. HasNumber self.old.unit × (number ≡ last_number self.old.unit + 1)) }
        ensures err { IfErr result (λ back. IsRefusal (put_in self.old.unit volume) back.1) }
        ensures back { IfErr result (λ back. back.0 ≡ volume) }
        ensures same { OnErr result (self.new.unit ≡ self.old.unit) }
        ensures lacks { IfErr result (λ back. back.1 ≡ MediumFault.Busy → LacksRecord self.old) }
    {
        if self.device.kind() == Kind::Changer {
            return Err((volume, MediumFault::NotADrive));
        }
        if has_volume(&self.device) {
            return Err((volume, MediumFault::Full));
        }
        if !self.state.reserve() {
            return Err((volume, MediumFault::Busy));
        }
        put_into_bay(&mut self.device, volume);
        Ok(self.state.take_in_medium())
    }

    /// Lets an attendant look after the volumes of the device: nothing changes but how many objects of a tape count as unchanged, and
    /// no record is left.
    pub fn attend<A: Attendant<D>>(&mut self, attendant: &mut A)
        ensures asked { A.looks_after attendant.old self.old.unit.state.lun self.old.unit.device self.new.unit.device attendant.new }
        ensures same { SameButSettled self.old.unit.device self.new.unit.device }
        ensures rest { self.new ≡ with_device self.old self.new.unit.device }
    {
        attendant.attend(self.state.lun(), &mut self.device);
    }

    /// Hands out the records, a legal trail that gives what is kept now, and keeps none: what is kept
    /// now is the base of the next. Takes no memory.
    pub fn drain(&mut self, alloc: Global) -> Vec<Record>
        ensures records { result.items ≡ self.old.unit.records }
        ensures trail { IsTrail self.old.unit.base self.old.unit.records self.old.unit.state }
        ensures unit { self.new.unit ≡ drained self.old.unit }
    {
        let mut records = Vec::new(alloc);
        self.drain_into(&mut records);
        records
    }

    /// The same into a vector without records, whose room the next records have from now on. The vector
    /// gets the room of those that are handed out. Takes no memory.
    pub fn drain_into(&mut self, records: &mut Vec<Record>)
        requires { records.old.items ≡ [] }
        ensures records { records.new.items ≡ self.old.unit.records }
        ensures capacity { vec_capacity records.new ≡ length self.old.unit.records + self.old.room }
        ensures trail { IsTrail self.old.unit.base self.old.unit.records self.old.unit.state }
        ensures rest { self.new ≡ record { unit = drained self.old.unit; room = vec_capacity records.old } }
    {
        self.state.drain_into(records);
    }
}

impl<D: DeviceServer> LogicalUnit<D> {
    ghost use Rattle.std.specs.Prelude.{◌≡◌, ◌<◌, ◌≤◌, ◌+◌, ◌⊎◌, false, Ok, IsOk, is_ok, IsTrue, OnOk, IfErr, Err};
    ghost use Rattle.scsi_cdb.specs.declared.kind.Kind.TheVariants.{Changer};
    ghost use Rattle.device_server.specs.View.{kind_of, commands_of, drives_of, taken, put};
    ghost use Rattle.judgement.specs.Replies.{IsWhole};
    ghost use Rattle.judgement.specs.JudgedUnit.{JudgedUnit};
    ghost use Rattle.logical_unit.specs.MoveJudgement.{DecodesTo, BeginsAt, AwaitsEnd};
    ghost use Rattle.judgement.specs.Received.{IsFor};
    ghost use Rattle.logical_unit.specs.Medium.{taken_out, put_in};
    ghost use Rattle.logical_unit.specs.Move.{given, noting, errand_noted};
    ghost use Rattle.logical_unit.specs.Step.{HasNumber, HasNumbers, LacksRecord, LacksRecords, recorded};
    ghost use Rattle.logical_unit.specs.UnitView.{UnitView, UnitWithRoom, with_device};

    /// Makes room for one record more, where there is a number for it.
    pub(crate) fn reserve(&mut self) -> bool
        ensures unit { self.new.unit ≡ self.old.unit }
        ensures room { IsTrue result → 0 < self.new.room }
        ensures number { IsTrue result → HasNumber self.old.unit }
        ensures lacks { result ≡ false → LacksRecord self.old }
    {
        self.state.reserve()
    }

    /// The same for so many records.
    pub(crate) fn reserve_for(&mut self, count: u8) -> bool
        ensures unit { self.new.unit ≡ self.old.unit }
        ensures room { IsTrue result → count ≤ self.new.room }
        ensures number { IsTrue result → HasNumbers self.old.unit count }
        ensures lacks { result ≡ false → LacksRecords self.old count }
    {
        self.state.reserve_for(count)
    }

    /// Begins a MOVE MEDIUM or an EXCHANGE MEDIUM at a changer: judged, it is answered with its record, or left to the
    /// drives with nothing changed. BUSY as for any command.
    pub(crate) fn begin(
        &mut self,
        alloc: Global,
        received: &ReceivedCommand<'_>,
        errand: Errand,
    ) -> MoveJudgement
        requires changer { kind_of self.old.unit.device ≡ Changer }
        requires kind { IsFor self.old.unit.device received.now }
        requires errand { DecodesTo (commands_of self.old.unit.device) (drives_of self.old.unit.device) received.now.cdb errand }
        ensures { BeginsAt self.old self.new received.now.nexus received.now.cdb received.now.bytes errand result }
    {
        if !self.state.has_room(received.nexus()) {
            return MoveJudgement::Answered(Reply::busy(alloc));
        }
        if !self.state.reserve() {
            return MoveJudgement::Answered(Reply::busy(alloc));
        }
        let device = &mut self.device;
        let Ok(begun) = self.state.begin(alloc, device, received, errand) else {
            return MoveJudgement::Answered(Reply::busy(alloc));
        };
        begun
    }

    /// Ends a command that judgement left open by an answer, with its record.
    pub(crate) fn end(&mut self, nexus: Nexus, act: Act, decision: Decision, reply: Reply) -> Reply
        requires awaits { AwaitsEnd self.old.unit.state nexus act decision }
        requires whole { IsWhole reply.status reply.sense }
        requires room { 0 < self.old.room }
        requires number { HasNumber self.old.unit }
        ensures { (self.new.unit, result) ≡ recorded self.old.unit nexus act (record { device = self.old.unit.device; state = self.old.unit.state }, decision, reply) }
    {
        self.state.end(nexus, act, decision, reply)
    }

    /// Takes a volume out of an element of a changer.
    pub(crate) fn take_at(&mut self, place: u16) -> Volume
        requires { IsOk (taken self.old.unit.device place) }
        ensures taken { taken self.old.unit.device place ≡ Ok (result, self.new.unit.device) }
        ensures rest { self.new ≡ with_device self.old self.new.unit.device }
    {
        match self.device.take_volume(place) {
            Ok(volume) => volume,
            Err(_) => unreachable!(),
        }
    }

    /// Puts a volume into an element of a changer.
    pub(crate) fn put_at(&mut self, place: u16, volume: Volume)
        requires { IsOk (put self.old.unit.device place volume) }
        ensures put { put self.old.unit.device place volume ≡ Ok self.new.unit.device }
        ensures rest { self.new ≡ with_device self.old self.new.unit.device }
    {
        match self.device.put_volume(place, volume) {
            Ok(()) => {}
            Err(_) => unreachable!(),
        }
    }

    /// Notes a tag at a drive's element of a changer.
    pub(crate) fn note_at(&mut self, place: u16, tag: Option<VolumeTag>)
        ensures { self.new ≡ with_device self.old (noting self.old.unit.device place tag) }
    {
        let _ = self.device.mark(place, tag);
    }

    /// Notes at a changer what was carried.
    pub(crate) fn note_errand(&mut self, errand: Errand)
        ensures { self.new ≡ with_device self.old (errand_noted errand self.old.unit.device) }
    {
        match errand {
            Errand::Move(route) => self.device.note_journey(route.source, route.destination),
            Errand::Exchange(route) => {
                self.device
                    .note_exchange(route.source, route.first, route.second);
            }
        }
    }

    /// Whether the drive gives the volume that the mark at its element names; else what the changer reports.
    pub(crate) fn gives(&self, mark: Option<VolumeTag>) -> Result<(), Condition>
        ensures ok { OnOk result (IsOk (given mark self.now.unit)) }
        ensures err { IfErr result (λ condition. given mark self.now.unit ≡ Err condition) }
    {
        if self.device.kind() == Kind::Changer {
            return Err(Condition::InternalTargetFailure);
        }
        if self.prevented() {
            return Err(Condition::MediumRemovalPrevented);
        }
        if !is_named(mark, self.device.held(0)) {
            return Err(Condition::InternalTargetFailure);
        }
        Ok(())
    }

    /// Whether the drive takes a volume in: its bay is empty.
    pub(crate) fn takes(&self) -> bool
        ensures { (volume : Volume) → result ≡ is_ok (put_in self.now.unit volume) }
    {
        if self.device.kind() == Kind::Changer {
            return false;
        }
        !has_volume(&self.device)
    }
}

ghost use Rattle.std.specs.Prelude.{◌≡◌, ℕ, Ok, IsOk, is_ok, is_err};
ghost use Rattle.scsi_cdb.specs.declared.kind.Kind.TheVariants.{Drive};
ghost use Rattle.device_server.specs.View.{kind_of, commands_of, taken, put};
ghost use Rattle.logical_unit.specs.Move.{same_tag, names_held};
ghost use Rattle.logical_unit.specs.Step.{event_reply};

/// GOOD for an event that isn't a command, with the number of its record, 0 where it has none.
fn event_reply(alloc: Global, number: u64) -> Reply
    ensures { result ≡ event_reply number }
{
    Reply::good(Payload::none(alloc)).numbered(number)
}

fn is_same_tag(tag: VolumeTag, other: VolumeTag) -> bool
    ensures { result ≡ same_tag tag other }
{
    tag.0 == other.0
}

/// Whether a mark names the volume that is held.
fn is_named(mark: Option<VolumeTag>, held: Option<VolumeTag>) -> bool
    ensures { result ≡ names_held mark held }
{
    match (mark, held) {
        (Some(mark), Some(held)) => is_same_tag(mark, held),
        (None, _) | (_, None) => false,
    }
}

/// Whether there is a volume in a drive's bay.
fn has_volume<D: DeviceServer>(device: &Box<D>) -> bool
    requires { kind_of (D.shown device.now.value) ≡ Drive }
    ensures taken { result ≡ is_ok (taken (D.shown device.now.value) 0) }
    ensures put { (volume : Volume) → result ≡ is_err (put (D.shown device.now.value) 0 volume) }
{
    device.held(0).is_some()
}

/// Takes the volume out of a drive's bay.
fn take_from_bay<D: DeviceServer>(device: &mut Box<D>) -> Volume
    requires { IsOk (taken (D.shown device.old.value) 0) }
    ensures { taken (D.shown device.old.value) 0 ≡ Ok (result, D.shown device.new.value) }
{
    match device.take_volume(0) {
        Ok(volume) => volume,
        Err(_) => unreachable!(),
    }
}

/// Puts a volume into a drive's bay.
fn put_into_bay<D: DeviceServer>(device: &mut Box<D>, volume: Volume)
    requires { IsOk (put (D.shown device.old.value) 0 volume) }
    ensures { put (D.shown device.old.value) 0 volume ≡ Ok (D.shown device.new.value) }
{
    match device.put_volume(0, volume) {
        Ok(()) => {}
        Err(_) => unreachable!(),
    }
}
