use crate::command::Command;
use crate::conditions::condition_of_attention;
use crate::preventers::Preventers;
use crate::reply::Reply;
use device_server::Payload;
use permit_tables::{Cell, OutParams, PrFault, allowed as is_allowed};
use pr_core::{PrState, Verdict};
use pr_params::{write_capabilities, write_full_status, write_keys, write_reservation};
use scsi_cdb::{InServiceAction, OutServiceAction, Profile};
use scsi_nexus::Nexus;
use std::alloc::{AllocError, Global};
use std::marker::Model;
use unit_attention::{Kind, Queues};

/// What a unit keeps beside its device and its records.
#[derive(Drop)]
pub struct UnitState {
    lun: u8,
    units: u8,
    profile: Profile,
    reservations: PrState,
    queues: Queues,
    preventers: Preventers,
}

impl Model for UnitState {
    ghost use Rattle.judgement.specs.UnitStateView.{UnitStateView};

    ghost Value = { UnitStateView };

    ghost use Rattle.judgement.specs.UnitState.{HaveSlots};

    ghost view = { λ s. record { lun = s.lun; units = s.units; profile = s.profile; reservations = s.reservations; slots = s.queues; preventers = s.preventers } };

    ghost invariant = { λ s. HaveSlots s.queues s.preventers };
}

impl UnitState {
    ghost use Rattle.std.specs.Prelude.{◌≡◌, true};
    ghost use Rattle.unit_attention.specs.Queues.{first_reset_of, first_other_of, has_slot};
    ghost use Rattle.judgement.specs.UnitState.{HaveSlots, at_power_on, has_room, after_contact, reported, is_prevented, prevented, allowed, after_telling, with_medium};
    ghost use Rattle.judgement.specs.UnitState.{kept_after_loss, kept_after_reset};
    ghost use Rattle.judgement.specs.Readings.{pending_of};
    ghost use Rattle.judgement.specs.Replies.{check};
    ghost use Rattle.judgement.specs.Conditions.{condition_of_attention};

    /// At power on, for a unit of this number among so many, all of one profile.
    pub fn new(profile: Profile, lun: u8, units: u8) -> UnitState
        ensures { result ≡ at_power_on profile lun units }
    {
        UnitState {
            lun,
            units,
            profile,
            reservations: PrState::new(),
            queues: Queues::new(),
            preventers: Preventers::new(),
        }
    }

    pub fn lun(&self) -> u8
        ensures { result ≡ self.now.lun }
    {
        self.lun
    }

    pub fn units(&self) -> u8
        ensures { result ≡ self.now.units }
    {
        self.units
    }

    /// The registrations, the reservation and the generation.
    pub fn reservations(&self) -> &PrState
        ensures { result.now ≡ self.now.reservations }
    {
        &self.reservations
    }

    /// Whether a sender has a slot, or one is left for it. What is asked of the same sender next finds its slot at once.
    pub fn has_room(&mut self, nexus: Nexus) -> bool
        ensures room { result ≡ has_room self.old nexus }
        ensures same { self.new ≡ self.old }
    {
        self.queues.find(nexus) || !self.queues.is_full()
    }

    /// The contact that each command is: a nexus without a slot gets one.
    pub fn make_contact(&mut self, nexus: Nexus)
        requires { has_room self.old nexus ≡ true }
        ensures { self.new ≡ after_contact self.old nexus }
    {
        let contacted = self.queues.contact(nexus);
        // For the prover alone: the caller knows that there is a slot.
        prove!(contacted.is_ok());
    }

    /// The oldest attention of ASC 29h that waits once the sender made contact.
    pub fn first_reset(&self, nexus: Nexus) -> Option<Kind>
        ensures { result ≡ first_reset_of (after_contact self.now nexus).slots nexus }
    {
        self.queues.first_reset_on_contact(nexus)
    }

    /// The oldest other attention that waits once the sender made contact.
    #[tactic(auto, using(unit_attention::proofs::Contact::first_other_contact))]
    pub fn first_other(&self, nexus: Nexus) -> Option<Kind>
        ensures { result ≡ first_other_of (after_contact self.now nexus).slots nexus }
    {
        self.queues.first_other(nexus)
    }

    /// The attention that would be reported once the sender made contact.
    pub fn pending(&self, nexus: Nexus) -> Option<Kind>
        ensures { result ≡ pending_of (after_contact self.now nexus).slots nexus }
    {
        match self.first_reset(nexus) {
            Some(kind) => Some(kind),
            None => self.first_other(nexus),
        }
    }

    /// Whether a nexus has a slot.
    pub fn has_slot(&self, nexus: Nexus) -> bool
        ensures { result ≡ has_slot self.now.slots nexus }
    {
        self.queues.has(nexus)
    }

    /// Whether somebody prevents the removal of media. Each nexus that does has a slot, and stands once.
    pub fn is_prevented(&self) -> bool
        ensures prevented { result ≡ is_prevented self.now }
        ensures slots { HaveSlots self.now.slots self.now.preventers }
    {
        !self.preventers.is_empty()
    }

    /// Contact, and removal is prevented.
    pub fn prevent(&mut self, nexus: Nexus)
        requires { has_room self.old nexus ≡ true }
        ensures { self.new ≡ prevented (after_contact self.old nexus) nexus }
    {
        self.make_contact(nexus);
        // For the prover alone: no more nexuses prevent removal than have slots, so there is room.
        let _used = self.queues.used();
        self.preventers.add(nexus);
    }

    /// Contact, and removal is no longer prevented by the nexus.
    pub fn allow(&mut self, nexus: Nexus)
        requires { has_room self.old nexus ≡ true }
        ensures { self.new ≡ allowed (after_contact self.old nexus) nexus }
    {
        self.make_contact(nexus);
        self.preventers.remove(nexus);
    }

    /// An I_T nexus loss.
    pub fn lose(&mut self, nexus: Nexus)
        ensures { self.new ≡ kept_after_loss self.old nexus }
    {
        self.queues.lose(nexus);
        self.preventers.remove(nexus);
    }

    /// A reset of the unit.
    pub fn reset(&mut self)
        ensures { self.new ≡ kept_after_reset self.old }
    {
        self.queues.reset();
        let none = Preventers::new();
        self.preventers = none;
    }

    /// What a command of a nexus tells is raised for every slot but its own.
    pub fn tell_others(&mut self, nexus: Nexus, told: Option<Kind>)
        ensures { self.new ≡ after_telling self.old nexus told }
    {
        if let Some(kind) = told {
            raise_for_others(&mut self.queues, nexus, kind);
        }
    }

    /// A volume came in.
    pub fn take_in_medium(&mut self)
        ensures { self.new ≡ with_medium self.old }
    {
        raise_for_all(&mut self.queues, Kind::MediumChanged);
    }

    /// The same, for a base that later records stand on.
    pub fn copy(&self) -> UnitState
        ensures { result ≡ self.now }
    {
        UnitState {
            lun: self.lun,
            units: self.units,
            profile: self.profile,
            reservations: self.reservations.copy(),
            queues: self.queues.copy(),
            preventers: self.preventers.copy(),
        }
    }

    /// Contact, and the report of an attention, which waits no more.
    pub fn report_attention(&mut self, alloc: Global, nexus: Nexus, kind: Kind) -> Reply
        requires { has_room self.old nexus ≡ true }
        ensures state { self.new ≡ reported (after_contact self.old nexus) nexus kind }
        ensures reply { result ≡ check (condition_of_attention kind) }
    {
        self.make_contact(nexus);
        self.queues.clear(nexus, kind);
        Reply::check(alloc, condition_of_attention(kind))
    }
}

impl UnitState {
    ghost use Rattle.std.specs.Prelude.{◌≡◌, ◌≤◌, length};
    ghost use Rattle.unit_attention.specs.Queues.{slot_limit};

    /// How many nexuses have a slot.
    pub fn slots_used(&self) -> usize
        ensures used { result ≡ length self.now.slots }
        ensures bound { result ≤ slot_limit }
    {
        self.queues.used()
    }
}

impl UnitState {
    ghost use Rattle.std.specs.Prelude.{◌≡◌, true, None, Some, OnOk, IfOk, IfErr, take};
    ghost use Rattle.pr_core.specs.State.{cell};
    ghost use Rattle.pr_core.specs.Judge.{verdict};
    ghost use Rattle.pr_core.specs.Outcome.{refusal};
    ghost use Rattle.pr_core.specs.declared.verdict.Verdict.TheVariants.{Allowed};
    ghost use Rattle.scsi_cdb.specs.declared.service_action.OutServiceAction.TheVariants.{PreemptAndAbort};
    ghost use Rattle.judgement.specs.Commands.{class_of_command};
    ghost use Rattle.judgement.specs.UnitState.{has_room, after_contact, accepted};
    ghost use Rattle.judgement.specs.Readings.{verdict_of, status_data};

    /// The cell of the permission table that a command of a nexus stands in.
    pub fn cell(&self, nexus: Nexus, command: &Command) -> Cell
        ensures { result ≡ cell self.now.reservations nexus (class_of_command command.now) }
    {
        self.reservations.cell(nexus, command.class())
    }

    /// What the reservation check says of a command, whose cell was found before.
    pub fn verdict(&self, nexus: Nexus, command: &Command, in_cell: Cell) -> Verdict
        requires { in_cell ≡ cell self.now.reservations nexus (class_of_command command.now) }
        ensures { result ≡ verdict_of self.now.reservations nexus command.now }
    {
        match command {
            Command::ReserveOut(list) => self.reservations.judge(nexus, list.params()),
            Command::ReserveIn { .. }
            | Command::Inquiry { .. }
            | Command::ReportLuns { .. }
            | Command::RequestSense { .. }
            | Command::Prevent { .. }
            | Command::Device(_) => {
                if is_allowed(in_cell) {
                    Verdict::Allowed
                } else {
                    Verdict::Denied(in_cell)
                }
            }
        }
    }

    /// The data of PERSISTENT RESERVE IN, right as far as the allocation length reaches.
    fn status_data(
        &self,
        alloc: Global,
        service_action: InServiceAction,
        allocation_length: u16,
    ) -> Result<Vec<u8>, AllocError>
        ensures { IfOk result (λ bytes. take allocation_length bytes.items ≡ take allocation_length (status_data self.now.reservations service_action)) }
    {
        let generation = self.reservations.generation();
        let pairs = self.reservations.registrations();
        let reservation = self.reservations.reservation();
        match service_action {
            InServiceAction::ReadKeys => write_keys(alloc, generation, pairs, allocation_length),
            InServiceAction::ReadReservation => {
                write_reservation(alloc, generation, pairs, reservation)
            }
            InServiceAction::ReportCapabilities => write_capabilities(alloc),
            InServiceAction::ReadFullStatus => {
                write_full_status(alloc, generation, pairs, reservation, allocation_length)
            }
        }
    }

    /// The data of PERSISTENT RESERVE IN, cut at the allocation length.
    pub fn read_status(
        &self,
        alloc: Global,
        service_action: InServiceAction,
        allocation_length: u16,
    ) -> Result<Payload, AllocError>
        ensures { IfOk result (λ payload. payload ≡ take allocation_length (status_data self.now.reservations service_action)) }
    {
        let mut data = self.status_data(alloc, service_action, allocation_length)?;
        data.truncate(usize::from(allocation_length));
        Ok(Payload::of(data))
    }

    /// Contact, and an allowed PERSISTENT RESERVE OUT command with the attentions that it raises.
    pub fn reserve(&mut self, nexus: Nexus, params: &OutParams) -> Result<(), PrFault>
        requires room { has_room self.old nexus ≡ true }
        requires allowed { verdict self.old.reservations nexus params.now ≡ Allowed }
        ensures ok { OnOk result ((refusal self.old.reservations nexus params.now ≡ None) × (self.new ≡ accepted (after_contact self.old nexus) nexus params.now)) }
        ensures err { IfErr result (λ fault. (refusal self.old.reservations nexus params.now ≡ Some fault) × (self.new ≡ after_contact self.old nexus)) }
    {
        self.make_contact(nexus);
        if params.act == OutServiceAction::PreemptAndAbort {
            self.preempt_and_abort(nexus, params)
        } else {
            self.reservations.apply(nexus, params, &mut self.queues)
        }
    }

    /// PREEMPT AND ABORT, which ends what the nexuses that it unregisters prevent. Their list is large,
    /// so it stands in a function of its own.
    fn preempt_and_abort(&mut self, nexus: Nexus, params: &OutParams) -> Result<(), PrFault>
        requires allowed { verdict self.old.reservations nexus params.now ≡ Allowed }
        requires aborts { params.now.act ≡ PreemptAndAbort }
        ensures ok { OnOk result ((refusal self.old.reservations nexus params.now ≡ None) × (self.new ≡ accepted self.old nexus params.now)) }
        ensures err { IfErr result (λ fault. (refusal self.old.reservations nexus params.now ≡ Some fault) × (self.new ≡ self.old)) }
    {
        let removed = self.reservations.removed(nexus, params);
        self.reservations.apply(nexus, params, &mut self.queues)?;
        self.preventers.remove_all(removed.items());
        Ok(())
    }
}

ghost use Rattle.std.specs.Prelude.{◌≡◌};
ghost use Rattle.judgement.specs.UnitState.{raised_for_all, raised_for_others};

/// Raises an attention for every slot.
fn raise_for_all(queues: &mut Queues, kind: Kind)
    ensures { queues.new ≡ raised_for_all queues.old kind }
{
    let nexuses = queues.slots();
    for nexus in nexuses.as_slice() {
        queues.raise(*nexus, kind);
    }
}

/// Raises an attention for every slot but the sender's.
fn raise_for_others(queues: &mut Queues, sender: Nexus, kind: Kind)
    ensures { queues.new ≡ raised_for_others queues.old sender kind }
{
    let nexuses = queues.slots();
    for nexus in nexuses.as_slice() {
        if *nexus != sender {
            queues.raise(*nexus, kind);
        }
    }
}
