ghost use Rattle.std.specs.Prelude.{◌≡◌, ◌<◌, ◌≤◌, [], ◌∷◌, length, slice_get, Some, None};
ghost use Rattle.std.specs.Global.{Vec};
ghost use Rattle.std.specs.Option.{option_map};
ghost use Rattle.audit_log.specs.declared.record.Record.{Record};
ghost use Rattle.judgement.specs.Received.{IsFor};
ghost use Rattle.logical_unit.specs.Step.{Executes, IsBusyOnlyFor};
ghost use Rattle.logical_unit.specs.UnitView.{units_of};
ghost use Rattle.target_core.specs.Faults.{fault_of};
ghost use Rattle.target_core.specs.Run.{NamesAt, Commands, LosesAt, ResetsAt, Drains};
ghost use Rattle.target_core.specs.Busy.{CommandIsBusyOnlyFor, IsBusyOnlyForRecordAt};

use crate::event::Event;
use crate::order::{CoreFault, fault_of};
use audit_log::Record;
use device_server::DeviceServer;
use judgement::ReceivedCommand;
use logical_unit::{LogicalUnit, Reply, absent, move_one, move_two, named};
use scsi_cdb::Profile;
use scsi_nexus::Nexus;
use scsi_sense::Condition;
use std::alloc::{AllocError, Global};
use std::marker::Model;

/// All units of a target: a changer as logical unit 0, then one to four drives numbered by place,
/// each made with that count of units.
///
/// ```text
/// let mut core = TargetCore::new(units)?;
/// let reply = core.step(alloc, &Event::Command { nexus, lun: 1, cdb, bytes });
/// let records = core.drain(alloc, 1);
/// ```
#[derive(Drop)]
pub struct TargetCore<D: DeviceServer> {
    units: Vec<LogicalUnit<D>>,
}

impl<D: DeviceServer> Model for TargetCore<D> {
    ghost use Rattle.std.specs.Prelude.{List};
    ghost use Rattle.logical_unit.specs.UnitView.{UnitWithRoom, units_of};

    ghost Value = { List UnitWithRoom };

    ghost view = { λ t. t.units.items };

    ghost use Rattle.std.specs.Prelude.{◌≡◌, None};
    ghost use Rattle.target_core.specs.Faults.{fault_of};

    ghost invariant = { λ t. fault_of (units_of t.units.items) ≡ None };
}

/// A command to a unit alone.
fn execute_at<D: DeviceServer>(
    alloc: Global,
    unit: &mut LogicalUnit<D>,
    nexus: Nexus,
    cdb: &[u8],
    bytes: &[u8],
) -> Reply
    ensures unit { Executes unit.old.unit nexus cdb.now bytes.now (unit.new.unit, result) }
    ensures busy { IsBusyOnlyFor unit.old nexus cdb.now bytes.now result }
{
    let received = ReceivedCommand::new(nexus, unit.commands(), cdb, bytes);
    unit.execute(alloc, &received)
}

/// A command to one of the drives.
fn command_at<D: DeviceServer>(
    alloc: Global,
    units: &mut [LogicalUnit<D>],
    lun: usize,
    nexus: Nexus,
    cdb: &[u8],
    bytes: &[u8],
) -> Reply
    requires within { lun < length units.old }
    requires drive { 1 ≤ lun }
    ensures step { Commands (units_of units.old) lun nexus cdb.now bytes.now (units_of units.new, result) }
    ensures busy { CommandIsBusyOnlyFor units.old lun nexus cdb.now bytes.now result }
{
    execute_at(alloc, &mut units[lun], nexus, cdb, bytes)
}

/// A MOVE MEDIUM or EXCHANGE MEDIUM at the changer that names one of the drives.
fn move_at<D: DeviceServer>(
    alloc: Global,
    changer: &mut LogicalUnit<D>,
    drives: &mut [LogicalUnit<D>],
    lun: usize,
    received: &ReceivedCommand<'_>,
) -> Reply
    requires kind { IsFor changer.old.unit.device received.now }
    requires ordered { fault_of (units_of (changer.old ∷ drives.old)) ≡ None }
    requires place { 1 ≤ lun }
    requires within { lun ≤ length drives.old }
    requires named { NamesAt (units_of (changer.old ∷ drives.old)) received.now.cdb (lun ∷ []) }
    ensures step { Commands (units_of (changer.old ∷ drives.old)) 0 received.now.nexus received.now.cdb received.now.bytes (units_of (changer.new ∷ drives.new), result) }
    ensures busy { CommandIsBusyOnlyFor (changer.old ∷ drives.old) 0 received.now.nexus received.now.cdb received.now.bytes result }
{
    move_one(alloc, changer, &mut drives[lun - 1], received).reply
}

/// A MOVE MEDIUM at the changer that names two.
fn move_between<D: DeviceServer>(
    alloc: Global,
    changer: &mut LogicalUnit<D>,
    drives: &mut [LogicalUnit<D>],
    low: usize,
    high: usize,
    received: &ReceivedCommand<'_>,
) -> Reply
    requires kind { IsFor changer.old.unit.device received.now }
    requires ordered { fault_of (units_of (changer.old ∷ drives.old)) ≡ None }
    requires place { 1 ≤ low }
    requires rising { low < high }
    requires within { high ≤ length drives.old }
    requires named { NamesAt (units_of (changer.old ∷ drives.old)) received.now.cdb (low ∷ high ∷ []) }
    ensures step { Commands (units_of (changer.old ∷ drives.old)) 0 received.now.nexus received.now.cdb received.now.bytes (units_of (changer.new ∷ drives.new), result) }
    ensures busy { CommandIsBusyOnlyFor (changer.old ∷ drives.old) 0 received.now.nexus received.now.cdb received.now.bytes result }
{
    let (lower, upper) = drives.split_at_mut(high - 1);
    move_two(alloc, changer, &mut lower[low - 1], &mut upper[0], received).reply
}

/// A command to the changer, alone or with the drives that it names.
fn command_with_drives<D: DeviceServer>(
    alloc: Global,
    changer: &mut LogicalUnit<D>,
    drives: &mut [LogicalUnit<D>],
    received: &ReceivedCommand<'_>,
) -> Reply
    requires kind { IsFor changer.old.unit.device received.now }
    requires ordered { fault_of (units_of (changer.old ∷ drives.old)) ≡ None }
    ensures step { Commands (units_of (changer.old ∷ drives.old)) 0 received.now.nexus received.now.cdb received.now.bytes (units_of (changer.new ∷ drives.new), result) }
    ensures busy { CommandIsBusyOnlyFor (changer.old ∷ drives.old) 0 received.now.nexus received.now.cdb received.now.bytes result }
{
    let luns = named(drives.len() as u8, received);
    match luns.as_slice() {
        [] => changer.execute(alloc, received),
        [lun] => move_at(alloc, changer, drives, usize::from(*lun), received),
        [low, high, ..] => {
            let (low, high) = (usize::from(*low), usize::from(*high));
            move_between(alloc, changer, drives, low, high, received)
        }
    }
}

/// A command to the changer: a MOVE MEDIUM or EXCHANGE MEDIUM goes to it with the drives that it names.
fn command_to_changer<D: DeviceServer>(
    alloc: Global,
    units: &mut [LogicalUnit<D>],
    nexus: Nexus,
    cdb: &[u8],
    bytes: &[u8],
) -> Reply
    requires { fault_of (units_of units.old) ≡ None }
    ensures step { Commands (units_of units.old) 0 nexus cdb.now bytes.now (units_of units.new, result) }
    ensures busy { CommandIsBusyOnlyFor units.old 0 nexus cdb.now bytes.now result }
{
    let (first, drives) = units.split_at_mut(1);
    let received = ReceivedCommand::new(nexus, first[0].commands(), cdb, bytes);
    command_with_drives(alloc, &mut first[0], drives, &received)
}

/// A command to a unit, or to none.
fn command_to<D: DeviceServer>(
    alloc: Global,
    units: &mut Vec<LogicalUnit<D>>,
    lun: usize,
    nexus: Nexus,
    cdb: &[u8],
    bytes: &[u8],
) -> Reply
    requires { fault_of (units_of units.old.items) ≡ None }
    ensures step { Commands (units_of units.old.items) lun nexus cdb.now bytes.now (units_of units.new.items, result) }
    ensures busy { CommandIsBusyOnlyFor units.old.items lun nexus cdb.now bytes.now result }
{
    if lun == 0 {
        return command_to_changer(alloc, units.as_mut_slice(), nexus, cdb, bytes);
    }
    if lun < units.len() {
        command_at(alloc, units.as_mut_slice(), lun, nexus, cdb, bytes)
    } else {
        absent(alloc, cdb)
    }
}

/// An I_T nexus loss at one of the units.
fn lose_at<D: DeviceServer>(
    alloc: Global,
    units: &mut [LogicalUnit<D>],
    lun: usize,
    nexus: Nexus,
) -> Reply
    requires { lun < length units.old }
    ensures step { LosesAt (units_of units.old) lun (slice_get (units_of units.old) lun) nexus (units_of units.new, result) }
    ensures busy { IsBusyOnlyForRecordAt (slice_get units.old lun) result }
{
    units[lun].lose_reply(alloc, nexus)
}

/// A reset of one of the units.
fn reset_at<D: DeviceServer>(alloc: Global, units: &mut [LogicalUnit<D>], lun: usize) -> Reply
    requires { lun < length units.old }
    ensures step { ResetsAt (units_of units.old) lun (slice_get (units_of units.old) lun) (units_of units.new, result) }
    ensures busy { IsBusyOnlyForRecordAt (slice_get units.old lun) result }
{
    units[lun].reset_reply(alloc)
}

/// An I_T nexus loss at a unit, or at none.
fn lose<D: DeviceServer>(
    alloc: Global,
    units: &mut Vec<LogicalUnit<D>>,
    lun: usize,
    nexus: Nexus,
) -> Reply
    ensures step { LosesAt (units_of units.old.items) lun (slice_get (units_of units.old.items) lun) nexus (units_of units.new.items, result) }
    ensures busy { IsBusyOnlyForRecordAt (slice_get units.old.items lun) result }
{
    if lun < units.len() {
        lose_at(alloc, units.as_mut_slice(), lun, nexus)
    } else {
        Reply::check(alloc, Condition::LogicalUnitNotSupported)
    }
}

/// A reset of a unit, or of none.
fn reset<D: DeviceServer>(alloc: Global, units: &mut Vec<LogicalUnit<D>>, lun: usize) -> Reply
    ensures step { ResetsAt (units_of units.old.items) lun (slice_get (units_of units.old.items) lun) (units_of units.new.items, result) }
    ensures busy { IsBusyOnlyForRecordAt (slice_get units.old.items lun) result }
{
    if lun < units.len() {
        reset_at(alloc, units.as_mut_slice(), lun)
    } else {
        Reply::check(alloc, Condition::LogicalUnitNotSupported)
    }
}

/// The records of one of the units.
fn drain_at<D: DeviceServer>(alloc: Global, units: &mut [LogicalUnit<D>], lun: usize) -> Vec<Record>
    requires { lun < length units.old }
    ensures { Drains (units_of units.old) lun (units_of units.new, Some result.items) }
{
    units[lun].drain(alloc)
}

/// The records of a unit, or of none.
fn drain<D: DeviceServer>(
    alloc: Global,
    units: &mut Vec<LogicalUnit<D>>,
    lun: usize,
) -> Option<Vec<Record>>
    ensures { Drains (units_of units.old.items) lun (units_of units.new.items, option_map (λ (entries : Vec Record). entries.items) result) }
{
    if lun < units.len() {
        Some(drain_at(alloc, units.as_mut_slice(), lun))
    } else {
        None
    }
}

impl<D: DeviceServer> TargetCore<D> {
    ghost use Rattle.std.specs.Prelude.{◌≡◌, ℕ, List, ◌++◌, Some, None, slice_get, OnOk, OnErr, IfOk, IfErr};
    ghost use Rattle.judgement.specs.declared.reply.Reply.{Reply};
    ghost use Rattle.device_server.specs.View.{profile_of};
    ghost use Rattle.target_core.specs.Faults.{fault_of, profile_in};
    ghost use Rattle.std.specs.Global.{Vec};
    ghost use Rattle.std.specs.Option.{option_map};
    ghost use Rattle.audit_log.specs.declared.record.Record.{Record};
    ghost use Rattle.logical_unit.specs.UnitView.{UnitView, units_of};
    ghost use Rattle.target_core.specs.Run.{Steps, Runs, Drains};
    ghost use Rattle.target_core.specs.Busy.{EventIsBusyOnlyFor};

    /// A target of these units. A refusal hands them back.
    pub fn new(
        units: Vec<LogicalUnit<D>>,
    ) -> Result<TargetCore<D>, (CoreFault, Vec<LogicalUnit<D>>)>
        ensures ok { IfOk result (λ core. (fault_of (units_of units.items) ≡ None) × (core ≡ units.items)) }
        ensures err { IfErr result (λ back. (fault_of (units_of units.items) ≡ Some back.0) × (back.1 ≡ units)) }
    {
        match fault_of(units.as_slice()) {
            None => Ok(TargetCore { units }),
            Some(fault) => Err((fault, units)),
        }
    }

    /// The units, by logical unit number.
    pub fn all(&self) -> &[LogicalUnit<D>]
        ensures units { result.now ≡ self.now }
        ensures ordered { fault_of (units_of self.now) ≡ None }
    {
        self.units.as_slice()
    }

    /// The units, by logical unit number.
    pub fn into_units(self) -> Vec<LogicalUnit<D>>
        ensures units { result.items ≡ self }
        ensures ordered { fault_of (units_of self) ≡ None }
    {
        let TargetCore { units } = self;
        units
    }

    /// The profile that all units are of.
    #[tactic(auto, using(crate::proofs::Ordered::one_profile))]
    pub fn profile(&self) -> Profile
        ensures changer { result ≡ profile_in (units_of self.now) }
        ensures each { (k : ℕ) (u : UnitView) → slice_get (units_of self.now) k ≡ Some u → profile_of u.device ≡ result }
    {
        match self.units.first() {
            Some(changer) => changer.commands().profile,
            None => Profile::Spec,
        }
    }

    /// One event. BUSY changes nothing. It comes only where there is no slot for the sender, no room or no number for a
    /// record that the event would leave, or where the command takes memory beside that.
    pub fn step(&mut self, alloc: Global, event: &Event) -> Reply
        ensures step { Steps (units_of self.old) event.now (units_of self.new, result) }
        ensures busy { EventIsBusyOnlyFor self.old event.now result }
    {
        match event {
            Event::Command {
                nexus,
                lun,
                cdb,
                bytes,
            } => command_to(
                alloc,
                &mut self.units,
                usize::from(*lun),
                *nexus,
                cdb.as_slice(),
                bytes.as_slice(),
            ),
            Event::Loss { nexus, lun } => {
                lose(alloc, &mut self.units, usize::from(*lun), *nexus)
            }
            Event::Reset { lun } => reset(alloc, &mut self.units, usize::from(*lun)),
        }
    }

    /// Events one after another, with the reply to each put behind the replies that are there. Want
    /// of memory for the replies changes nothing.
    pub fn run(
        &mut self,
        alloc: Global,
        events: &[Event],
        replies: &mut Vec<Reply>,
    ) -> Result<(), AllocError>
        ensures ok { OnOk result ((rs : List Reply) × (replies.new.items ≡ replies.old.items ++ rs) × Runs (units_of self.old) events.now rs (units_of self.new)) }
        ensures err { OnErr result ((self.new ≡ self.old) × (replies.new.items ≡ replies.old.items)) }
    {
        replies.reserve(events.len())?;
        for event in events {
            let reply = self.step(alloc, event);
            let _ = replies.push(reply);
        }
        Ok(())
    }

    /// Hands out the records of a unit, oldest first: a legal trail, which gives what the unit keeps
    /// now. The unit keeps none of them and goes on counting, and the other units stay as they were.
    /// `None` where there is no such unit. Takes no memory.
    pub fn drain(&mut self, alloc: Global, lun: u8) -> Option<Vec<Record>>
        ensures { Drains (units_of self.old) lun (units_of self.new, option_map (λ (entries : Vec Record). entries.items) result) }
    {
        drain(alloc, &mut self.units, usize::from(lun))
    }
}
