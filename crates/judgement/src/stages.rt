ghost use Rattle.std.specs.Prelude.{◌≡◌, ◌&&◌, true, false, OnErr, IfOk};
ghost use Rattle.pr_core.specs.declared.verdict.Verdict.TheVariants.{Allowed};
ghost use Rattle.device_server.specs.View.{kind_of};
ghost use Rattle.device_server.specs.Volumes.{is_move};
ghost use Rattle.judgement.specs.UnitState.{has_room, after_contact};
ghost use Rattle.pr_core.specs.Judge.{verdict};
ghost use Rattle.judgement.specs.Decisions.{at_stage};
ghost use Rattle.judgement.specs.Replies.{data_reply};
ghost use Rattle.judgement.specs.Readings.{verdict_of};
ghost use Rattle.judgement.specs.Judge.{carried_out, reserves, unloads, performs, commanded, judged_as, requests_sense, prevents, is_carried_out, asks_memory, takes_memory};
ghost use Rattle.device_server.specs.View.{DeviceView};

use crate::command::Command;
use crate::conditions::{condition_of_attention, condition_of_refusal};
use crate::decision::Decision;
use crate::reply::Reply;
use crate::standing::{Standing, stands_before};
use crate::unit_data::{inquiry, report_luns, sense_data};
use crate::unit_state::UnitState;
use audit_log::Stage;
use device_server::{DeviceServer, Payload, field_fault};
use permit_tables::OutParams;
use scsi_cdb::{CommandSet, Request};
use scsi_nexus::Nexus;
use scsi_sense::Condition;
use std::alloc::{AllocError, Global};

/// A command by its own rules, where nothing stands before it. Want of memory changes nothing.
fn carry_out<D: DeviceServer>(
    alloc: Global,
    device: &mut Box<D>,
    state: &mut UnitState,
    nexus: Nexus,
    command: &Command,
    bytes: &[u8],
) -> Result<(Decision, Reply), AllocError>
    requires room { has_room state.old nexus ≡ true }
    requires allowed { verdict_of state.old.reservations nexus command.now ≡ Allowed }
    ensures ok { IfOk result (λ it. carried_out (record { device = D.shown device.old.value; state = after_contact state.old nexus }) nexus command.now bytes.now ≡ (record { device = D.shown device.new.value; state = state.new }, it.0, it.1)) }
    ensures err { OnErr result ((D.shown device.new.value ≡ D.shown device.old.value) × (state.new ≡ state.old)) }
    ensures want { OnErr result (asks_memory command.now ≡ true) }
{
    match command {
        Command::ReserveOut(list) => Ok(reserve(alloc, state, nexus, list.params())),
        Command::ReserveIn {
            service_action,
            allocation_length,
        } => {
            let payload = state.read_status(alloc, *service_action, *allocation_length)?;
            state.make_contact(nexus);
            Ok((Decision::at_stage(Stage::Device), Reply::good(payload)))
        }
        Command::Inquiry {
            vital_product_data,
            page_code,
            allocation_length,
        } => {
            let (lun, port) = (state.lun(), nexus.port);
            let payload = inquiry(alloc, &**device, lun, port, *vital_product_data, *page_code)?;
            state.make_contact(nexus);
            Ok(answer(alloc, payload, usize::from(*allocation_length)))
        }
        Command::ReportLuns {
            select_report,
            allocation_length,
        } => {
            let payload = report_luns(alloc, state.units(), *select_report)?;
            state.make_contact(nexus);
            Ok(answer(alloc, payload, *allocation_length as usize))
        }
        Command::RequestSense {
            descriptor_format,
            allocation_length,
        } => request_sense(alloc, state, nexus, *descriptor_format, *allocation_length),
        Command::Prevent { prevent } => Ok(prevent_or_allow(alloc, state, nexus, *prevent)),
        Command::Device(request) => perform(alloc, device, state, nexus, request, bytes),
    }
}

/// An allowed PERSISTENT RESERVE OUT command.
fn reserve(
    alloc: Global,
    state: &mut UnitState,
    nexus: Nexus,
    params: &OutParams,
) -> (Decision, Reply)
    requires room { has_room state.old nexus ≡ true }
    requires allowed { verdict state.old.reservations nexus params.now ≡ Allowed }
    ensures { (device : DeviceView) → reserves (record { device = device; state = after_contact state.old nexus }) nexus params.now ≡ (record { device = device; state = state.new }, result.0, result.1) }
{
    match state.reserve(nexus, params) {
        Ok(()) => (
            Decision::at_stage(Stage::Device),
            Reply::good(Payload::none(alloc)),
        ),
        Err(fault) => (
            Decision::at_stage(Stage::Fields),
            Reply::check(alloc, condition_of_refusal(fault)),
        ),
    }
}

/// Data cut at an allocation length, or a field that isn't right.
fn answer(alloc: Global, payload: Option<Payload>, allocation_length: usize) -> (Decision, Reply)
    ensures { result ≡ (at_stage (data_reply payload allocation_length).0, (data_reply payload allocation_length).1) }
{
    let (stage, reply) = Reply::data(alloc, payload, allocation_length);
    (Decision::at_stage(stage), reply)
}

/// Whether a command would have a volume unloaded.
fn unloads(request: &Request) -> bool
    ensures { result ≡ unloads request.now }
{
    matches!(request, Request::LoadUnload { load: false, .. })
}

/// A command of the device. Want of memory changes nothing.
fn perform<D: DeviceServer>(
    alloc: Global,
    device: &mut Box<D>,
    state: &mut UnitState,
    nexus: Nexus,
    request: &Request,
    bytes: &[u8],
) -> Result<(Decision, Reply), AllocError>
    requires { has_room state.old nexus ≡ true }
    ensures ok { IfOk result (λ it. performs (record { device = D.shown device.old.value; state = after_contact state.old nexus }) nexus request.now bytes.now ≡ (record { device = D.shown device.new.value; state = state.new }, it.0, it.1)) }
    ensures err { OnErr result ((D.shown device.new.value ≡ D.shown device.old.value) × (state.new ≡ state.old)) }
    ensures want { OnErr result (is_move request.now ≡ false) }
{
    let commands = CommandSet {
        profile: device.profile(),
        kind: device.kind(),
    };
    if let Some(condition) = field_fault(commands, request, bytes) {
        state.make_contact(nexus);
        let reply = Reply::check(alloc, condition);
        return Ok((Decision::at_stage(Stage::Fields), reply));
    }
    if unloads(request) && state.is_prevented() {
        state.make_contact(nexus);
        let reply = Reply::check(alloc, Condition::MediumRemovalPrevented);
        return Ok((Decision::at_stage(Stage::Device), reply));
    }
    let outcome = device.perform(alloc, request, bytes)?;
    state.make_contact(nexus);
    state.tell_others(nexus, outcome.told);
    Ok((Decision::at_device(outcome.told), Reply::of(outcome)))
}

/// PREVENT ALLOW MEDIUM REMOVAL (SPC-4, "PREVENT ALLOW MEDIUM REMOVAL command"), which takes no memory.
fn prevent_or_allow(
    alloc: Global,
    state: &mut UnitState,
    nexus: Nexus,
    prevent: u8,
) -> (Decision, Reply)
    requires { has_room state.old nexus ≡ true }
    ensures { (device : DeviceView) → prevents (record { device = device; state = after_contact state.old nexus }) nexus prevent ≡ (record { device = device; state = state.new }, result.0, result.1) }
{
    match prevent {
        0 => state.allow(nexus),
        1 => state.prevent(nexus),
        _ => {
            state.make_contact(nexus);
            let reply = Reply::check(alloc, Condition::InvalidFieldInCdb);
            return (Decision::at_stage(Stage::Fields), reply);
        }
    }
    let reply = Reply::good(Payload::none(alloc));
    (Decision::at_stage(Stage::Device), reply)
}

/// REQUEST SENSE. Want of memory changes nothing.
fn request_sense(
    alloc: Global,
    state: &mut UnitState,
    nexus: Nexus,
    descriptor_format: bool,
    allocation_length: u8,
) -> Result<(Decision, Reply), AllocError>
    requires { has_room state.old nexus ≡ true }
    ensures ok { IfOk result (λ it. requests_sense (after_contact state.old nexus) nexus descriptor_format allocation_length ≡ (state.new, it.0, it.1)) }
    ensures err { OnErr result (state.new ≡ state.old) }
{
    if descriptor_format {
        state.make_contact(nexus);
        let reply = Reply::check(alloc, Condition::InvalidFieldInCdb);
        return Ok((Decision::at_stage(Stage::Fields), reply));
    }
    let length = usize::from(allocation_length);
    let decision = Decision::at_stage(Stage::Device);
    match state.pending(nexus) {
        Some(kind) => {
            let payload = sense_data(alloc, condition_of_attention(kind))?;
            let _ = state.report_attention(alloc, nexus, kind);
            Ok((decision, Reply::good(payload.cut(length))))
        }
        None => {
            let payload = sense_data(alloc, Condition::NoAdditionalSenseInformation)?;
            state.make_contact(nexus);
            Ok((decision, Reply::good(payload.cut(length))))
        }
    }
}

/// A command, decoded: it ends by what stands before it, or is carried out by its own rules.
fn judge_command<D: DeviceServer>(
    alloc: Global,
    device: &mut Box<D>,
    state: &mut UnitState,
    nexus: Nexus,
    command: &Command,
    bytes: &[u8],
) -> Result<(Decision, Reply), AllocError>
    requires { has_room state.old nexus ≡ true }
    ensures ok { IfOk result (λ it. commanded (record { device = D.shown device.old.value; state = after_contact state.old nexus }) nexus command.now bytes.now ≡ (record { device = D.shown device.new.value; state = state.new }, it.0, it.1)) }
    ensures err { OnErr result ((D.shown device.new.value ≡ D.shown device.old.value) × (state.new ≡ state.old)) }
    ensures want { OnErr result ((asks_memory command.now && is_carried_out (record { device = D.shown device.old.value; state = after_contact state.old nexus }) nexus command.now) ≡ true) }
{
    match stands_before(alloc, state, nexus, command) {
        Standing::Ended(decision, reply) => Ok((decision, reply)),
        Standing::LetThrough(in_cell) => {
            let (decision, reply) = carry_out(alloc, device, state, nexus, command, bytes)?;
            Ok((decision.in_cell(in_cell), reply))
        }
    }
}

/// A command by the stages in their order, with what its record says. Want of memory changes nothing.
pub fn judge<D: DeviceServer>(
    alloc: Global,
    device: &mut Box<D>,
    state: &mut UnitState,
    nexus: Nexus,
    decoded: &Result<Command, Condition>,
    bytes: &[u8],
) -> Result<(Decision, Reply), AllocError>
    requires { has_room state.old nexus ≡ true }
    ensures ok { IfOk result (λ it. judged_as (record { device = D.shown device.old.value; state = after_contact state.old nexus }) nexus decoded.now bytes.now ≡ (record { device = D.shown device.new.value; state = state.new }, it.0, it.1)) }
    ensures err { OnErr result ((D.shown device.new.value ≡ D.shown device.old.value) × (state.new ≡ state.old)) }
    ensures want { OnErr result (takes_memory (record { device = D.shown device.old.value; state = after_contact state.old nexus }) nexus decoded.now ≡ true) }
{
    match decoded {
        Ok(command) => judge_command(alloc, device, state, nexus, command, bytes),
        Err(condition) => {
            state.make_contact(nexus);
            Ok((
                Decision::at_stage(Stage::Decoding),
                Reply::check(alloc, *condition),
            ))
        }
    }
}
