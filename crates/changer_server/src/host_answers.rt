//! The commands that only the hosts' profile has, at a changer.

ghost use Rattle.std.specs.Prelude.{◌≡◌, false, IfOk, OnErr};
ghost use Rattle.scsi_cdb.specs.declared.kind.Kind.TheVariants as kind;
ghost use Rattle.log_pages.specs.LogSelect as log;
ghost use Rattle.element_map.specs.Exchange.{exchange_refusal};
ghost use Rattle.device_server.specs.HostChanger.{host_view, changer_log_selected, changer_command_step, host_exchanged, positioned};
ghost use Rattle.device_server.specs.Volumes.{is_exchange};

use crate::faults::move_condition;
use crate::host_changer::sense_mode;
use device_server::{
    HostChanger, Outcome, Payload, codes_answer, log_query, mode_query, told_of_log,
};
use element_map::Elements;
use log_pages::{LogSelect, changer_log_data};
use mode_pages::HeaderForm;
use scsi_cdb::{HostRequest, Kind};
use scsi_sense::Condition;
use std::alloc::{AllocError, Global};
use supported_commands::supported_task_management;
use tape_medium::TRANSPORT;

/// Carries out such a command, of which EXCHANGE MEDIUM alone changes a changer. It has no MODE SELECT.
pub(crate) fn command_step(
    alloc: Global,
    elements: &mut Elements,
    hosts: &mut HostChanger,
    command: &HostRequest,
    bytes: &[u8],
) -> Result<Outcome, AllocError>
    ensures ok { IfOk result (λ outcome. changer_command_step (host_view elements.old hosts.old) hosts.old command.now bytes.now ≡ (host_view elements.new hosts.new, outcome)) }
    ensures elements { OnErr result (elements.new ≡ elements.old) }
    ensures hosts { OnErr result (hosts.new ≡ hosts.old) }
    ensures want { OnErr result (is_exchange command.now ≡ false) }
{
    match command {
        HostRequest::SendDiagnostic { .. } => Ok(Outcome::good(Payload::none(alloc))),
        HostRequest::LogSelect {
            parameter_code_reset,
            save_parameters,
            page_control: _,
            page_code,
            subpage_code,
            parameter_list_length,
        } => {
            let query = LogSelect {
                parameter_code_reset: *parameter_code_reset,
                save_parameters: *save_parameters,
                page_code: *page_code,
                subpage_code: *subpage_code,
                list_length: *parameter_list_length,
            };
            Ok(select_log(alloc, &query, bytes.len()))
        }
        HostRequest::LogSense {
            parameter_pointer_control,
            save_parameters,
            page_control: _,
            page_code,
            subpage_code,
            parameter_pointer,
            allocation_length,
        } => {
            let query = log_query(
                *parameter_pointer_control,
                *save_parameters,
                *page_code,
                *subpage_code,
                *parameter_pointer,
            );
            let answer = changer_log_data(alloc, &query)?;
            Ok(Outcome::answers(alloc, usize::from(*allocation_length), answer))
        }
        HostRequest::ModeSelect10 { .. } => {
            Ok(Outcome::check(alloc, Condition::InvalidCommandOperationCode))
        }
        HostRequest::ModeSense10 {
            disable_block_descriptors,
            page_control,
            page_code,
            subpage_code,
            allocation_length,
        } => {
            let query = mode_query(
                HeaderForm::Ten,
                *disable_block_descriptors,
                *page_control,
                *page_code,
                *subpage_code,
            );
            sense_mode(alloc, elements, &query, usize::from(*allocation_length))
        }
        HostRequest::ReportSupportedOperationCodes {
            return_command_timeouts,
            reporting_options,
            requested_operation_code,
            requested_service_action,
            allocation_length,
        } => {
            let answer = codes_answer(
                alloc,
                Kind::Changer,
                *return_command_timeouts,
                *reporting_options,
                *requested_operation_code,
                *requested_service_action,
            )?;
            Ok(Outcome::answers(alloc, *allocation_length as usize, answer))
        }
        HostRequest::ReportSupportedTaskManagementFunctions {
            return_extended_data,
            allocation_length,
        } => {
            let data = supported_task_management(*return_extended_data);
            let payload = Payload::copied(alloc, data)?.cut(*allocation_length as usize);
            Ok(Outcome::good(payload))
        }
        HostRequest::PositionToElement {
            medium_transport_element_address,
            destination_element_address,
            invert: _,
        } => Ok(position(
            alloc,
            elements,
            *medium_transport_element_address,
            *destination_element_address,
        )),
        HostRequest::InitializeElementStatusWithRange { .. } => {
            Ok(Outcome::good(Payload::none(alloc)))
        }
        HostRequest::ExchangeMedium {
            medium_transport_element_address: transport,
            source_element_address: source,
            first_destination_element_address: first,
            second_destination_element_address: second,
            ..
        } => Ok(exchange(alloc, elements, hosts, *transport, *source, *first, *second)),
    }
}

/// EXCHANGE MEDIUM among the changer's own elements, after which both volumes have a source. One with a drive isn't for the changer alone.
#[tactic(auto, using(device_server::proofs::ExchangeLemmas::exchanges_alone))]
fn exchange(
    alloc: Global,
    elements: &mut Elements,
    hosts: &mut HostChanger,
    transport: u16,
    source: u16,
    first: u16,
    second: u16,
) -> Outcome
    ensures { host_exchanged (host_view elements.old hosts.old) hosts.old source first second (exchange_refusal elements.old transport source first second) ≡ (host_view elements.new hosts.new, result) }
{
    if let Some(fault) = elements.exchange_refusal(transport, source, first, second) {
        return Outcome::check(alloc, move_condition(fault));
    }
    if elements.has_drive(source, first, second) {
        return Outcome::check(alloc, Condition::InternalTargetFailure);
    }
    elements.exchange_volumes(source, first, second);
    hosts.sources.note_exchange(source, first, second);
    Outcome::good(Payload::none(alloc))
}

/// POSITION TO ELEMENT: nothing is moved.
fn position(alloc: Global, elements: &Elements, transport: u16, destination: u16) -> Outcome
    ensures { result ≡ positioned elements.now transport destination }
{
    if transport == TRANSPORT && elements.can_hold(destination) {
        Outcome::good(Payload::none(alloc))
    } else {
        Outcome::check(alloc, Condition::InvalidElementAddress)
    }
}

/// LOG SELECT: a changer has no counters.
fn select_log(alloc: Global, query: &LogSelect, data_length: usize) -> Outcome
    ensures { result ≡ changer_log_selected (log.selected kind.Changer query.now data_length) }
{
    match log_pages::selected(Kind::Changer, query, data_length) {
        Ok(change) => Outcome::tells(alloc, told_of_log(change)),
        Err(condition) => Outcome::check(alloc, condition),
    }
}
