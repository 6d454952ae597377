//! What the hosts' profile refuses of a command by its fields and the data sent with it alone.
ghost use Rattle.std.specs.Prelude.{◌≡◌};
ghost use Rattle.supported_commands.specs.Options.{options_at};
ghost use Rattle.device_server.specs.Hosts.{codes_fault};
ghost use Rattle.device_server.specs.HostFields.{host_field_fault, host_command_fault, host_mode_select_fault, host_mode_sense_fault, log_sense_fault};

use crate::fields::{LAST_ELEMENT_TYPE, invalid_where, spec_field_fault, write_fault};
use crate::host_queries::{codes_query, log_query, mode_query};
use log_pages::{LogSelect, LogSense, changer_log_fault, drive_log_fault};
use mode_pages::{HeaderForm, ModeSense, ModeValues, changer_mode_fault, drive_mode_fault};
use scsi_cdb::{HostRequest, Kind, Profile, Request};
use scsi_sense::Condition;
use supported_commands::{ReportingOptions, operation_codes_fault};
use tape_medium::most_block;

/// What is refused of a device's command, the first in order (SPC-4, SSC-4 and SMC-3, the clauses of the commands).
pub(crate) fn host_field_fault(kind: Kind, request: &Request, bytes: &[u8]) -> Option<Condition>
    ensures { result ≡ host_field_fault kind request.now bytes.now }
{
    match request {
        Request::Write {
            fixed,
            transfer_length,
        } => write_fault(Profile::Hosts, *fixed, *transfer_length, bytes),
        Request::ModeSelect {
            save_pages,
            parameter_list_length,
        } => mode_select_fault(
            HeaderForm::Six,
            *save_pages,
            u16::from(*parameter_list_length),
            bytes,
        ),
        Request::ModeSense {
            disable_block_descriptors,
            page_control,
            page_code,
            subpage_code,
            allocation_length: _,
        } => {
            let query = mode_query(
                HeaderForm::Six,
                *disable_block_descriptors,
                *page_control,
                *page_code,
                *subpage_code,
            );
            mode_sense_fault(kind, &query)
        }
        Request::LoadUnload {
            hold,
            end_of_tape,
            load,
        } => invalid_where(*end_of_tape || *hold && *load),
        Request::Locate {
            block_address_type: _,
            change_partition,
            logical_object_identifier: _,
            partition,
        } => invalid_where(*change_partition && *partition != 0),
        Request::ReadElementStatus {
            element_type_code,
            ..
        } => invalid_where(*element_type_code > LAST_ELEMENT_TYPE),
        Request::Host(command) => host_command_fault(kind, command, bytes),
        Request::TestUnitReady
        | Request::Rewind
        | Request::RequestSense { .. }
        | Request::ReadBlockLimits
        | Request::InitializeElementStatus
        | Request::Read { .. }
        | Request::WriteFilemarks { .. }
        | Request::Space { .. }
        | Request::Inquiry { .. }
        | Request::Erase
        | Request::PreventAllowMediumRemoval { .. }
        | Request::ReadPosition
        | Request::PersistentReserveIn { .. }
        | Request::PersistentReserveOut { .. }
        | Request::ReportLuns { .. }
        | Request::MoveMedium { .. } => spec_field_fault(kind, request, bytes),
    }
}

/// The same of the commands that only this profile has.
fn host_command_fault(kind: Kind, command: &HostRequest, bytes: &[u8]) -> Option<Condition>
    ensures { result ≡ host_command_fault kind command.now bytes.now }
{
    match command {
        HostRequest::SendDiagnostic {
            self_test_code,
            self_test: _,
            parameter_list_length,
        } => invalid_where(*self_test_code != 0 || *parameter_list_length != 0),
        HostRequest::LogSelect {
            parameter_code_reset,
            save_parameters,
            page_control: _,
            page_code,
            subpage_code,
            parameter_list_length,
        } => {
            let query = LogSelect {
                parameter_code_reset: *parameter_code_reset,
                save_parameters: *save_parameters,
                page_code: *page_code,
                subpage_code: *subpage_code,
                list_length: *parameter_list_length,
            };
            log_pages::selected(kind, &query, bytes.len()).err()
        }
        HostRequest::LogSense {
            parameter_pointer_control,
            save_parameters,
            page_control: _,
            page_code,
            subpage_code,
            parameter_pointer,
            allocation_length: _,
        } => {
            let query = log_query(
                *parameter_pointer_control,
                *save_parameters,
                *page_code,
                *subpage_code,
                *parameter_pointer,
            );
            log_sense_fault(kind, &query)
        }
        HostRequest::ModeSelect10 {
            save_pages,
            parameter_list_length,
        } => mode_select_fault(HeaderForm::Ten, *save_pages, *parameter_list_length, bytes),
        HostRequest::ModeSense10 {
            disable_block_descriptors,
            page_control,
            page_code,
            subpage_code,
            allocation_length: _,
        } => {
            let query = mode_query(
                HeaderForm::Ten,
                *disable_block_descriptors,
                *page_control,
                *page_code,
                *subpage_code,
            );
            mode_sense_fault(kind, &query)
        }
        HostRequest::ReportSupportedOperationCodes {
            return_command_timeouts,
            reporting_options,
            requested_operation_code,
            requested_service_action,
            allocation_length: _,
        } => codes_fault(
            kind,
            *return_command_timeouts,
            *reporting_options,
            *requested_operation_code,
            *requested_service_action,
        ),
        HostRequest::PositionToElement { invert, .. } => invalid_where(*invert),
        HostRequest::ExchangeMedium {
            invert_first,
            invert_second,
            ..
        } => invalid_where(*invert_first || *invert_second),
        HostRequest::ReportSupportedTaskManagementFunctions { .. }
        | HostRequest::InitializeElementStatusWithRange { .. } => None,
    }
}

fn mode_select_fault(
    form: HeaderForm,
    save_pages: bool,
    list_length: u16,
    bytes: &[u8],
) -> Option<Condition>
    ensures { result ≡ host_mode_select_fault form save_pages list_length bytes.now }
{
    let before = ModeValues::default();
    let most = most_block(Profile::Hosts);
    mode_pages::selected(before, most, form, save_pages, list_length, bytes).err()
}

fn mode_sense_fault(kind: Kind, query: &ModeSense) -> Option<Condition>
    ensures { result ≡ host_mode_sense_fault kind query.now }
{
    match kind {
        Kind::Drive => drive_mode_fault(query),
        Kind::Changer => changer_mode_fault(query),
    }
}

fn log_sense_fault(kind: Kind, query: &LogSense) -> Option<Condition>
    ensures { result ≡ log_sense_fault kind query.now }
{
    match kind {
        Kind::Drive => drive_log_fault(query),
        Kind::Changer => changer_log_fault(query),
    }
}

fn codes_fault(
    kind: Kind,
    return_timeouts: bool,
    options: u8,
    operation_code: u8,
    service_action: u16,
) -> Option<Condition>
    ensures { result ≡ codes_fault kind return_timeouts (options_at options) operation_code service_action }
{
    match ReportingOptions::of(options) {
        Some(options) => {
            let query = codes_query(return_timeouts, options, operation_code, service_action);
            operation_codes_fault(kind, &query)
        }
        None => Some(Condition::InvalidFieldInCdb),
    }
}
