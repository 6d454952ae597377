//! What the CDBs of the commands that only the hosts' profile has say (SPC-4, SMC-3).

ghost use Rattle.std.specs.Prelude.{◌≡◌, ◌≤◌, true, length, IfSome, is_some};
ghost use Rattle.scsi_cdb.specs.Bits.{bits};
ghost use Rattle.scsi_cdb.specs.HostCommands.{HostFits, send_diagnostic, log_select, log_sense, mode_select_10, mode_sense_10, supported_operation_codes, supported_task_management, maintenance_in, position_to_element, initialize_with_range, exchange_medium};
ghost use Rattle.scsi_cdb.specs.Commands.{Row, had, fields_in, host_rows};
ghost use Rattle.scsi_cdb.specs.Encoding.{Fits};
ghost use Rattle.scsi_cdb.specs.declared.profile.Profile.TheVariants.{Hosts};

use crate::fields::{bit_at, byte_at, service_action_at, u16_at, u32_at};
use crate::host_request::HostRequest;
use crate::kind::Kind;
use crate::layout::*;
use crate::request::Request;

/// Whether units of the kind have a command that only the hosts' profile has.
pub fn has_host_command(kind: Kind, opcode: u8) -> bool
    ensures { result ≡ is_some (had kind opcode (host_rows Hosts)) }
{
    match opcode {
        SEND_DIAGNOSTIC | LOG_SELECT | LOG_SENSE | MODE_SENSE_10 | MAINTENANCE_IN => true,
        MODE_SELECT_10 => kind == Kind::Drive,
        POSITION_TO_ELEMENT | INITIALIZE_ELEMENT_STATUS_WITH_RANGE | EXCHANGE_MEDIUM => {
            kind == Kind::Changer
        }
        _ => false,
    }
}

/// What a CDB of such a command says, where its service action is one of the command's own.
pub fn host_fields_of(kind: Kind, opcode: u8, cdb: &[u8]) -> Option<Request>
    requires had { is_some (had kind opcode (host_rows Hosts)) ≡ true }
    requires whole { IfSome (had kind opcode (host_rows Hosts)) (λ (r : Row). r.length ≤ length cdb.now) }
    ensures value { result ≡ fields_in (had kind opcode (host_rows Hosts)) cdb.now }
    ensures fits { IfSome result Fits }
{
    match opcode {
        SEND_DIAGNOSTIC => Some(Request::Host(send_diagnostic_at(cdb))),
        LOG_SELECT => Some(Request::Host(log_select_at(cdb))),
        LOG_SENSE => Some(Request::Host(log_sense_at(cdb))),
        MODE_SELECT_10 => Some(Request::Host(mode_select_10_at(cdb))),
        MODE_SENSE_10 => Some(Request::Host(mode_sense_10_at(cdb))),
        MAINTENANCE_IN => Some(Request::Host(maintenance_in_at(cdb)?)),
        POSITION_TO_ELEMENT => Some(Request::Host(position_to_element_at(cdb))),
        INITIALIZE_ELEMENT_STATUS_WITH_RANGE => {
            Some(Request::Host(initialize_with_range_at(cdb)))
        }
        EXCHANGE_MEDIUM => Some(Request::Host(exchange_medium_at(cdb))),
        _ => None,
    }
}

fn send_diagnostic_at(cdb: &[u8]) -> HostRequest
    requires { 6 ≤ length cdb.now }
    ensures value { result ≡ send_diagnostic cdb.now }
    ensures fits { HostFits result }
{
    HostRequest::SendDiagnostic {
        self_test_code: byte_at(cdb, FLAGS) >> SELF_TEST_CODE_PLACE,
        self_test: bit_at(cdb, FLAGS, SELFTEST_BIT),
        parameter_list_length: u16_at(cdb, SEND_DIAGNOSTIC_PARAMETER_LIST_LENGTH),
    }
}

fn log_select_at(cdb: &[u8]) -> HostRequest
    requires { 10 ≤ length cdb.now }
    ensures value { result ≡ log_select cdb.now }
    ensures fits { HostFits result }
{
    let page = byte_at(cdb, LOG_PAGE);
    HostRequest::LogSelect {
        parameter_code_reset: bit_at(cdb, FLAGS, PCR_BIT),
        save_parameters: bit_at(cdb, FLAGS, SP_BIT),
        page_control: page >> PAGE_CONTROL_PLACE,
        page_code: page & PAGE_CODE_BITS,
        subpage_code: byte_at(cdb, LOG_SUBPAGE_CODE),
        parameter_list_length: u16_at(cdb, TEN_BYTES_LENGTH),
    }
}

fn log_sense_at(cdb: &[u8]) -> HostRequest
    requires { 10 ≤ length cdb.now }
    ensures value { result ≡ log_sense cdb.now }
    ensures fits { HostFits result }
{
    let page = byte_at(cdb, LOG_PAGE);
    HostRequest::LogSense {
        parameter_pointer_control: bit_at(cdb, FLAGS, PPC_BIT),
        save_parameters: bit_at(cdb, FLAGS, SP_BIT),
        page_control: page >> PAGE_CONTROL_PLACE,
        page_code: page & PAGE_CODE_BITS,
        subpage_code: byte_at(cdb, LOG_SUBPAGE_CODE),
        parameter_pointer: u16_at(cdb, LOG_PARAMETER_POINTER),
        allocation_length: u16_at(cdb, TEN_BYTES_LENGTH),
    }
}

fn mode_select_10_at(cdb: &[u8]) -> HostRequest
    requires { 10 ≤ length cdb.now }
    ensures value { result ≡ mode_select_10 cdb.now }
    ensures fits { HostFits result }
{
    HostRequest::ModeSelect10 {
        save_pages: bit_at(cdb, FLAGS, SP_BIT),
        parameter_list_length: u16_at(cdb, TEN_BYTES_LENGTH),
    }
}

fn mode_sense_10_at(cdb: &[u8]) -> HostRequest
    requires { 10 ≤ length cdb.now }
    ensures value { result ≡ mode_sense_10 cdb.now }
    ensures fits { HostFits result }
{
    let page = byte_at(cdb, MODE_SENSE_PAGE);
    HostRequest::ModeSense10 {
        disable_block_descriptors: bit_at(cdb, FLAGS, DBD_BIT),
        page_control: page >> PAGE_CONTROL_PLACE,
        page_code: page & PAGE_CODE_BITS,
        subpage_code: byte_at(cdb, MODE_SENSE_SUBPAGE_CODE),
        allocation_length: u16_at(cdb, TEN_BYTES_LENGTH),
    }
}

/// The service actions of MAINTENANCE IN that report which commands and which task management functions there are.
fn maintenance_in_at(cdb: &[u8]) -> Option<HostRequest>
    requires { 12 ≤ length cdb.now }
    ensures value { result ≡ maintenance_in (bits cdb.now 1 4 0) cdb.now }
    ensures fits { IfSome result HostFits }
{
    match service_action_at(cdb) {
        REPORT_SUPPORTED_OPERATION_CODES => Some(supported_operation_codes_at(cdb)),
        REPORT_SUPPORTED_TASK_MANAGEMENT_FUNCTIONS => Some(supported_task_management_at(cdb)),
        _ => None,
    }
}

fn supported_operation_codes_at(cdb: &[u8]) -> HostRequest
    requires { 12 ≤ length cdb.now }
    ensures value { result ≡ supported_operation_codes cdb.now }
    ensures fits { HostFits result }
{
    HostRequest::ReportSupportedOperationCodes {
        return_command_timeouts: bit_at(cdb, REPORT_FLAGS, RCTD_BIT),
        reporting_options: byte_at(cdb, REPORT_FLAGS) & REPORTING_OPTIONS_BITS,
        requested_operation_code: byte_at(cdb, REQUESTED_OPERATION_CODE),
        requested_service_action: u16_at(cdb, REQUESTED_SERVICE_ACTION),
        allocation_length: u32_at(cdb, REPORT_ALLOCATION_LENGTH),
    }
}

fn supported_task_management_at(cdb: &[u8]) -> HostRequest
    requires { 12 ≤ length cdb.now }
    ensures value { result ≡ supported_task_management cdb.now }
    ensures fits { HostFits result }
{
    HostRequest::ReportSupportedTaskManagementFunctions {
        return_extended_data: bit_at(cdb, REPORT_FLAGS, REPD_BIT),
        allocation_length: u32_at(cdb, REPORT_ALLOCATION_LENGTH),
    }
}

fn position_to_element_at(cdb: &[u8]) -> HostRequest
    requires { 10 ≤ length cdb.now }
    ensures value { result ≡ position_to_element cdb.now }
    ensures fits { HostFits result }
{
    HostRequest::PositionToElement {
        medium_transport_element_address: u16_at(cdb, MEDIUM_TRANSPORT_ELEMENT_ADDRESS),
        destination_element_address: u16_at(cdb, POSITION_DESTINATION_ELEMENT_ADDRESS),
        invert: bit_at(cdb, POSITION_FLAGS, INVERT_BIT),
    }
}

fn initialize_with_range_at(cdb: &[u8]) -> HostRequest
    requires { 10 ≤ length cdb.now }
    ensures value { result ≡ initialize_with_range cdb.now }
    ensures fits { HostFits result }
{
    HostRequest::InitializeElementStatusWithRange {
        fast: bit_at(cdb, FLAGS, FAST_BIT),
        range: bit_at(cdb, FLAGS, RANGE_BIT),
        starting_element_address: u16_at(cdb, STARTING_ELEMENT_ADDRESS),
        number_of_elements: u16_at(cdb, RANGE_NUMBER_OF_ELEMENTS),
    }
}

fn exchange_medium_at(cdb: &[u8]) -> HostRequest
    requires { 12 ≤ length cdb.now }
    ensures value { result ≡ exchange_medium cdb.now }
    ensures fits { HostFits result }
{
    HostRequest::ExchangeMedium {
        medium_transport_element_address: u16_at(cdb, MEDIUM_TRANSPORT_ELEMENT_ADDRESS),
        source_element_address: u16_at(cdb, SOURCE_ELEMENT_ADDRESS),
        first_destination_element_address: u16_at(cdb, FIRST_DESTINATION_ELEMENT_ADDRESS),
        second_destination_element_address: u16_at(cdb, SECOND_DESTINATION_ELEMENT_ADDRESS),
        invert_first: bit_at(cdb, EXCHANGE_MEDIUM_FLAGS, INV1_BIT),
        invert_second: bit_at(cdb, EXCHANGE_MEDIUM_FLAGS, INV2_BIT),
    }
}
