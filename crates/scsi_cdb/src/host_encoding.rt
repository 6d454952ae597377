ghost use Rattle.std.specs.Prelude.{◌≡◌};
ghost use Rattle.scsi_cdb.specs.HostCommands.{host_encoded};

use crate::fields::{flag, page_byte, zero_padded};
use crate::host_request::HostRequest;
use crate::layout::*;

/// A CDB of a command that only the hosts' profile has, then zeros.
pub fn host_encode(request: &HostRequest) -> [u8; CDB_LENGTH]
    ensures { result ≡ host_encoded request.now }
{
    match *request {
        HostRequest::SendDiagnostic {
            self_test_code,
            self_test,
            parameter_list_length,
        } => {
            let code = (self_test_code & SELF_TEST_CODE_BITS) << SELF_TEST_CODE_PLACE;
            let [n1, n0] = parameter_list_length.to_be_bytes();
            zero_padded(&[
                SEND_DIAGNOSTIC,
                code + flag(SELFTEST_BIT, self_test),
                0,
                n1,
                n0,
            ])
        }
        HostRequest::LogSelect {
            parameter_code_reset,
            save_parameters,
            page_control,
            page_code,
            subpage_code,
            parameter_list_length,
        } => {
            let flags = flag(PCR_BIT, parameter_code_reset) + flag(SP_BIT, save_parameters);
            let page = page_byte(page_control, page_code);
            let [n1, n0] = parameter_list_length.to_be_bytes();
            zero_padded(&[LOG_SELECT, flags, page, subpage_code, 0, 0, 0, n1, n0])
        }
        HostRequest::LogSense {
            parameter_pointer_control,
            save_parameters,
            page_control,
            page_code,
            subpage_code,
            parameter_pointer,
            allocation_length,
        } => {
            let flags = flag(PPC_BIT, parameter_pointer_control) + flag(SP_BIT, save_parameters);
            let page = page_byte(page_control, page_code);
            let [p1, p0] = parameter_pointer.to_be_bytes();
            let [n1, n0] = allocation_length.to_be_bytes();
            zero_padded(&[LOG_SENSE, flags, page, subpage_code, 0, p1, p0, n1, n0])
        }
        HostRequest::ModeSelect10 {
            save_pages,
            parameter_list_length,
        } => {
            let [n1, n0] = parameter_list_length.to_be_bytes();
            zero_padded(&[
                MODE_SELECT_10,
                flag(SP_BIT, save_pages),
                0,
                0,
                0,
                0,
                0,
                n1,
                n0,
            ])
        }
        HostRequest::ModeSense10 {
            disable_block_descriptors,
            page_control,
            page_code,
            subpage_code,
            allocation_length,
        } => {
            let flags = flag(DBD_BIT, disable_block_descriptors);
            let page = page_byte(page_control, page_code);
            let [n1, n0] = allocation_length.to_be_bytes();
            zero_padded(&[MODE_SENSE_10, flags, page, subpage_code, 0, 0, 0, n1, n0])
        }
        HostRequest::ReportSupportedOperationCodes {
            return_command_timeouts,
            reporting_options,
            requested_operation_code,
            requested_service_action,
            allocation_length,
        } => {
            let flags = flag(RCTD_BIT, return_command_timeouts)
                + (reporting_options & REPORTING_OPTIONS_BITS);
            let [a1, a0] = requested_service_action.to_be_bytes();
            let [n3, n2, n1, n0] = allocation_length.to_be_bytes();
            zero_padded(&[
                MAINTENANCE_IN,
                REPORT_SUPPORTED_OPERATION_CODES,
                flags,
                requested_operation_code,
                a1,
                a0,
                n3,
                n2,
                n1,
                n0,
            ])
        }
        HostRequest::ReportSupportedTaskManagementFunctions {
            return_extended_data,
            allocation_length,
        } => {
            let flags = flag(REPD_BIT, return_extended_data);
            let [n3, n2, n1, n0] = allocation_length.to_be_bytes();
            zero_padded(&[
                MAINTENANCE_IN,
                REPORT_SUPPORTED_TASK_MANAGEMENT_FUNCTIONS,
                flags,
                0,
                0,
                0,
                n3,
                n2,
                n1,
                n0,
            ])
        }
        HostRequest::PositionToElement {
            medium_transport_element_address,
            destination_element_address,
            invert,
        } => {
            let [t1, t0] = medium_transport_element_address.to_be_bytes();
            let [d1, d0] = destination_element_address.to_be_bytes();
            let flags = flag(INVERT_BIT, invert);
            zero_padded(&[POSITION_TO_ELEMENT, 0, t1, t0, d1, d0, 0, 0, flags])
        }
        HostRequest::InitializeElementStatusWithRange {
            fast,
            range,
            starting_element_address,
            number_of_elements,
        } => {
            let flags = flag(FAST_BIT, fast) + flag(RANGE_BIT, range);
            let [s1, s0] = starting_element_address.to_be_bytes();
            let [e1, e0] = number_of_elements.to_be_bytes();
            zero_padded(&[
                INITIALIZE_ELEMENT_STATUS_WITH_RANGE,
                flags,
                s1,
                s0,
                0,
                0,
                e1,
                e0,
            ])
        }
        HostRequest::ExchangeMedium {
            medium_transport_element_address,
            source_element_address,
            first_destination_element_address,
            second_destination_element_address,
            invert_first,
            invert_second,
        } => {
            let [t1, t0] = medium_transport_element_address.to_be_bytes();
            let [s1, s0] = source_element_address.to_be_bytes();
            let [f1, f0] = first_destination_element_address.to_be_bytes();
            let [d1, d0] = second_destination_element_address.to_be_bytes();
            let flags = flag(INV1_BIT, invert_first) + flag(INV2_BIT, invert_second);
            zero_padded(&[EXCHANGE_MEDIUM, 0, t1, t0, s1, s0, f1, f0, d1, d0, flags])
        }
    }
}
