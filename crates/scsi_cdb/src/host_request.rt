ghost use Rattle.std.specs.Prelude.{◌≡◌};

use crate::classes::Class;

/// A command that only the hosts' profile has, with its fields, each as the CDB has it. A field of bits is in the low bits of its number.
#[derive(Clone, Copy)]
pub enum HostRequest {
    SendDiagnostic {
        /// SELF-TEST CODE: 3 bits.
        self_test_code: u8,
        /// SELFTEST.
        self_test: bool,
        parameter_list_length: u16,
    },
    LogSelect {
        /// PCR.
        parameter_code_reset: bool,
        /// SP.
        save_parameters: bool,
        /// PC: 2 bits.
        page_control: u8,
        /// 6 bits.
        page_code: u8,
        subpage_code: u8,
        parameter_list_length: u16,
    },
    LogSense {
        /// PPC.
        parameter_pointer_control: bool,
        /// SP.
        save_parameters: bool,
        /// PC: 2 bits.
        page_control: u8,
        /// 6 bits.
        page_code: u8,
        subpage_code: u8,
        parameter_pointer: u16,
        allocation_length: u16,
    },
    /// MODE SELECT(10).
    ModeSelect10 {
        /// SP.
        save_pages: bool,
        parameter_list_length: u16,
    },
    /// MODE SENSE(10).
    ModeSense10 {
        /// DBD.
        disable_block_descriptors: bool,
        /// PC: 2 bits.
        page_control: u8,
        /// 6 bits.
        page_code: u8,
        subpage_code: u8,
        allocation_length: u16,
    },
    ReportSupportedOperationCodes {
        /// RCTD.
        return_command_timeouts: bool,
        /// 3 bits.
        reporting_options: u8,
        requested_operation_code: u8,
        requested_service_action: u16,
        allocation_length: u32,
    },
    ReportSupportedTaskManagementFunctions {
        /// REPD.
        return_extended_data: bool,
        allocation_length: u32,
    },
    PositionToElement {
        medium_transport_element_address: u16,
        destination_element_address: u16,
        invert: bool,
    },
    InitializeElementStatusWithRange {
        fast: bool,
        range: bool,
        starting_element_address: u16,
        number_of_elements: u16,
    },
    ExchangeMedium {
        medium_transport_element_address: u16,
        source_element_address: u16,
        first_destination_element_address: u16,
        second_destination_element_address: u16,
        /// INV1.
        invert_first: bool,
        /// INV2.
        invert_second: bool,
    },
}

impl HostRequest {
    ghost use Rattle.scsi_cdb.specs.HostCommands.{host_class_of};

    /// The class of the command: the row of the permission table that it is judged by.
    pub fn class(&self) -> Class
        ensures { result ≡ host_class_of self.now }
    {
        match self {
            HostRequest::SendDiagnostic { .. } => Class::SendDiagnostic,
            HostRequest::LogSelect { .. } => Class::LogSelect,
            HostRequest::LogSense { .. } => Class::LogSense,
            HostRequest::ModeSelect10 { .. } => Class::ModeSelect10,
            HostRequest::ModeSense10 { .. } => Class::ModeSense10,
            HostRequest::ReportSupportedOperationCodes { .. } => {
                Class::ReportSupportedOperationCodes
            }
            HostRequest::ReportSupportedTaskManagementFunctions { .. } => {
                Class::ReportSupportedTaskManagementFunctions
            }
            HostRequest::PositionToElement { .. } => Class::PositionToElement,
            HostRequest::InitializeElementStatusWithRange { .. } => Class::InitializeElementStatus,
            HostRequest::ExchangeMedium { .. } => Class::ExchangeMedium,
        }
    }
}
