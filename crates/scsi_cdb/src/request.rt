use crate::action::InServiceAction;
use crate::host_request::HostRequest;
use crate::service_action::OutServiceAction;

/// A command with its fields, each as the CDB has it. A field of bits is in the low bits of its
/// number.
#[derive(Clone, Copy)]
pub enum Request {
    TestUnitReady,
    Rewind,
    RequestSense {
        /// DESC.
        descriptor_format: bool,
        allocation_length: u8,
    },
    ReadBlockLimits,
    InitializeElementStatus,
    /// READ(6).
    Read {
        /// SILI.
        suppress_incorrect_length: bool,
        fixed: bool,
        /// Bytes of one block, or with FIXED a number of blocks: 24 bits.
        transfer_length: u32,
    },
    /// WRITE(6).
    Write {
        fixed: bool,
        /// As for READ(6).
        transfer_length: u32,
    },
    /// WRITE FILEMARKS(6).
    WriteFilemarks {
        /// WSMK.
        write_setmarks: bool,
        /// IMMED.
        immediate: bool,
        /// 24 bits.
        filemark_count: u32,
    },
    /// SPACE(6).
    Space {
        /// 4 bits.
        code: u8,
        /// 24 bits with the sign, as two's complement; negative goes back.
        count: i32,
    },
    Inquiry {
        /// EVPD.
        vital_product_data: bool,
        page_code: u8,
        allocation_length: u16,
    },
    /// MODE SELECT(6).
    ModeSelect {
        /// SP.
        save_pages: bool,
        parameter_list_length: u8,
    },
    /// ERASE(6).
    Erase,
    /// MODE SENSE(6).
    ModeSense {
        /// DBD.
        disable_block_descriptors: bool,
        /// PC: 2 bits.
        page_control: u8,
        /// 6 bits.
        page_code: u8,
        subpage_code: u8,
        allocation_length: u8,
    },
    LoadUnload {
        hold: bool,
        /// EOT.
        end_of_tape: bool,
        load: bool,
    },
    PreventAllowMediumRemoval {
        /// 2 bits.
        prevent: u8,
    },
    /// LOCATE(10).
    Locate {
        /// BT.
        block_address_type: bool,
        /// CP.
        change_partition: bool,
        logical_object_identifier: u32,
        /// PARTITION, which counts with CP alone.
        partition: u8,
    },
    /// READ POSITION with service action 00h, the short form.
    ReadPosition,
    PersistentReserveIn {
        service_action: InServiceAction,
        allocation_length: u16,
    },
    PersistentReserveOut {
        service_action: OutServiceAction,
        /// SCOPE in the high four bits, TYPE in the low four.
        scope_type: u8,
        parameter_list_length: u32,
    },
    ReportLuns {
        select_report: u8,
        allocation_length: u32,
    },
    MoveMedium {
        medium_transport_element_address: u16,
        source_element_address: u16,
        destination_element_address: u16,
        invert: bool,
    },
    ReadElementStatus {
        /// VOLTAG.
        volume_tags: bool,
        /// 4 bits.
        element_type_code: u8,
        starting_element_address: u16,
        number_of_elements: u16,
        /// CURDATA.
        current_data: bool,
        /// DVCID.
        device_identifiers: bool,
        /// 24 bits.
        allocation_length: u32,
    },
    /// A command that only the hosts' profile has.
    Host(HostRequest),
}
