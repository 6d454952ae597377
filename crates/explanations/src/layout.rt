//! Places, lengths and codes in the data of replies, by the standards' names.

/// The header of a list: of PERSISTENT RESERVE IN, REPORT LUNS and READ ELEMENT STATUS, and of a page of
/// element status.
pub const HEADER_LENGTH: usize = 8;

// PERSISTENT RESERVE IN (SPC-4, "PERSISTENT RESERVE IN command").
pub const GENERATION: usize = 0;

pub const GENERATION_LENGTH: usize = 4;

pub const ADDITIONAL_LENGTH: usize = 4;

pub const KEY_LENGTH: usize = 8;

// READ RESERVATION, behind the header.
pub const SCOPE_AND_TYPE: usize = 13;

// A full status descriptor with the TransportID of a SAS port.
pub const REGISTRATION_LENGTH: usize = 48;

pub const HOLDER_FLAGS: usize = 12;

pub const R_HOLDER_BIT: u8 = 0;

pub const REGISTRATION_TYPE: usize = 13;

pub const RELATIVE_TARGET_PORT: usize = 18;

pub const TRANSPORT_ID_LENGTH_PLACE: usize = 20;

pub const TRANSPORT_ID_LENGTH: u32 = 24;

pub const TRANSPORT_ID: usize = 24;

pub const SAS_FORMAT: u8 = 0x06;

pub const SAS_ADDRESS: usize = 28;

pub const SAS_ADDRESS_LENGTH: usize = 8;

// Standard INQUIRY data (SPC-4, "Standard INQUIRY data").
pub const PERIPHERAL: usize = 0;

pub const DEVICE_TYPE_BITS: u8 = 0x1F;

pub const PERIPHERAL_QUALIFIER_PLACE: u8 = 5;

pub const CONNECTED: u8 = 0;

pub const NOT_CONNECTED: u8 = 1;

pub const NOT_SUPPORTED: u8 = 3;

pub const SEQUENTIAL_ACCESS_DEVICE: u8 = 0x01;

pub const MEDIUM_CHANGER: u8 = 0x08;

pub const NO_DEVICE_TYPE: u8 = 0x1F;

pub const INQUIRY_ADDITIONAL_LENGTH: usize = 4;

pub const FOLLOWS_ADDITIONAL_LENGTH: usize = 5;

pub const VENDOR: usize = 8;

pub const VENDOR_LENGTH: usize = 8;

pub const PRODUCT: usize = 16;

pub const PRODUCT_LENGTH: usize = 16;

pub const REVISION: usize = 32;

pub const REVISION_LENGTH: usize = 4;

// A VPD page (SPC-4, "Vital product data parameters").
pub const PAGE_CODE: usize = 1;

pub const PAGE_LENGTH: usize = 2;

pub const PAGE_HEADER_LENGTH: usize = 4;

// REPORT LUNS (SPC-4, "REPORT LUNS command").
pub const LUN_LIST_LENGTH: usize = 0;

pub const LUN_LENGTH: usize = 8;

// READ POSITION, the short form (SSC-4, "READ POSITION command").
pub const POSITION_FLAGS: usize = 0;

pub const BOP_BIT: u8 = 7;

pub const LOGICAL_OBJECT_NUMBER: usize = 4;

pub const LOGICAL_OBJECT_NUMBER_LENGTH: usize = 4;

pub const POSITION_LENGTH: u64 = 20;

// MODE SENSE(6), and with other places MODE SENSE(10) (SPC-4, "Mode parameter list formats"; SSC-4, "Mode parameters").
pub const MODE_DATA_LENGTH: usize = 0;

pub const MEDIUM_TYPE: usize = 1;

pub const DEVICE_SPECIFIC_PARAMETER: usize = 2;

pub const WP_BIT: u8 = 7;

pub const BLOCK_DESCRIPTOR_LENGTH: usize = 3;

pub const MODE_HEADER_LENGTH: usize = 4;

pub const LONG_MEDIUM_TYPE: usize = 2;

pub const LONG_DEVICE_SPECIFIC_PARAMETER: usize = 3;

pub const LONG_BLOCK_DESCRIPTOR_LENGTH: usize = 6;

pub const LONG_MODE_HEADER_LENGTH: usize = 8;

/// A block descriptor, which begins with the density code.
pub const BLOCK_DESCRIPTOR: u16 = 8;

pub const BLOCK_DESCRIPTOR_SIZE: usize = 8;

pub const BLOCK_LENGTH: usize = 5;

// LOG SENSE (SPC-4, "Log page structure and log parameter structure").
pub const LOG_PAGE_BITS: u8 = 0x3F;

pub const SUBPAGE_FORMAT_BIT: u8 = 6;

// REPORT SUPPORTED OPERATION CODES (SPC-4, "REPORT SUPPORTED OPERATION CODES command").
pub const COMMAND_DATA_LENGTH: usize = 0;

pub const COMMAND_DATA_HEADER: usize = 4;

pub const COMMAND_LENGTH: usize = 8;

/// A command descriptor with a command timeouts descriptor.
pub const TIMED_COMMAND_LENGTH: usize = 20;

pub const SERVICE_ACTION: usize = 2;

pub const SERVICE_ACTION_LENGTH: usize = 2;

pub const COMMAND_FLAGS: usize = 5;

pub const SERVICE_ACTION_VALID_BIT: u8 = 0;

pub const SUPPORT: usize = 1;

pub const SUPPORT_BITS: u8 = 0x07;

pub const NOT_A_COMMAND: u8 = 1;

pub const AS_THE_STANDARD: u8 = 3;

pub const TIMEOUTS_BIT: u8 = 7;

pub const USAGE_LENGTH: usize = 2;

pub const USAGE: usize = 4;

pub const TIMEOUTS_LENGTH: u64 = 12;

// REPORT SUPPORTED TASK MANAGEMENT FUNCTIONS (SPC-4, the command's clause).
pub const FUNCTIONS: usize = 0;

pub const FUNCTIONS_LENGTH: usize = 4;

pub const ADDITIONAL_FUNCTIONS_LENGTH: usize = 3;

// READ ELEMENT STATUS (SMC-3, "READ ELEMENT STATUS command"): bytes that follow the header, or a page's.
pub const BYTES_THAT_FOLLOW: usize = 5;

pub const ELEMENT_TYPE: usize = 0;

pub const PAGE_FLAGS: usize = 1;

pub const PVOLTAG_BIT: u8 = 7;

pub const DESCRIPTOR_LENGTH: usize = 2;

pub const ELEMENT_ADDRESS_LENGTH: usize = 2;

pub const ELEMENT_FLAGS: usize = 2;

pub const FULL_BIT: u8 = 0;

pub const SOURCE_FLAGS: usize = 9;

pub const SVALID_BIT: u8 = 7;

pub const SOURCE: usize = 10;

pub const VOLUME_TAG: usize = 12;

pub const VOLUME_TAG_LENGTH: usize = 32;

pub const MEDIUM_TRANSPORT: u8 = 1;

pub const STORAGE: u8 = 2;

pub const IMPORT_EXPORT: u8 = 3;

pub const DATA_TRANSFER: u8 = 4;
