//! Lengths and codes of INQUIRY data (SPC-4, "INQUIRY command", "Vital product data parameters"; SSC-4, "Vital product data parameters").

/// The length of standard INQUIRY data, in bytes.
pub const STANDARD_INQUIRY_LENGTH: usize = 96;

/// The length of a unit's serial number, in characters.
pub const SERIAL_NUMBER_LENGTH: usize = 10;

/// The length of a drive's device identifier, in bytes.
pub const DEVICE_IDENTIFIER_LENGTH: usize = 38;

/// The length of a library's number as text, in characters.
pub const LIBRARY_NUMBER_LENGTH: usize = 8;

/// The hexadecimal digits of upper case by their values.
pub(crate) const UPPER_DIGITS: &[u8; 16] = b"0123456789ABCDEF";

/// The logical unit number of a library's changer (profile).
pub(crate) const CHANGER_LUN: u8 = 0;

// PERIPHERAL DEVICE TYPE.
pub(crate) const SEQUENTIAL_ACCESS_DEVICE: u8 = 0x01;

pub(crate) const MEDIA_CHANGER: u8 = 0x08;

// PAGE CODE of vital product data.
pub(crate) const SUPPORTED_PAGES: u8 = 0x00;

pub(crate) const UNIT_SERIAL_NUMBER: u8 = 0x80;

pub(crate) const DEVICE_IDENTIFICATION: u8 = 0x83;

pub(crate) const EXTENDED_INQUIRY_DATA: u8 = 0x86;

pub(crate) const MODE_PAGE_POLICY: u8 = 0x87;

pub(crate) const SEQUENTIAL_ACCESS_DEVICE_CAPABILITIES: u8 = 0xB0;

pub(crate) const MANUFACTURER_ASSIGNED_SERIAL_NUMBER: u8 = 0xB1;

pub(crate) const TAPE_ALERT_SUPPORTED_FLAGS: u8 = 0xB2;

pub(crate) const AUTOMATION_DEVICE_SERIAL_NUMBER: u8 = 0xB3;

pub(crate) const DATA_TRANSFER_DEVICE_ELEMENT_ADDRESS: u8 = 0xB4;

/// The length of the header of vital product data, in bytes.
pub(crate) const PAGE_HEADER_LENGTH: usize = 4;

// CODE SET of a designation descriptor.
pub(crate) const BINARY: u8 = 0x01;

// ASSOCIATION and DESIGNATOR TYPE of a designation descriptor.
pub(crate) const NAA_OF_UNIT: u8 = 0x03;

pub(crate) const RELATIVE_PORT_OF_TARGET_PORT: u8 = 0x14;

/// The NAA field, and four zero bits.
pub(crate) const NAA_LOCALLY_ASSIGNED: u8 = 0x30;

// Lengths of designation descriptors, header and designator, in bytes.
pub(crate) const NAA_DESIGNATION_LENGTH: usize = 12;

pub(crate) const RELATIVE_PORT_DESIGNATION_LENGTH: usize = 8;

/// The length of what precedes the serial number in a designation descriptor by the T10 vendor identification, in bytes.
pub(crate) const T10_VENDOR_ID_START_LENGTH: usize = 28;

// Places of the designation descriptors of a Device Identification page after its header, and their length in all.
pub(crate) const T10_VENDOR_ID_PLACE: usize = 12;

pub(crate) const RELATIVE_PORT_PLACE: usize = 50;

pub(crate) const DEVICE_IDENTIFICATION_LENGTH: usize = 58;

/// The codes of the pages that a changer has.
pub(crate) const PAGES_OF_CHANGERS: [u8; 5] = [
    SUPPORTED_PAGES,
    UNIT_SERIAL_NUMBER,
    DEVICE_IDENTIFICATION,
    EXTENDED_INQUIRY_DATA,
    MODE_PAGE_POLICY,
];

/// The codes of the pages that a drive has.
pub(crate) const PAGES_OF_DRIVES: [u8; 10] = [
    SUPPORTED_PAGES,
    UNIT_SERIAL_NUMBER,
    DEVICE_IDENTIFICATION,
    EXTENDED_INQUIRY_DATA,
    MODE_PAGE_POLICY,
    SEQUENTIAL_ACCESS_DEVICE_CAPABILITIES,
    MANUFACTURER_ASSIGNED_SERIAL_NUMBER,
    TAPE_ALERT_SUPPORTED_FLAGS,
    AUTOMATION_DEVICE_SERIAL_NUMBER,
    DATA_TRANSFER_DEVICE_ELEMENT_ADDRESS,
];

/// The content of an Extended INQUIRY Data page: SIMPSUP, LUICLR, and MAXIMUM SUPPORTED SENSE DATA LENGTH.
pub(crate) const SIMPLE_TASKS: &[u8; 60] = b"\x00\x01\x00\x01\x00\x00\x00\x00\x00\x12\
    \x00\x00\x00\x00\x00\x00\x00\x00\x00\x00\x00\x00\x00\x00\x00\x00\x00\x00\x00\x00\x00\x00\x00\x00\x00\
    \x00\x00\x00\x00\x00\x00\x00\x00\x00\x00\x00\x00\x00\x00\x00\x00\x00\x00\x00\x00\x00\x00\x00\x00\x00";

/// The content of a Mode Page Policy page: one descriptor, of all pages and subpages, which are shared.
pub(crate) const ALL_MODE_PAGES_SHARED: &[u8; 4] = &[0x3F, 0xFF, 0x00, 0x00];

/// The content of a Sequential-access Device Capabilities page, WORM 0.
pub(crate) const NO_WORM: &[u8; 2] = &[0x00, 0x00];

/// The content of a TapeAlert Supported Flags page, a bit for each of 64 flags.
pub(crate) const NO_FLAGS: &[u8; 8] = &[0x00; 8];
