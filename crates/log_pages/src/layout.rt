//! Page codes, lengths and bits of log pages (SPC-4, "Log parameters"; SSC-4, "Log parameters").

/// No data of LOG SENSE is longer, in bytes.
pub const LONGEST_LOG_DATA: usize = 1_024;

/// What a number of megabytes of the volume is while no volume is loaded (profile).
pub const NO_VOLUME: u32 = 0xFFFF_FFFF;

/// The greatest number of megabytes or mebibytes that a parameter shows (profile).
pub const MOST_SHOWN: u64 = 0xFFFF_FFFE;

/// A megabyte, in bytes.
pub const MEGABYTE: u64 = 1_000_000;

/// A mebibyte, in bytes.
pub const MEBIBYTE: u64 = 1_048_576;

// Page codes.
pub const SUPPORTED_LOG_PAGES: u8 = 0x00;

pub const WRITE_ERROR_COUNTERS: u8 = 0x02;

pub const READ_ERROR_COUNTERS: u8 = 0x03;

pub const SEQUENTIAL_ACCESS_DEVICE: u8 = 0x0C;

pub const TAPE_ALERT: u8 = 0x2E;

pub const TAPE_CAPACITY: u8 = 0x31;

// Subpage codes.
pub const NO_SUBPAGE: u8 = 0x00;

pub const ALL_SUBPAGES: u8 = 0xFF;

/// SPF, in the byte of the page code: the next byte is a subpage code.
pub const SUBPAGE_FORMAT: u8 = 0x40;

/// What stands for the last parameter code of a page that has no parameters (profile).
pub const NO_PARAMETER: u16 = 0x0000;

// Parameter codes of the Write Error Counter and the Read Error Counter page.
pub const ERRORS_CORRECTED_WITHOUT_SUBSTANTIAL_DELAY: u16 = 0x0000;

pub const ERRORS_CORRECTED_WITH_POSSIBLE_DELAYS: u16 = 0x0001;

pub const TOTAL_REWRITES_OR_REREADS: u16 = 0x0002;

pub const TOTAL_ERRORS_CORRECTED: u16 = 0x0003;

pub const TOTAL_TIMES_CORRECTION_ALGORITHM_PROCESSED: u16 = 0x0004;

pub const TOTAL_BYTES_PROCESSED: u16 = 0x0005;

pub const TOTAL_UNCORRECTED_ERRORS: u16 = 0x0006;

// Parameter codes of the Sequential-Access Device page.
pub const DATA_BYTES_RECEIVED: u16 = 0x0000;

pub const DATA_BYTES_WRITTEN: u16 = 0x0001;

pub const DATA_BYTES_READ: u16 = 0x0002;

pub const DATA_BYTES_SENT: u16 = 0x0003;

pub const CAPACITY_TO_END_OF_DATA: u16 = 0x0004;

pub const CAPACITY_TO_EARLY_WARNING: u16 = 0x0005;

pub const CAPACITY_FROM_EARLY_WARNING: u16 = 0x0006;

pub const CAPACITY_TO_POSITION: u16 = 0x0007;

pub const CAPACITY_IN_OBJECT_BUFFER: u16 = 0x0008;

pub const CLEANING_REQUIRED: u16 = 0x0100;

/// The last flag of the TapeAlert page, which has flags from 1 on.
pub const LAST_TAPE_ALERT_FLAG: u16 = 0x0040;

// Parameter codes of the Tape Capacity page.
pub const REMAINING_CAPACITY_OF_PARTITION_0: u16 = 0x0001;

pub const REMAINING_CAPACITY_OF_PARTITION_1: u16 = 0x0002;

pub const MAXIMUM_CAPACITY_OF_PARTITION_0: u16 = 0x0003;

pub const MAXIMUM_CAPACITY_OF_PARTITION_1: u16 = 0x0004;

/// No page has more parameters.
pub const MOST_PARAMETERS: usize = 64;

/// No parameter is longer, in bytes.
pub const LONGEST_PARAMETER: usize = 12;

/// FORMAT AND LINKING of a control byte: binary format list, for parameters that are numbers.
pub const BINARY_FORMAT_LIST: u8 = 0x03;

// Lengths of values.
pub const ONE_BYTE: u8 = 1;

pub const FOUR_BYTES: u8 = 4;

pub const EIGHT_BYTES: u8 = 8;

// Supported Log Pages, and Supported Log Pages and Subpages, of each kind of unit.
pub const DRIVE_LOG_PAGES: [u8; 10] = [
    SUPPORTED_LOG_PAGES,
    NO_SUBPAGE,
    0x00,
    6,
    SUPPORTED_LOG_PAGES,
    WRITE_ERROR_COUNTERS,
    READ_ERROR_COUNTERS,
    SEQUENTIAL_ACCESS_DEVICE,
    TAPE_ALERT,
    TAPE_CAPACITY,
];

pub const DRIVE_LOG_PAGES_AND_SUBPAGES: [u8; 18] = [
    SUBPAGE_FORMAT | SUPPORTED_LOG_PAGES,
    ALL_SUBPAGES,
    0x00,
    14,
    SUPPORTED_LOG_PAGES,
    NO_SUBPAGE,
    SUPPORTED_LOG_PAGES,
    ALL_SUBPAGES,
    WRITE_ERROR_COUNTERS,
    NO_SUBPAGE,
    READ_ERROR_COUNTERS,
    NO_SUBPAGE,
    SEQUENTIAL_ACCESS_DEVICE,
    NO_SUBPAGE,
    TAPE_ALERT,
    NO_SUBPAGE,
    TAPE_CAPACITY,
    NO_SUBPAGE,
];

pub const CHANGER_LOG_PAGES: [u8; 6] = [
    SUPPORTED_LOG_PAGES,
    NO_SUBPAGE,
    0x00,
    2,
    SUPPORTED_LOG_PAGES,
    TAPE_ALERT,
];

pub const CHANGER_LOG_PAGES_AND_SUBPAGES: [u8; 10] = [
    SUBPAGE_FORMAT | SUPPORTED_LOG_PAGES,
    ALL_SUBPAGES,
    0x00,
    6,
    SUPPORTED_LOG_PAGES,
    NO_SUBPAGE,
    SUPPORTED_LOG_PAGES,
    ALL_SUBPAGES,
    TAPE_ALERT,
    NO_SUBPAGE,
];
