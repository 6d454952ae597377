//! Operation codes, service action codes, lengths and places of the commands (SPC-4, SSC-4, SMC-3).

/// The longest CDB that is written: 12 bytes of command and four of zero.
pub const CDB_LENGTH: usize = 16;

// Operation codes.
pub const TEST_UNIT_READY: u8 = 0x00;

pub const REWIND: u8 = 0x01;

pub const REQUEST_SENSE: u8 = 0x03;

pub const READ_BLOCK_LIMITS: u8 = 0x05;

pub const INITIALIZE_ELEMENT_STATUS: u8 = 0x07;

pub const READ_6: u8 = 0x08;

pub const WRITE_6: u8 = 0x0A;

pub const WRITE_FILEMARKS_6: u8 = 0x10;

pub const SPACE_6: u8 = 0x11;

pub const INQUIRY: u8 = 0x12;

pub const MODE_SELECT_6: u8 = 0x15;

pub const ERASE_6: u8 = 0x19;

pub const MODE_SENSE_6: u8 = 0x1A;

pub const LOAD_UNLOAD: u8 = 0x1B;

pub const PREVENT_ALLOW_MEDIUM_REMOVAL: u8 = 0x1E;

pub const LOCATE_10: u8 = 0x2B;

pub const READ_POSITION: u8 = 0x34;

pub const PERSISTENT_RESERVE_IN: u8 = 0x5E;

pub const PERSISTENT_RESERVE_OUT: u8 = 0x5F;

pub const REPORT_LUNS: u8 = 0xA0;

pub const MOVE_MEDIUM: u8 = 0xA5;

pub const READ_ELEMENT_STATUS: u8 = 0xB8;

// Operation codes that only the hosts' profile has.
pub const SEND_DIAGNOSTIC: u8 = 0x1D;

/// Of a changer; of a drive the code is that of LOCATE(10).
pub const POSITION_TO_ELEMENT: u8 = 0x2B;

pub const INITIALIZE_ELEMENT_STATUS_WITH_RANGE: u8 = 0x37;

pub const LOG_SELECT: u8 = 0x4C;

pub const LOG_SENSE: u8 = 0x4D;

pub const MODE_SELECT_10: u8 = 0x55;

pub const MODE_SENSE_10: u8 = 0x5A;

pub const MAINTENANCE_IN: u8 = 0xA3;

pub const EXCHANGE_MEDIUM: u8 = 0xA6;

// Service actions of MAINTENANCE IN.
pub const REPORT_SUPPORTED_OPERATION_CODES: u8 = 0x0C;

pub const REPORT_SUPPORTED_TASK_MANAGEMENT_FUNCTIONS: u8 = 0x0D;

// Service actions of READ POSITION.
pub const SHORT_FORM_BLOCK_ID: u8 = 0x00;

pub const SHORT_FORM_VENDOR_SPECIFIC: u8 = 0x01;

// Service actions of PERSISTENT RESERVE IN.
pub const READ_KEYS: u8 = 0x00;

pub const READ_RESERVATION: u8 = 0x01;

pub const REPORT_CAPABILITIES: u8 = 0x02;

pub const READ_FULL_STATUS: u8 = 0x03;

/// The group code of an operation code is what stands above its five low bits.
pub const GROUP_CODE: u8 = 0x20;

// Lengths of CDBs.
pub const SIX_BYTES: usize = 6;

pub const TEN_BYTES: usize = 10;

pub const TWELVE_BYTES: usize = 12;

/// The byte of flags of most commands.
pub const FLAGS: usize = 1;

/// NACA in the CONTROL byte, the last of the command.
pub const NACA_BIT: u8 = 2;

// REQUEST SENSE, byte 1, and a place.
pub const DESC_BIT: u8 = 0;

pub const REQUEST_SENSE_ALLOCATION_LENGTH: usize = 4;

// READ(6) and WRITE(6), byte 1, and a place.
pub const SILI_BIT: u8 = 1;

pub const FIXED_BIT: u8 = 0;

pub const TRANSFER_LENGTH: usize = 2;

// WRITE FILEMARKS(6), byte 1, and a place.
pub const WSMK_BIT: u8 = 1;

pub const IMMED_BIT: u8 = 0;

pub const FILEMARK_COUNT: usize = 2;

// SPACE(6): places, and the bits of the code.
pub const SPACE_CODE: usize = 1;

pub const SPACE_CODE_BITS: u8 = 0x0F;

pub const SPACE_COUNT: usize = 2;

/// How many numbers 24 bits have.
pub const NUMBERS_OF_24_BITS: i32 = 0x0100_0000;

/// From here on, 24 bits of two's complement stand for a negative number.
pub const FIRST_NEGATIVE_OF_24_BITS: i32 = 0x0080_0000;

// INQUIRY, byte 1, and places.
pub const EVPD_BIT: u8 = 0;

pub const INQUIRY_PAGE_CODE: usize = 2;

pub const INQUIRY_ALLOCATION_LENGTH: usize = 3;

// REPORT LUNS.
pub const SELECT_REPORT: usize = 2;

pub const REPORT_LUNS_ALLOCATION_LENGTH: usize = 6;

// MODE SELECT(6), byte 1, and a place.
pub const SP_BIT: u8 = 0;

pub const MODE_SELECT_PARAMETER_LIST_LENGTH: usize = 4;

// MODE SENSE(6), byte 1, then byte 2: PC in the high two bits, the page code below; and places.
pub const DBD_BIT: u8 = 3;

pub const MODE_SENSE_PAGE: usize = 2;

pub const PAGE_CONTROL_BITS: u8 = 0x03;

pub const PAGE_CONTROL_PLACE: u8 = 6;

pub const PAGE_CODE_BITS: u8 = 0x3F;

pub const MODE_SENSE_SUBPAGE_CODE: usize = 3;

pub const MODE_SENSE_ALLOCATION_LENGTH: usize = 4;

// MODE SELECT(10), MODE SENSE(10), LOG SELECT and LOG SENSE: the place of their list or allocation length.
pub const TEN_BYTES_LENGTH: usize = 7;

// SEND DIAGNOSTIC, byte 1, and a place.
pub const SELF_TEST_CODE_BITS: u8 = 0x07;

pub const SELF_TEST_CODE_PLACE: u8 = 5;

pub const SELFTEST_BIT: u8 = 2;

pub const SEND_DIAGNOSTIC_PARAMETER_LIST_LENGTH: usize = 3;

// LOG SELECT and LOG SENSE, byte 1; then PC and the page code as in MODE SENSE(6); and places.
pub const PCR_BIT: u8 = 1;

pub const PPC_BIT: u8 = 1;

pub const LOG_PAGE: usize = 2;

pub const LOG_SUBPAGE_CODE: usize = 3;

pub const LOG_PARAMETER_POINTER: usize = 5;

// REPORT SUPPORTED OPERATION CODES and REPORT SUPPORTED TASK MANAGEMENT FUNCTIONS, byte 2, and places.
pub const REPORT_FLAGS: usize = 2;

pub const RCTD_BIT: u8 = 7;

pub const REPD_BIT: u8 = 7;

pub const REPORTING_OPTIONS_BITS: u8 = 0x07;

pub const REQUESTED_OPERATION_CODE: usize = 3;

pub const REQUESTED_SERVICE_ACTION: usize = 4;

pub const REPORT_ALLOCATION_LENGTH: usize = 6;

// LOAD UNLOAD, byte 4.
pub const LOAD_UNLOAD_FLAGS: usize = 4;

pub const HOLD_BIT: u8 = 3;

pub const EOT_BIT: u8 = 2;

pub const LOAD_BIT: u8 = 0;

// PREVENT ALLOW MEDIUM REMOVAL.
pub const PREVENT: usize = 4;

pub const PREVENT_BITS: u8 = 0x03;

// LOCATE(10), byte 1, and places.
pub const BT_BIT: u8 = 2;

pub const CP_BIT: u8 = 1;

pub const LOGICAL_OBJECT_IDENTIFIER: usize = 3;

pub const LOCATE_PARTITION: usize = 8;

// Commands with service actions: the byte of the service action, and its bits.
pub const SERVICE_ACTION: usize = 1;

pub const SERVICE_ACTION_BITS: u8 = 0x1F;

// PERSISTENT RESERVE IN.
pub const RESERVE_IN_ALLOCATION_LENGTH: usize = 7;

// PERSISTENT RESERVE OUT.
pub const RESERVE_OUT_SCOPE_TYPE: usize = 2;

pub const RESERVE_OUT_PARAMETER_LIST_LENGTH: usize = 5;

// MOVE MEDIUM: places, and byte 10.
pub const MEDIUM_TRANSPORT_ELEMENT_ADDRESS: usize = 2;

pub const SOURCE_ELEMENT_ADDRESS: usize = 4;

pub const DESTINATION_ELEMENT_ADDRESS: usize = 6;

pub const MOVE_MEDIUM_FLAGS: usize = 10;

pub const INVERT_BIT: u8 = 0;

// POSITION TO ELEMENT: the medium transport element as in MOVE MEDIUM, a place, and byte 8.
pub const POSITION_DESTINATION_ELEMENT_ADDRESS: usize = 4;

pub const POSITION_FLAGS: usize = 8;

// EXCHANGE MEDIUM: the medium transport element and the source as in MOVE MEDIUM, places, and byte 10.
pub const FIRST_DESTINATION_ELEMENT_ADDRESS: usize = 6;

pub const SECOND_DESTINATION_ELEMENT_ADDRESS: usize = 8;

pub const EXCHANGE_MEDIUM_FLAGS: usize = 10;

pub const INV1_BIT: u8 = 1;

pub const INV2_BIT: u8 = 0;

// INITIALIZE ELEMENT STATUS WITH RANGE, byte 1; then the first element as in READ ELEMENT STATUS, and a place.
pub const FAST_BIT: u8 = 1;

pub const RANGE_BIT: u8 = 0;

pub const RANGE_NUMBER_OF_ELEMENTS: usize = 6;

// READ ELEMENT STATUS, byte 1, then places, and byte 6.
pub const VOLTAG_BIT: u8 = 4;

pub const ELEMENT_TYPE_BITS: u8 = 0x0F;

pub const STARTING_ELEMENT_ADDRESS: usize = 2;

pub const NUMBER_OF_ELEMENTS: usize = 4;

pub const ELEMENT_STATUS_ALLOCATION_LENGTH: usize = 7;

pub const ELEMENT_STATUS_FLAGS: usize = 6;

pub const CURDATA_BIT: u8 = 1;

pub const DVCID_BIT: u8 = 0;

// Service actions of PERSISTENT RESERVE OUT.
pub const REGISTER: u8 = 0x00;

pub const RESERVE: u8 = 0x01;

pub const RELEASE: u8 = 0x02;

pub const CLEAR: u8 = 0x03;

pub const PREEMPT: u8 = 0x04;

pub const PREEMPT_AND_ABORT: u8 = 0x05;

pub const REGISTER_AND_IGNORE_EXISTING_KEY: u8 = 0x06;

pub const REGISTER_AND_MOVE: u8 = 0x07;
