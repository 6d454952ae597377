//! Operation codes, lengths and places of the fields of a basic header segment (RFC 7143, "iSCSI PDU Formats").

/// How many bytes a basic header segment has.
pub const BASIC_HEADER_SEGMENT: usize = 48;

// Opcodes of an initiator.
pub(crate) const NOP_OUT: u8 = 0x00;

pub(crate) const SCSI_COMMAND: u8 = 0x01;

pub(crate) const TASK_MANAGEMENT_REQUEST: u8 = 0x02;

pub(crate) const LOGIN_REQUEST: u8 = 0x03;

pub(crate) const TEXT_REQUEST: u8 = 0x04;

pub(crate) const DATA_OUT: u8 = 0x05;

pub(crate) const LOGOUT_REQUEST: u8 = 0x06;

pub(crate) const SNACK_REQUEST: u8 = 0x10;

// Opcodes of a target.
pub(crate) const NOP_IN: u8 = 0x20;

pub(crate) const SCSI_RESPONSE: u8 = 0x21;

pub(crate) const TASK_MANAGEMENT_RESPONSE: u8 = 0x22;

pub(crate) const LOGIN_RESPONSE: u8 = 0x23;

pub(crate) const TEXT_RESPONSE: u8 = 0x24;

pub(crate) const DATA_IN: u8 = 0x25;

pub(crate) const LOGOUT_RESPONSE: u8 = 0x26;

pub(crate) const R2T: u8 = 0x31;

pub(crate) const ASYNC_MESSAGE: u8 = 0x32;

pub(crate) const REJECT: u8 = 0x3F;

/// Byte 0: the immediate bit above the opcode.
pub(crate) const OPCODE: usize = 0;

pub(crate) const OPCODE_BITS: u8 = 0x3F;

pub(crate) const IMMEDIATE_BIT: u8 = 6;

pub(crate) const IMMEDIATE: u8 = 0x40;

/// Byte 1, and its bits.
pub(crate) const FLAGS: usize = 1;

pub(crate) const FINAL_BIT: u8 = 7;

pub(crate) const FINAL: u8 = 0x80;

pub(crate) const TRANSIT_BIT: u8 = 7;

pub(crate) const CONTINUE_BIT: u8 = 6;

pub(crate) const READ_BIT: u8 = 6;

pub(crate) const WRITE_BIT: u8 = 5;

pub(crate) const OVERFLOW_BIT: u8 = 2;

pub(crate) const UNDERFLOW_BIT: u8 = 1;

pub(crate) const STATUS_BIT: u8 = 0;

pub(crate) const SEVEN_BITS: u8 = 0x7F;

pub(crate) const FOUR_BITS: u8 = 0x0F;

pub(crate) const THREE_BITS: u8 = 0x07;

pub(crate) const TWO_BITS: u8 = 0x03;

/// Where CSG stands above NSG, and what it counts there.
pub(crate) const CURRENT_STAGE_PLACE: u8 = 2;

pub(crate) const CURRENT_STAGE: u8 = 4;

// Places of fields, in their order.
pub(crate) const REASON: usize = 2;

pub(crate) const RESPONSE: usize = 2;

pub(crate) const VERSION_MAX: usize = 2;

pub(crate) const STATUS: usize = 3;

pub(crate) const VERSION_ACTIVE: usize = 3;

pub(crate) const VERSION_MIN: usize = 3;

pub(crate) const TOTAL_AHS_LENGTH: usize = 4;

pub(crate) const DATA_SEGMENT_LENGTH: usize = 5;

pub(crate) const ISID: usize = 8;

pub(crate) const LUN: usize = 8;

pub(crate) const TSIH: usize = 14;

pub(crate) const INITIATOR_TASK_TAG: usize = 16;

pub(crate) const CID: usize = 20;

pub(crate) const EXPECTED_DATA_TRANSFER_LENGTH: usize = 20;

pub(crate) const REFERENCED_TASK_TAG: usize = 20;

pub(crate) const TARGET_TRANSFER_TAG: usize = 20;

pub(crate) const CMD_SN: usize = 24;

pub(crate) const STAT_SN: usize = 24;

pub(crate) const EXP_CMD_SN: usize = 28;

pub(crate) const EXP_STAT_SN: usize = 28;

pub(crate) const CDB: usize = 32;

pub(crate) const MAX_CMD_SN: usize = 32;

pub(crate) const REF_CMD_SN: usize = 32;

pub(crate) const DATA_SN: usize = 36;

pub(crate) const EVENT: usize = 36;

pub(crate) const EXP_DATA_SN: usize = 36;

pub(crate) const LOGIN_STATUS: usize = 36;

pub(crate) const R2T_SN: usize = 36;

pub(crate) const VENDOR_CODE: usize = 37;

pub(crate) const PARAMETER_1: usize = 38;

pub(crate) const BEG_RUN: usize = 40;

pub(crate) const BUFFER_OFFSET: usize = 40;

pub(crate) const PARAMETER_2: usize = 40;

pub(crate) const TIME2WAIT: usize = 40;

pub(crate) const PARAMETER_3: usize = 42;

pub(crate) const TIME2RETAIN: usize = 42;

pub(crate) const DESIRED_DATA_TRANSFER_LENGTH: usize = 44;

pub(crate) const RESIDUAL_COUNT: usize = 44;

pub(crate) const RUN_LENGTH: usize = 44;

/// A tag that names nothing.
pub const RESERVED_TAG: u32 = 0xFFFF_FFFF;

/// How many bytes a CDB has in a basic header segment.
pub const CDB_LENGTH: usize = 16;

/// How many bytes a word of a PDU's lengths has.
pub(crate) const WORD: usize = 4;

/// The most words of additional header segments.
pub(crate) const MAX_AHS_WORDS: u8 = 64;

// Places in an additional header segment, and the type of an extended CDB.
pub(crate) const AHS_LENGTH: usize = 0;

pub(crate) const AHS_TYPE: usize = 2;

pub(crate) const EXTENDED_CDB: u8 = 0x01;
