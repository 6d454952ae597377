//! Fixed format sense data (SPC-4, "Fixed format sense data"): lengths, codes, places and bits.

pub const SENSE_LENGTH: usize = 18;

// VALID and RESPONSE CODE.
pub const RESPONSE_CODE: usize = 0;

pub const VALID_BIT: u8 = 7;

pub const RESPONSE_CODE_BITS: u8 = 0x7F;

pub const CURRENT_FIXED: u8 = 0x70;

// FILEMARK, EOM, ILI and SENSE KEY.
pub const MARKS_AND_KEY: usize = 2;

pub const FILEMARK_BIT: u8 = 7;

pub const EOM_BIT: u8 = 6;

pub const ILI_BIT: u8 = 5;

pub const SENSE_KEY_BITS: u8 = 0x0F;

/// INFORMATION, of four bytes.
pub const INFORMATION: usize = 3;

// ADDITIONAL SENSE LENGTH: how many bytes follow it.
pub const ADDITIONAL_SENSE_LENGTH: usize = 7;

pub const BYTES_THAT_FOLLOW: u8 = 0x0A;

pub const ADDITIONAL_SENSE_CODE: usize = 12;

pub const ADDITIONAL_SENSE_CODE_QUALIFIER: usize = 13;

// Sense keys (SPC-4, "Sense key and additional sense code definitions").
pub const NO_SENSE: u8 = 0x0;

pub const NOT_READY: u8 = 0x2;

pub const HARDWARE_ERROR: u8 = 0x4;

pub const ILLEGAL_REQUEST: u8 = 0x5;

pub const UNIT_ATTENTION: u8 = 0x6;

pub const DATA_PROTECT: u8 = 0x7;

pub const BLANK_CHECK: u8 = 0x8;

pub const VOLUME_OVERFLOW: u8 = 0xD;
