//! Lengths, bits and codes of the parameter data (SPC-4, "REPORT SUPPORTED OPERATION CODES command").

/// The length of a command descriptor in the data of all commands, in bytes.
pub const COMMAND_DESCRIPTOR_LENGTH: usize = 8;

/// SERVACTV of a command descriptor: the SERVICE ACTION field holds a service action.
pub const SERVICE_ACTION_VALID: u8 = 0x01;

/// CTDP of a command descriptor: a command timeouts descriptor follows.
pub const TIMEOUTS_FOLLOW: u8 = 0x02;

/// The length of a command timeouts descriptor, in bytes.
pub const TIMEOUTS_DESCRIPTOR_LENGTH: usize = 12;

/// The DESCRIPTOR LENGTH field of a command timeouts descriptor: how many bytes follow the field.
pub const TIMEOUTS_DESCRIPTOR_REST: u8 = 0x0A;

/// SUPPORT in the data of one command: it isn't supported.
pub const NOT_SUPPORTED: u8 = 0x01;

/// SUPPORT in the data of one command: it is supported in conformance with a standard.
pub const SUPPORTED: u8 = 0x03;

/// CTDP in the data of one command, next to SUPPORT: a command timeouts descriptor follows.
pub const TIMEOUTS_FOLLOW_ONE: u8 = 0x80;

/// How long each command nominally takes, in seconds (profile).
pub const NOMINAL_SECONDS: u32 = 1;
