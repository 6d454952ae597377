//! The places of a SAS TransportID (SPC-4, "TransportID for initiator ports using SCSI over SAS").

/// The length of a TransportID in bytes.
pub const TRANSPORT_ID_LENGTH: usize = 24;

/// Byte 0: format code 00b and protocol identifier 6h.
pub(crate) const SAS_FORMAT: u8 = 0x06;

/// Where the SAS address begins, eight bytes.
pub(crate) const SAS_ADDRESS: usize = 4;
