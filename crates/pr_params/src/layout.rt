//! The places of the parameter lists and of the parameter data of persistent reservations (SPC-4,
//! "PERSISTENT RESERVE OUT parameter list" and "PERSISTENT RESERVE IN command").

use permit_tables::TARGETS;
use scsi_nexus::TRANSPORT_ID_LENGTH;

/// RESERVATION KEY of both lists.
pub(crate) const RESERVATION_KEY: usize = 0;

/// SERVICE ACTION RESERVATION KEY of both lists.
pub(crate) const SERVICE_ACTION_RESERVATION_KEY: usize = 8;

/// The byte of the basic list with SPEC_I_PT, ALL_TG_PT and APTPL.
pub(crate) const BASIC_FLAGS: usize = 20;

/// The length of the basic list in bytes.
pub(crate) const BASIC_LENGTH: usize = 24;

/// SPEC_I_PT's bit in `BASIC_FLAGS`.
pub(crate) const SPEC_I_PT: u32 = 3;

/// ALL_TG_PT's bit in `BASIC_FLAGS`.
pub(crate) const ALL_TG_PT: u32 = 2;

/// APTPL's bit in either byte of flags.
pub(crate) const APTPL: u32 = 0;

/// TRANSPORTID PARAMETER DATA LENGTH of a list of either REGISTER with SPEC_I_PT.
pub(crate) const LISTED_LENGTH_FIELD: usize = 24;

/// Where the TransportIDs of a list with SPEC_I_PT begin.
pub(crate) const LISTED_IDS: usize = 28;

/// The length of the most TransportIDs that a list with SPEC_I_PT may have.
pub(crate) const LISTED_LENGTH: usize = TARGETS * TRANSPORT_ID_LENGTH;

/// The byte of the REGISTER AND MOVE list with UNREG and APTPL.
pub(crate) const MOVE_FLAGS: usize = 17;

/// UNREG's bit in `MOVE_FLAGS`.
pub(crate) const UNREG: u32 = 1;

/// RELATIVE TARGET PORT IDENTIFIER of the REGISTER AND MOVE list.
pub(crate) const RELATIVE_TARGET_PORT: usize = 18;

/// TRANSPORTID PARAMETER DATA LENGTH of the REGISTER AND MOVE list.
pub(crate) const TRANSPORT_ID_LENGTH_FIELD: usize = 20;

/// Where the TransportID of the REGISTER AND MOVE list begins.
pub(crate) const TRANSPORT_ID: usize = 24;

/// The length of the header of the parameter data: PRGENERATION and ADDITIONAL LENGTH.
pub(crate) const HEADER_LENGTH: usize = 8;

/// The length of a reservation key.
pub(crate) const KEY_LENGTH: usize = 8;

/// The length of a reservation descriptor of READ RESERVATION.
pub(crate) const RESERVATION_LENGTH: usize = 16;

/// SCOPE and TYPE of a reservation descriptor.
pub(crate) const RESERVATION_SCOPE_TYPE: usize = 13;

/// The length of a full status descriptor with a SAS TransportID.
pub(crate) const FULL_STATUS_LENGTH: usize = 48;

/// The byte of a full status descriptor with R_HOLDER.
pub(crate) const FULL_STATUS_FLAGS: usize = 12;

/// SCOPE and TYPE of a full status descriptor.
pub(crate) const FULL_STATUS_SCOPE_TYPE: usize = 13;

/// RELATIVE TARGET PORT IDENTIFIER of a full status descriptor.
pub(crate) const FULL_STATUS_PORT: usize = 18;

/// ADDITIONAL DESCRIPTOR LENGTH of a full status descriptor.
pub(crate) const FULL_STATUS_ADDITIONAL_LENGTH: usize = 20;

/// Where the TransportID of a full status descriptor begins.
pub(crate) const FULL_STATUS_TRANSPORT_ID: usize = 24;
