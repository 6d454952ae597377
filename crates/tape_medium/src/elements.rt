//! The elements of a medium changer: the addresses at which each type of them begins, and why they refuse a call.

use thiserror::Error;

/// The address of the medium transport element (profile).
pub const TRANSPORT: u16 = 0;

/// The address of the first data transfer element, the drive's at logical unit 1 (profile).
pub const FIRST_DATA_TRANSFER: u16 = 0x0100;

/// The address of the first import/export element (profile).
pub const FIRST_IMPORT_EXPORT: u16 = 0x0200;

/// The address of the first storage element (profile).
pub const FIRST_STORAGE: u16 = 0x0400;

/// Why the elements of a medium changer refuse a call, in the order of the tests.
#[derive(Clone, Copy, Debug, Error)]
pub enum MapFault {
    /// No element at an address, or one of a type that the call isn't for.
    #[error("no such element")]
    BadAddress,
    /// No volume in the source element.
    #[error("no volume in the source element")]
    SourceEmpty,
    /// A volume in the destination element, also where it is the source itself (profile).
    #[error("a volume in the destination element")]
    DestinationFull,
}
