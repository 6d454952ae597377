//! Codes of the data that every unit has (SPC-4, "INQUIRY command", "REPORT LUNS command").

/// PERIPHERAL DEVICE TYPE of a sequential-access device.
pub(crate) const DRIVE_TYPE: u8 = 0x01;

/// PERIPHERAL DEVICE TYPE of a medium changer.
pub(crate) const CHANGER_TYPE: u8 = 0x08;

/// PAGE CODE of Supported VPD Pages.
pub(crate) const SUPPORTED_PAGES: u8 = 0x00;

/// PAGE CODE of Unit Serial Number.
pub(crate) const UNIT_SERIAL_NUMBER: u8 = 0x80;

/// The element of logical unit n, a drive, has the address of this plus n (profile).
pub(crate) const ELEMENT_OF_UNIT_0: u16 = 0x00FF;

/// The length of a logical unit in the LUN list, in bytes.
pub(crate) const LUN_ENTRY_LENGTH: u16 = 8;

/// The length of what stands before the LUN list.
pub(crate) const LUN_LIST_HEADER_LENGTH: usize = 8;

/// SELECT REPORT that lists the well known logical units alone.
pub(crate) const SELECT_WELL_KNOWN: u8 = 0x01;

/// SELECT REPORT that lists all logical units, the largest that is defined.
pub(crate) const SELECT_ALL: u8 = 0x02;
