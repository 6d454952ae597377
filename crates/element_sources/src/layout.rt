//! The bytes of element status data (SMC-3, "READ ELEMENT STATUS command").

/// The length of the header of the element status data.
pub(crate) const HEADER_LENGTH: usize = 8;

/// The length of the header of an element status page.
pub(crate) const PAGE_HEADER_LENGTH: usize = 8;

/// The length of what precedes the volume tag information in a descriptor.
pub(crate) const INFORMATION_LENGTH: usize = 12;

/// The length of the primary volume tag information: a tag and four reserved bytes.
pub(crate) const TAG_INFORMATION_LENGTH: usize = 36;

/// The length of the end of a descriptor without a device identifier.
pub(crate) const RESERVED_LENGTH: usize = 4;

/// PVOLTAG's bit of a page's flags: its descriptors have primary volume tag information.
pub(crate) const PVOLTAG: u8 = 0x80;

/// FULL's bit of a descriptor's flags: there is a volume in the element.
pub(crate) const FULL: u8 = 0x01;

/// ACCESS's bit of a descriptor's flags: the medium transport reaches the element.
pub(crate) const ACCESS: u8 = 0x08;

/// EXENAB's and INENAB's bits of an import/export element's flags: it exports and imports volumes.
pub(crate) const IMPORTS_AND_EXPORTS: u8 = 0x30;

/// LU_VALID's bit: the logical unit number of the element's drive is in bits 2 to 0.
pub(crate) const LU_VALID: u8 = 0x10;

/// SVALID's bit: the source of the volume is known.
pub(crate) const SVALID: u8 = 0x80;

/// MEDIUM TYPE of a volume for data.
pub(crate) const DATA_MEDIUM: u8 = 0x01;

/// The element type code that asks for elements of all types.
pub(crate) const ALL_TYPES: u8 = 0;
