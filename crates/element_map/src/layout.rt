//! The bytes of element status data.

/// The length of the header of the element status data (SMC-3, "READ ELEMENT STATUS command").
pub(crate) const HEADER_LENGTH: usize = 8;

/// The length of the header of an element status page.
pub(crate) const PAGE_HEADER_LENGTH: usize = 8;

/// The length of an element descriptor without the primary volume tag information.
pub(crate) const DESCRIPTOR_LENGTH: usize = 16;

/// The length of the primary volume tag information: a tag and four reserved bytes.
pub(crate) const TAG_INFORMATION_LENGTH: usize = 36;

/// PVOLTAG's bit of a page's flags: its descriptors have primary volume tag information.
pub(crate) const PVOLTAG: u8 = 0x80;

/// FULL's bit of a descriptor's flags: there is a volume in the element.
pub(crate) const FULL: u8 = 0x01;

/// ACCESS's bit of a descriptor's flags: the medium transport reaches the element.
pub(crate) const ACCESS: u8 = 0x08;

/// EXENAB's and INENAB's bits of an import/export element's flags: it exports and imports volumes.
pub(crate) const IMPORTS_AND_EXPORTS: u8 = 0x30;

/// The element type code that asks for elements of all types.
pub(crate) const ALL_TYPES: u8 = 0;
