//! Places, lengths and codes of mode parameters (SPC-4, "Mode parameter list formats"; SSC-4, "Mode parameters"; SMC-3, "Element
//! address assignment mode page").

/// The length of a mode parameter header, in bytes.
pub const MODE_HEADER: usize = 4;

/// Where BLOCK DESCRIPTOR LENGTH stands in the header.
pub const DESCRIPTOR_LENGTH: usize = 3;

/// The length of a block descriptor, in bytes.
pub const BLOCK_DESCRIPTOR: u8 = 8;

/// Where BLOCK LENGTH begins, three bytes, in a list with a block descriptor.
pub const BLOCK_LENGTH: usize = 9;

/// The code of no page.
pub const NO_PAGE: u8 = 0x00;

/// The code of the element address assignment page.
pub const ELEMENT_ADDRESS_ASSIGNMENT_PAGE: u8 = 0x1D;

/// The code that asks for all pages.
pub const ALL_PAGES: u8 = 0x3F;
