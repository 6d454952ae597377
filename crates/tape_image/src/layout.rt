//! The parts of an image (SIMH Magtape Representation and Handling).

use tape_medium::MAX_BLOCK;

/// How many bytes hold the length of a block, before it and again after it.
pub const LENGTH_FIELD: usize = 4;

/// The most bytes of a part: the longest block between its lengths.
pub const MAX_PART: usize = LENGTH_FIELD + MAX_BLOCK as usize + LENGTH_FIELD;

/// The length that is a filemark.
pub(crate) const FILEMARK: u32 = 0;

/// The length that is an erase gap.
pub(crate) const ERASE_GAP: u32 = 0xFFFF_FFFE;

/// The length that is the end of the medium.
pub(crate) const END_OF_MEDIUM: u32 = 0xFFFF_FFFF;

/// The lowest length with a class other than 0.
pub(crate) const FIRST_CLASS: u32 = 0x1000_0000;

pub(crate) const MAX_LENGTH: u32 = MAX_BLOCK;
