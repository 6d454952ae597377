//! Why a text isn't that of an inventory, and why an inventory has no text.

use library_inventory::AddFault;
use std::alloc::AllocError;
use thiserror::Error;

/// A key of an inventory's text.
#[derive(Clone, Copy, Debug)]
pub enum InventoryKey {
    Version,
    Drives,
    Slots,
    ImportExports,
    Profile,
    /// The number of a library of the hosts' profile.
    LibraryNumber,
    Volume,
    Missing,
    /// The tags of blank volumes that the next start makes.
    Blank,
    /// The tags of volumes that the next start write-protects.
    Protect,
}

/// What is wrong with a volume of an inventory's text.
#[derive(Clone, Copy, Debug, Error)]
pub enum VolumeFault {
    #[error("no table")]
    NoTable,
    /// Its tag isn't there, or isn't one.
    #[error("no tag")]
    NoTag,
    /// It names no element, or several.
    #[error("no element")]
    NoElement,
    /// Its source names no element, or several.
    #[error("no source")]
    NoSource,
    #[error("refused")]
    Refused(AddFault),
}

/// Why a text isn't that of an inventory. Lines are counted from 1.
#[derive(Debug, Drop, Error)]
pub enum ReadFault {
    #[error("want of memory")]
    NoMemory,
    #[error("it is not a regular file")]
    NotRegular,
    #[error("it has more than 1048576 bytes")]
    TooLong,
    #[error("line {line}: the text is not TOML")]
    NoToml { line: usize },
    /// A key at the top, of a volume or of a source is none that it may have there. It may be meant for another place.
    #[error("line {line}: unknown key {key}")]
    UnknownKey { line: usize, key: String },
    #[error("unknown version")]
    UnknownVersion(i64),
    /// A key isn't there, or its value isn't one that it may have.
    #[error("bad value")]
    BadKey(InventoryKey),
    /// A key's value is no list of tags, or has one of them twice.
    #[error("bad tags")]
    BadTags(InventoryKey),
    /// One of the volumes, counted from 0.
    #[error("bad volume")]
    Volume { nth: usize, fault: VolumeFault },
    /// The same of the volumes that are missing.
    #[error("bad missing volume")]
    Missing { nth: usize, fault: VolumeFault },
}

/// Why an inventory has no text.
#[derive(Clone, Copy, Debug, Error)]
pub enum WriteFault {
    #[error("want of memory")]
    NoMemory,
    /// A tag has no name that a file can have.
    #[error("a tag with no name")]
    NoName,
}

impl From<AllocError> for ReadFault {
    fn from(_error: AllocError) -> ReadFault {
        ReadFault::NoMemory
    }
}

impl From<AllocError> for WriteFault {
    fn from(_error: AllocError) -> WriteFault {
        WriteFault::NoMemory
    }
}
