ghost use Rattle.std.specs.Prelude.{◌≡◌};
ghost use Rattle.element_map.specs.Runs.{code_of, first_of, flags_in};

use crate::layout::{ACCESS, FULL, IMPORTS_AND_EXPORTS};
use tape_medium::{FIRST_DATA_TRANSFER, FIRST_IMPORT_EXPORT, FIRST_STORAGE, TRANSPORT};

/// The type of an element (SMC-3, "READ ELEMENT STATUS command").
#[derive(Clone, Copy)]
pub enum ElementType {
    MediumTransport,
    DataTransfer,
    ImportExport,
    Storage,
}

impl ElementType {
    /// The element type code.
    pub(crate) fn code(self) -> u8
        ensures { result ≡ code_of self }
    {
        match self {
            ElementType::MediumTransport => 1,
            ElementType::DataTransfer => 4,
            ElementType::ImportExport => 3,
            ElementType::Storage => 2,
        }
    }

    /// The address of the first element of the type.
    pub fn first_address(self) -> u16
        ensures { result ≡ first_of self }
    {
        match self {
            ElementType::MediumTransport => TRANSPORT,
            ElementType::DataTransfer => FIRST_DATA_TRANSFER,
            ElementType::ImportExport => FIRST_IMPORT_EXPORT,
            ElementType::Storage => FIRST_STORAGE,
        }
    }

    /// The flags of the descriptor of an element of the type, full or empty.
    pub(crate) fn flags(self, full: bool) -> u8
        ensures { result ≡ flags_in self full }
    {
        let full = if full { FULL } else { 0 };
        match self {
            ElementType::MediumTransport => full,
            ElementType::DataTransfer | ElementType::Storage => full + ACCESS,
            ElementType::ImportExport => full + ACCESS + IMPORTS_AND_EXPORTS,
        }
    }
}
