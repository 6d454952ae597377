ghost use Rattle.std.specs.Prelude.{◌≡◌, ◌≤◌, ◌-◌, Some, None, if◌then◌else◌};
ghost use Rattle.tape_medium.specs.Elements.{element_at, is_among};
ghost use Rattle.element_map.specs.Address.{named, IsWithin};

use crate::elements::Elements;
use tape_medium::{FIRST_DATA_TRANSFER, FIRST_IMPORT_EXPORT, FIRST_STORAGE, TRANSPORT};

/// What an address names: an element by its number within its type, from 0.
#[derive(Clone, Copy)]
pub(crate) enum Element {
    Transport,
    DataTransfer(usize),
    ImportExport(usize),
    Storage(usize),
    Nowhere,
}

impl Elements {
    /// The element with an address.
    pub(crate) fn element(&self, address: u16) -> Element
        ensures element { named result ≡ element_at self.now address }
        ensures within { IsWithin self.now result }
    {
        if address == TRANSPORT {
            return Element::Transport;
        }
        if let Some(i) = place_among(FIRST_DATA_TRANSFER, self.data_transfer.len(), address) {
            return Element::DataTransfer(i);
        }
        if let Some(i) = place_among(FIRST_IMPORT_EXPORT, self.import_export.len(), address) {
            return Element::ImportExport(i);
        }
        if let Some(i) = place_among(FIRST_STORAGE, self.storage.len(), address) {
            return Element::Storage(i);
        }
        Element::Nowhere
    }
}

/// Which of `count` elements from the address `first` on has an address.
pub(crate) fn place_among(first: u16, count: usize, address: u16) -> Option<usize>
    requires { count ≤ 1024 }
    ensures { result ≡ (if is_among first count address then Some (address - first) else None) }
{
    let (first, address) = (first as usize, address as usize);
    if first <= address && address < first + count {
        Some(address - first)
    } else {
        None
    }
}
