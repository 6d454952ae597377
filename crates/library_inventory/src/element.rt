ghost use Rattle.std.specs.Prelude.{◌≡◌, ◌↔◌, IsTrue};
ghost use Rattle.library_inventory.specs.Elements.{IsElementOf, IsOutsideDrives, IsSourceAt, address_of, outside_drives_at};

use tape_medium::{FIRST_DATA_TRANSFER, FIRST_IMPORT_EXPORT, FIRST_STORAGE};

/// An element that can hold a volume, by its number within its type, from 0 on (SMC-3, "Element addresses").
#[derive(Clone, Copy, PartialEq, Eq)]
pub enum Element {
    /// A drive.
    DataTransfer(u16),
    Storage(u16),
    ImportExport(u16),
}

impl Element {
    /// Its address, if that has 16 bits.
    pub fn address(self) -> Option<u16>
        ensures { result ≡ address_of self }
    {
        match self {
            Element::DataTransfer(number) => FIRST_DATA_TRANSFER.checked_add(number),
            Element::Storage(number) => FIRST_STORAGE.checked_add(number),
            Element::ImportExport(number) => FIRST_IMPORT_EXPORT.checked_add(number),
        }
    }
}

/// How many elements of each type a library has, apart from its medium transport element.
#[derive(Clone, Copy, Debug)]
pub struct LibrarySize {
    /// Data transfer elements.
    pub drives: u8,
    /// Storage elements.
    pub slots: u16,
    /// Import/export elements.
    pub import_exports: u8,
}

impl LibrarySize {
    /// Whether a library of this size has an element.
    pub fn has(&self, element: Element) -> bool
        ensures { IsTrue result ↔ IsElementOf self.now element }
    {
        match element {
            Element::DataTransfer(number) => number < u16::from(self.drives),
            Element::Storage(number) => number < self.slots,
            Element::ImportExport(number) => number < u16::from(self.import_exports),
        }
    }

    /// Whether a library of this size has an element that is no drive.
    fn has_outside_drives(&self, element: Element) -> bool
        ensures { IsTrue result ↔ IsOutsideDrives self.now element }
    {
        match element {
            Element::DataTransfer(_) => false,
            Element::Storage(number) => number < self.slots,
            Element::ImportExport(number) => number < u16::from(self.import_exports),
        }
    }

    /// Whether the volume in an element can have this source: one in a drive can come from each element that is no drive, and another volume
    /// has none.
    pub fn takes_source(&self, element: Element, source: Option<Element>) -> bool
        ensures { IsTrue result ↔ IsSourceAt self.now element source }
    {
        match element {
            Element::DataTransfer(_) => match source {
                Some(source) => self.has_outside_drives(source),
                None => true,
            },
            Element::Storage(_) | Element::ImportExport(_) => source.is_none(),
        }
    }

    /// The element with an address, if a library of this size has it and it is no drive.
    pub fn outside_drives_at(&self, address: u16) -> Option<Element>
        ensures { result ≡ outside_drives_at self.now address }
    {
        let (import_exports, slots) = (u32::from(self.import_exports), u32::from(self.slots));
        if is_among(FIRST_IMPORT_EXPORT, import_exports, address) {
            return Some(Element::ImportExport(address - FIRST_IMPORT_EXPORT));
        }
        if is_among(FIRST_STORAGE, slots, address) {
            return Some(Element::Storage(address - FIRST_STORAGE));
        }
        None
    }
}

ghost use Rattle.std.specs.Prelude.{◌≤◌};
ghost use Rattle.tape_medium.specs.Elements.{is_among};

/// Whether an address is one of so many from the first on.
fn is_among(first: u16, count: u32, address: u16) -> bool
    requires { count ≤ 0xFFFF }
    ensures { result ≡ is_among first count address }
{
    first <= address && u32::from(address) < u32::from(first) + count
}
