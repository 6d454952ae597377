//! Where the volumes of a library are and from where those in drives came, as its changer notes it.

ghost use Rattle.std.specs.Prelude.{◌≡◌};
ghost use Rattle.device_server.specs.Settled.{SameButSettled};

use device_server::{Attendant, DeviceServer};
use library_inventory::{AddFault, Element, Inventory, LibrarySize, PlacedVolume};
use library_start::Device;
use program_options::LibraryProfile;
use std::alloc::Global;
use tape_medium::{FIRST_DATA_TRANSFER, FIRST_IMPORT_EXPORT, FIRST_STORAGE};

/// Notes where the volumes of a changer are, those in drives by their marks and with their sources. Nothing of the changer changes.
#[derive(Drop)]
pub(crate) struct Listing {
    pub alloc: Global,
    pub inventory: Inventory,
    /// The fault of a volume that couldn't be noted.
    pub fault: Option<AddFault>,
}

impl Listing {
    /// Nothing was noted yet.
    pub fn new(alloc: Global, profile: LibraryProfile, size: LibrarySize) -> Listing {
        Listing {
            alloc,
            inventory: Inventory::new(alloc, profile, size),
            fault: None,
        }
    }

    /// Notes the volume in an element, if there is one.
    fn note(&mut self, device: &Device, address: u16, element: Element) {
        let Some(tag) = device.held(address) else {
            return;
        };
        let placed = PlacedVolume {
            tag,
            element,
            source: self.source_of(device, address, element),
        };
        if let Err(fault) = self.inventory.add(placed) {
            self.fault = Some(fault);
        }
    }

    /// The source of the volume in an element, which is noted of those in drives alone.
    fn source_of(&self, device: &Device, address: u16, element: Element) -> Option<Element> {
        match element {
            Element::DataTransfer(_) => {
                let source = device.source(address)?;
                self.inventory.size().outside_drives_at(source)
            }
            Element::Storage(_) | Element::ImportExport(_) => None,
        }
    }
}

impl Attendant<Device> for Listing {
    ghost looks_after = { λ _ _ before after _. after ≡ before };

    fn attend(&mut self, _: u8, device: &mut Device) {
        let size = self.inventory.size();
        for number in 0..u16::from(size.drives) {
            let address = FIRST_DATA_TRANSFER.saturating_add(number);
            self.note(device, address, Element::DataTransfer(number));
        }
        for number in 0..u16::from(size.import_exports) {
            let address = FIRST_IMPORT_EXPORT.saturating_add(number);
            self.note(device, address, Element::ImportExport(number));
        }
        for number in 0..size.slots {
            let address = FIRST_STORAGE.saturating_add(number);
            self.note(device, address, Element::Storage(number));
        }
    }
}
