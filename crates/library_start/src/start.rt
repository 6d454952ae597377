//! A library whose volumes lie where they lay.

ghost use Rattle.std.specs.Prelude.{◌≡◌, ◌+◌, ◌≤◌, length, Ok, IfOk, OnOk};
ghost use Rattle.tape_medium.specs.Elements.{puts};
ghost use Rattle.logical_unit.specs.UnitView.{units_of};
ghost use Rattle.library_start.specs.Profiles.{empty_drives};
ghost use Rattle.library_start.specs.Sizes.{IsMade};
ghost use Rattle.library_start.specs.Starting.{IsLoaded, AreShelved, units_over, IsLibraryOf};

use crate::device::Device;
use crate::profiled::{changer_over, drive_at, hosts_at_start};
use crate::unit::unit_at;
use device_server::{DeviceServer, HostChanger};
use element_map::Elements;
use library_inventory::{Element, LibrarySize};
use logical_unit::LogicalUnit;
use program_options::LibraryProfile;
use std::alloc::{AllocError, AllocFailed, Global};
use std::marker::Model;
use tape_medium::{FIRST_DATA_TRANSFER, FIRST_IMPORT_EXPORT, FIRST_STORAGE, Volume};
use tape_server::TapeDrive;
use target_core::TargetCore;
use thiserror::Error;

/// A volume, and the element in which it lies at the start.
#[derive(Drop)]
pub struct StartedVolume {
    pub element: Element,
    /// Of a volume in a drive the element where it was last outside drives, if that is known.
    pub source: Option<Element>,
    pub volume: Volume,
}

/// Why a library isn't made of volumes.
#[derive(Clone, Copy, Debug, Error)]
pub enum LibraryFault {
    #[error("want of memory")]
    NoMemory,
    /// An element isn't there, or has two volumes.
    #[error("an element twice, or none")]
    BadElement,
}

impl From<AllocError> for LibraryFault {
    fn from(_error: AllocError) -> LibraryFault {
        LibraryFault::NoMemory
    }
}

impl<T: Drop> From<AllocFailed<T>> for LibraryFault {
    fn from(_error: AllocFailed<T>) -> LibraryFault {
        LibraryFault::NoMemory
    }
}

/// The changer's elements and the drives, while volumes are put into them.
#[derive(Drop)]
struct Shelves {
    elements: Elements,
    drives: Vec<TapeDrive>,
}

impl Model for Shelves {
    ghost use Rattle.library_start.specs.Starting.{ShelvesView};

    ghost Value = { ShelvesView };

    ghost view = { λ s. record { elements = s.elements; drives = s.drives.items } };
}

/// So many drives with empty bays.
fn empty_drives(
    alloc: Global,
    profile: LibraryProfile,
    count: u8,
) -> Result<Vec<TapeDrive>, LibraryFault>
    ensures { IfOk result (λ drives. drives.items ≡ empty_drives profile count) }
{
    let mut drives = Vec::new(alloc);
    'drives: for place in 0..count {
        drives.push(drive_at(profile, place + 1))?;
    }
    Ok(drives)
}

/// Puts a volume into a drive's bay, where it is loaded.
fn load_drive(drive: &mut TapeDrive, volume: Volume) -> Result<(), LibraryFault>
    ensures { OnOk result (IsLoaded drive.old volume drive.new) }
{
    match drive.put_volume(0, volume) {
        Ok(()) => Ok(()),
        Err(_) => Err(LibraryFault::BadElement),
    }
}

impl Shelves {
    ghost use Rattle.library_start.specs.Starting.{empty_shelves, IsShelved};

    /// Empty ones.
    fn new(
        alloc: Global,
        profile: LibraryProfile,
        size: LibrarySize,
    ) -> Result<Shelves, LibraryFault>
        requires { IsMade size }
        ensures { IfOk result (λ shelves. shelves ≡ empty_shelves profile size) }
    {
        let elements = Elements::new(
            alloc,
            u16::from(size.drives),
            size.slots,
            u16::from(size.import_exports),
        )?;
        let drives = empty_drives(alloc, profile, size.drives)?;
        Ok(Shelves { elements, drives })
    }

    /// Puts a volume into a drive, where it is loaded, and notes it at the changer.
    fn load(&mut self, number: u16, volume: Volume) -> Result<(), LibraryFault>
        ensures { OnOk result (IsShelved self.old (Element.DataTransfer number) volume self.new) }
    {
        let Some(address) = FIRST_DATA_TRANSFER.checked_add(number) else {
            return Err(LibraryFault::BadElement);
        };
        let tag = volume.tag;
        let Some(drive) = self.drives.get_mut(usize::from(number)) else {
            return Err(LibraryFault::BadElement);
        };
        load_drive(drive, volume)?;
        match self.elements.mark(address, Some(tag)) {
            Ok(()) => Ok(()),
            Err(_) => Err(LibraryFault::BadElement),
        }
    }

    /// Puts a volume into one of the changer's own elements, of its type from the first address on.
    fn store(&mut self, first: u16, number: u16, volume: Volume) -> Result<(), LibraryFault>
        ensures elements { OnOk result (puts self.old.elements (first + number) volume ≡ Ok self.new.elements) }
        ensures drives { self.new.drives ≡ self.old.drives }
    {
        let Some(address) = first.checked_add(number) else {
            return Err(LibraryFault::BadElement);
        };
        match self.elements.put(address, volume) {
            Ok(()) => Ok(()),
            Err(_) => Err(LibraryFault::BadElement),
        }
    }

    /// Puts a volume into its element.
    fn put(&mut self, element: Element, volume: Volume) -> Result<(), LibraryFault>
        ensures { OnOk result (IsShelved self.old element volume self.new) }
    {
        match element {
            Element::DataTransfer(number) => self.load(number, volume),
            Element::Storage(number) => self.store(FIRST_STORAGE, number, volume),
            Element::ImportExport(number) => self.store(FIRST_IMPORT_EXPORT, number, volume),
        }
    }

    /// Puts volumes into their elements, one after another.
    fn put_all(&mut self, volumes: Vec<StartedVolume>) -> Result<(), LibraryFault>
        ensures { OnOk result (AreShelved self.old volumes.items self.new) }
    {
        'volumes: for started in volumes {
            let StartedVolume {
                element,
                volume,
                ..
            } = started;
            self.put(element, volume)?;
        }
        Ok(())
    }
}

/// The units of a changer, with what it keeps besides, and of drives, which are the logical units from 1 on.
fn units_over(
    alloc: Global,
    count: u8,
    shelves: Shelves,
    hosts: Option<HostChanger>,
) -> Result<Vec<LogicalUnit<Device>>, LibraryFault>
    requires { length shelves.drives ≤ 4 }
    ensures { IfOk result (λ units. units_of units.items ≡ units_over hosts count shelves) }
{
    let Shelves { elements, drives } = shelves;
    let mut units = Vec::new(alloc);
    let changer = Device::Changer(changer_over(elements, hosts));
    units.push(unit_at(alloc, 0, count, changer)?)?;
    let mut lun = 0u8;
    'drives: for drive in drives {
        lun = lun.saturating_add(1);
        units.push(unit_at(alloc, lun, count, Device::Tape(drive))?)?;
    }
    Ok(units)
}

/// The library of a profile at power on in which volumes lie in these elements; one in a drive is loaded, at the beginning of its tape. No
/// two lie in one element, and each element is one of the library: else there is none.
pub fn library_of_volumes(
    alloc: Global,
    profile: LibraryProfile,
    size: LibrarySize,
    volumes: Vec<StartedVolume>,
) -> Result<TargetCore<Device>, LibraryFault>
    requires { IsMade size }
    ensures { IfOk result (λ core. IsLibraryOf profile size volumes.items (units_of core)) }
{
    let hosts = hosts_at_start(alloc, profile, size, &volumes)?;
    let mut shelves = Shelves::new(alloc, profile, size)?;
    shelves.put_all(volumes)?;
    let units = units_over(alloc, size.drives + 1, shelves, hosts)?;
    match TargetCore::new(units) {
        Ok(core) => Ok(core),
        Err(_) => Err(LibraryFault::BadElement),
    }
}
