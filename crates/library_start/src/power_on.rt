ghost use Rattle.std.specs.Prelude.{◌≡◌, ◌≤◌, IfOk};
ghost use Rattle.logical_unit.specs.Step.{made};
ghost use Rattle.logical_unit.specs.UnitView.{units_of};
ghost use Rattle.library_start.specs.StockedDevices.{library_of};
ghost use Rattle.program_options.specs.Options.{AreInRange};
ghost use Rattle.library_start.specs.Sizes.{IsMade};

use crate::device::Device;
use crate::profiled::{changer_over, drive_at, hosts_at_start};
use crate::stock::stocked;
use crate::unit::unit_at;
use library_inventory::LibrarySize;
use program_options::{LibraryOptions, LibraryProfile};
use std::alloc::{AllocError, Global};
use tape_medium::MemoryLimit;
use target_core::TargetCore;

/// The library of the program at power on: a changer as logical unit 0, with its elements and the volumes
/// in the first storage elements, and so many empty drives as the logical units from 1 on, all of one profile.
pub fn library(
    alloc: Global,
    options: &LibraryOptions,
    profile: LibraryProfile,
) -> Result<TargetCore<Device>, AllocError>
    requires range { AreInRange options.now }
    requires fits { options.now.volumes ≤ options.now.slots }
    ensures { IfOk result (λ core. units_of core ≡ library_of profile options.now) }
{
    library_within(alloc, options, profile, &MemoryLimit::none())
}

/// The same library, whose volumes take no more memory together than the limit says.
pub fn library_within(
    alloc: Global,
    options: &LibraryOptions,
    profile: LibraryProfile,
    memory: &MemoryLimit,
) -> Result<TargetCore<Device>, AllocError>
    requires range { AreInRange options.now }
    requires fits { options.now.volumes ≤ options.now.slots }
    ensures { IfOk result (λ core. units_of core ≡ library_of profile options.now) }
{
    let count = options.drives + 1;
    let elements = stocked(alloc, options, memory)?;
    let hosts = hosts_at_start(alloc, profile, size_of(options), &[])?;
    let changer = Device::Changer(changer_over(elements, hosts));
    let mut units = Vec::new(alloc);
    units.push(unit_at(alloc, 0, count, changer)?)?;
    'drives: for place in 0..options.drives {
        let drive = Device::Tape(drive_at(profile, place + 1));
        units.push(unit_at(alloc, place + 1, count, drive)?)?;
    }
    match TargetCore::new(units) {
        Ok(core) => Ok(core),
        // Its units are in the order of a target.
        Err(_) => unreachable!(),
    }
}

/// How many elements of each type a library has that is made of these options.
fn size_of(options: &LibraryOptions) -> LibrarySize
    requires { AreInRange options.now }
    ensures size { result ≡ record { drives = options.now.drives; slots = options.now.slots; import_exports = options.now.import_exports } }
    ensures made { IsMade result }
{
    LibrarySize {
        drives: options.drives,
        slots: options.slots,
        import_exports: options.import_exports,
    }
}
