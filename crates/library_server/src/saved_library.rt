//! A library that is kept in a folder.

ghost use Rattle.std.specs.Prelude.{◌<◌, ◌≤◌};
ghost use Rattle.tape_medium.specs.Limits.{capacity_limit};

use crate::locked_media::LockedMedia;
use crate::socket::{memory_limit, tell_larger};
use crate::socket_fault::SocketFault;
use library_inventory::{Inventory, LibrarySize, PlacedVolume};
use library_start::{Device, LibraryFault, StartedVolume, library_of_volumes};
use media_folder::{
    FileStore, KeptVolume, LibraryFolder, OpenedFolder, begin_inventory, open_folder,
    write_inventory_file,
};
use program_options::LibraryProfile;
use saved_media::{InventoryStore, MediaKeeper, VolumeImage};
use std::alloc::{AllocError, Global};
use std::io::Write;
use tape_flush::StoreFault;
use target_core::TargetCore;

/// The inventory's file in a folder, with the volumes that are missing, as at the start.
#[derive(Drop)]
pub struct FolderInventory<'a> {
    files: &'a HostRuntime,
    folder: &'a LibraryFolder,
    missing: Vec<PlacedVolume>,
}

impl<'a> InventoryStore for FolderInventory<'a> {
    fn write(&mut self, inventory: &Inventory) -> Result<(), StoreFault> {
        write_inventory_file(self.files, self.folder, inventory, &self.missing)?;
        Ok(())
    }
}

/// Keeps the volumes of a library, and where they are, in a folder.
pub type FolderKeeper<'a> = MediaKeeper<FileStore<'a, HostRuntime>, FolderInventory<'a>>;

/// A library whose volumes were read from a folder, and what keeps them there.
#[derive(Drop)]
pub(crate) struct SavedLibrary<'a> {
    pub core: TargetCore<Device>,
    pub keeper: FolderKeeper<'a>,
}

/// Reads a library from its folder, whose volumes take no more memory together than the limit says, and writes where they are from now
/// on. What is lost, left or missing there is told on `errors`, and that the volumes may hold more than the limit says.
pub(crate) fn saved_library<'a, E: Write>(
    alloc: Global,
    files: &'a HostRuntime,
    media: &'a LockedMedia,
    volume_size: u64,
    memory: Option<u64>,
    errors: &mut E,
) -> Result<SavedLibrary<'a>, SocketFault>
    requires some { 0 < volume_size }
    requires within { volume_size ≤ capacity_limit }
{
    let LockedMedia { folder, wanted } = media;
    let limit = memory_limit(alloc, memory)?;
    let OpenedFolder {
        profile,
        size,
        volumes,
        missing,
        inventory: write,
    } = open_folder(files, folder, *wanted, volume_size, &limit, errors)?;
    tell_larger(volumes.len(), volume_size, memory, errors);
    let inventory = inventory_of(alloc, profile, size, &volumes)?;
    let is_written = begin_inventory(files, folder, &inventory, &missing, write, errors)?;
    let (started, images) = parted(alloc, volumes)?;
    let core = library_of_volumes(alloc, profile, size, started).map_err(fault_of)?;
    let store = FolderInventory {
        files,
        folder,
        missing,
    };
    let keeper = MediaKeeper::new(alloc, profile, size, images, store)?;
    if !is_written {
        keeper.note_unwritten_inventory();
    }
    Ok(SavedLibrary { core, keeper })
}

/// Where volumes are, and from where they came.
fn inventory_of<'a>(
    alloc: Global,
    profile: LibraryProfile,
    size: LibrarySize,
    volumes: &[KeptVolume<'a, HostRuntime>],
) -> Result<Inventory, SocketFault> {
    let mut inventory = Inventory::new(alloc, profile, size);
    for kept in volumes {
        let placed = PlacedVolume {
            tag: kept.volume.tag,
            element: kept.element,
            source: kept.source,
        };
        if inventory.add(placed).is_err() {
            return Err(SocketFault::from(AllocError));
        }
    }
    Ok(inventory)
}

/// The volumes, and their images.
fn parted<'a>(
    alloc: Global,
    volumes: Vec<KeptVolume<'a, HostRuntime>>,
) -> Result<
    (
        Vec<StartedVolume>,
        Vec<VolumeImage<FileStore<'a, HostRuntime>>>,
    ),
    AllocError,
> {
    let mut started = Vec::new(alloc);
    let mut images = Vec::new(alloc);
    for kept in volumes {
        let KeptVolume {
            element,
            source,
            volume,
            image,
        } = kept;
        images.push(VolumeImage::new(&volume, image))?;
        started.push(StartedVolume {
            element,
            source,
            volume,
        })?;
    }
    Ok((started, images))
}

/// Why no library was made of volumes: what was read is in elements that are there, each in one.
fn fault_of(fault: LibraryFault) -> SocketFault {
    match fault {
        LibraryFault::NoMemory | LibraryFault::BadElement => SocketFault::from(AllocError),
    }
}
