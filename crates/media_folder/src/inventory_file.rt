//! The file of a library's inventory.
use crate::fault::FolderFault;
use crate::inventory_text::{KeptLibrary, read_inventory, write_inventory};
use crate::library_folder::{FolderLoss, LibraryFolder};
use crate::names::{FilePaths, FolderPaths};
use crate::notice::{Notice, tell};
use crate::rights::is_open_to_others;
use crate::small_file::{SmallFileFault, make_anew, read_small_file};
use crate::text_fault::ReadFault;
use library_inventory::{Inventory, PlacedVolume};
use program_options::{LibraryProfile, WithoutLibrary};
use std::alloc::{AllocError, Global};
use std::fs::{self, File, Files};
use std::io::{self, ErrorKind, Write};
use std::os::unix::fs::MetadataExt;

const NAME: &str = "library.toml";

/// What is written before it takes the place of the other.
const NEW_NAME: &str = "library.toml.new";

/// How many bytes an inventory has at most. One of 1,040 volumes has less than a tenth of that.
const MOST_BYTES: u64 = 1_048_576;

/// What the inventory's file of a folder says, if it has one.
pub(crate) fn read_inventory_file<R: AllocGlobal + Files>(
    rt: &R,
    folder: FolderPaths<'_>,
) -> Result<Option<KeptLibrary>, FolderFault> {
    let FilePaths { given, opened } = folder.file(rt.alloc(), NAME)?;
    let bytes = match read_small_file(rt, opened.as_str(), MOST_BYTES) {
        Ok(Some(bytes)) => bytes,
        Ok(None) => return Ok(None),
        Err(fault) => return no_text(given, fault),
    };
    match read_inventory(rt.alloc(), &bytes) {
        Ok(kept) => Ok(Some(kept)),
        Err(fault) => Err(FolderFault::of_inventory(given, fault)),
    }
}

/// What it means that the file of an inventory gives no text.
fn no_text(path: String, fault: SmallFileFault) -> Result<Option<KeptLibrary>, FolderFault> {
    match fault {
        SmallFileFault::NotRegular => Err(FolderFault::BadInventory(path, ReadFault::NotRegular)),
        SmallFileFault::TooLong => Err(FolderFault::BadInventory(path, ReadFault::TooLong)),
        SmallFileFault::System(error) if error.kind() == ErrorKind::NotADirectory => Ok(None),
        SmallFileFault::System(error) => Err(FolderFault::of_reading(path, error)),
    }
}

/// What the inventory's file says of a folder that has one, or in which a library is made.
pub(crate) fn kept_inventory<R: AllocGlobal + Files>(
    rt: &R,
    folder: FolderPaths<'_>,
    without: WithoutLibrary,
) -> Result<Option<KeptLibrary>, FolderFault> {
    match (read_inventory_file(rt, folder)?, without) {
        (None, WithoutLibrary::Refuse) => {
            Err(FolderFault::NoLibrary(String::from_str(rt.alloc(), folder.given)?))
        }
        (kept, _) => Ok(kept),
    }
}

/// Whether a folder has an inventory, also one that can't be looked at.
pub(crate) fn has_inventory<R: AllocGlobal + Files>(
    rt: &R,
    folder: FolderPaths<'_>,
) -> Result<bool, AllocError> {
    let path = folder.file(rt.alloc(), NAME)?;
    match fs::metadata(rt, path.opened.as_str()) {
        Ok(_) => Ok(true),
        Err(error) => Ok(error.kind() != ErrorKind::NotFound),
    }
}

/// Whether a folder has an inventory that users other than its owner may read or write.
pub(crate) fn is_inventory_open<R: AllocGlobal + Files>(
    rt: &R,
    folder: FolderPaths<'_>,
) -> Result<bool, AllocError> {
    let path = folder.file(rt.alloc(), NAME)?;
    match fs::metadata(rt, path.opened.as_str()) {
        Ok(metadata) => Ok(is_open_to_others(metadata.mode())),
        Err(_) => Ok(false),
    }
}

/// Whether a library may be served before its inventory is written.
#[derive(Clone, Copy, PartialEq, Eq)]
pub enum InventoryWrite {
    /// It may not: the folder has no inventory of this library yet, or what its file orders was carried out, which would be done again.
    Required,
    /// It may: the file says where the volumes were, and is written as soon as it can be.
    MayFail,
}

impl InventoryWrite {
    /// Of a library that is started with a profile.
    pub(crate) fn of_start(kept: &Option<KeptLibrary>, profile: LibraryProfile) -> InventoryWrite {
        match kept {
            Some(kept) if kept.inventory.profile() == profile && !kept.has_orders() => {
                InventoryWrite::MayFail
            }
            Some(_) | None => InventoryWrite::Required,
        }
    }
}

/// Writes the inventory of a library that is opened, as `write_inventory_file` does. Whether it is written: where it may wait, that it isn't is
/// reported.
pub fn begin_inventory<R: AllocGlobal + Files<File = File>, E: Write>(
    rt: &R,
    folder: &LibraryFolder,
    inventory: &Inventory,
    missing: &[PlacedVolume],
    write: InventoryWrite,
    errors: &mut E,
) -> Result<bool, FolderFault> {
    match (write_inventory_file(rt, folder, inventory, missing), write) {
        (Ok(()), _) => Ok(true),
        (Err(FolderFault::CannotWrite(path, error)), InventoryWrite::MayFail) => {
            let path = path.as_str();
            tell(errors, &Notice::InventoryUnwritten { path, error });
            Ok(false)
        }
        (Err(fault), _) => Err(fault),
    }
}

/// Writes an inventory, with volumes that are missing, into a folder, in place of the one that is there: whatever fails, the file is the
/// whole old one or the whole new one. It fails where the folder's path leads to another one meanwhile, or its lock is lost.
pub fn write_inventory_file<R: AllocGlobal + Files<File = File>>(
    rt: &R,
    folder: &LibraryFolder,
    inventory: &Inventory,
    missing: &[PlacedVolume],
) -> Result<(), FolderFault> {
    let text = write_inventory(rt.alloc(), inventory, missing)?;
    let own = folder.paths().file(rt.alloc(), NAME)?;
    let new = folder.paths().file(rt.alloc(), NEW_NAME)?;
    look(rt, folder)?;
    if let Err(error) = write_synced(rt, new.opened.as_str(), text.as_bytes()) {
        return Err(FolderFault::CannotWrite(new.given, error));
    }
    if let Err(error) = fs::rename(rt, new.opened.as_str(), own.opened.as_str()) {
        return Err(FolderFault::CannotWrite(own.given, error));
    }
    sync_folder(rt.alloc(), folder)?;
    look(rt, folder)
}

/// Looks whether names in a folder may be changed, and are then found by its path.
fn look<R: AllocGlobal + Files>(rt: &R, folder: &LibraryFolder) -> Result<(), FolderFault> {
    let path = String::from_str(rt.alloc(), folder.path())?;
    match folder.look(rt) {
        Ok(()) => Ok(()),
        Err(FolderLoss::Moved) => Err(FolderFault::Moved(path)),
        Err(FolderLoss::LockLost) => Err(FolderFault::LockLost(path)),
    }
}

/// Writes a new file, and brings it to the disk.
fn write_synced<R: Files<File = File>>(rt: &R, path: &str, bytes: &[u8]) -> io::Result<()> {
    let mut file = make_anew(rt, path)?;
    file.write_all(bytes)?;
    file.sync_all()
}

/// Brings the names of a folder's files to the disk.
pub(crate) fn sync_folder(alloc: Global, folder: &LibraryFolder) -> Result<(), FolderFault> {
    match folder.sync() {
        Ok(()) => Ok(()),
        Err(error) => {
            let path = String::from_str(alloc, folder.path())?;
            Err(FolderFault::CannotWrite(path, error))
        }
    }
}
