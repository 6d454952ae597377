//! The folder itself, and its locks.
ghost use Rattle.std.specs.Prelude.{◌≡◌, string_bytes, IfOk};

use crate::fault::FolderFault;
use crate::identity::FileIdentity;
use crate::inventory_file::has_inventory;
use crate::names::{FolderPaths, path_in};
use crate::rights::{NEW_FILE, NEW_FOLDER, is_open_to_others};
use program_options::WithoutLibrary;
use std::alloc::{AllocError, Global};
use std::fs::{self, DirBuilder, File, Files, Metadata, OpenOptions, TryLockError};
use std::io::{self, ErrorKind};
use std::marker::Model;
use std::os::fd::AsRawFd;
use std::os::unix::fs::{DirBuilderExt, MetadataExt, OpenOptionsExt};
use std::sync::atomic::{AtomicBool, Ordering};
use tape_flush::StoreFault;

/// The name of the file whose lock other machines see.
const LOCK_NAME: &str = "library.lock";

/// The folder of a library, which no other program has as long as this exists. A lock is on the folder itself, and one on a file in it, since
/// the clients of some file systems that machines share keep a lock on a folder to themselves. The system gives both back however the
/// program ends.
#[derive(Drop)]
pub struct LibraryFolder {
    path: String,
    /// The path to its descriptor, which leads to it as long as it is open.
    opened: String,
    folder: File,
    identity: FileIdentity,
    /// None in a file system in which nothing can be written.
    lock: Option<LockFile>,
    /// Whether the lock was found lost. It is not asked for again.
    is_lost: AtomicBool,
}

/// The file whose lock other machines see.
#[derive(Drop)]
struct LockFile {
    path: String,
    file: File,
    identity: FileIdentity,
}

/// Why names in a folder may not be changed any more.
#[derive(Clone, Copy)]
pub(crate) enum FolderLoss {
    /// Its path leads to another folder, or nowhere; or that of its lock's file does.
    Moved,
    /// Another program may have it.
    LockLost,
}

impl From<FolderLoss> for StoreFault {
    fn from(loss: FolderLoss) -> StoreFault {
        match loss {
            FolderLoss::Moved => StoreFault::Moved,
            FolderLoss::LockLost => StoreFault::LockLost,
        }
    }
}

/// It is seen as its path.
impl Model for LibraryFolder {
    ghost use Rattle.std.specs.Prelude.{ℕ, List, string_bytes};

    ghost Value = { List ℕ };

    ghost view = { λ folder. string_bytes folder.path };
}

impl LibraryFolder {
    /// The path that was given.
    pub fn path(&self) -> &str
        ensures { result.now ≡ self.now }
    {
        self.path.as_str()
    }

    /// The same, and the one by which its files are opened.
    pub(crate) fn paths(&self) -> FolderPaths<'_>
        ensures { result.given.now ≡ self.now }
    {
        FolderPaths {
            given: self.path.as_str(),
            opened: self.opened.as_str(),
        }
    }

    /// Whether names in it may be changed: its path and that of its lock's file still lead to what was opened, and not to what took its
    /// place, or from where it was unmounted, and its lock is still held. Once that is lost, it counts as lost for ever.
    pub(crate) fn look<R: Files>(&self, rt: &R) -> Result<(), FolderLoss> {
        if self.is_lost.load(Ordering::SeqCst) {
            return Err(FolderLoss::LockLost);
        }
        if !leads_to(rt, self.path.as_str(), self.identity) {
            return Err(FolderLoss::Moved);
        }
        let Some(lock) = &self.lock else {
            return Ok(());
        };
        if !leads_to(rt, lock.path.as_str(), lock.identity) {
            return Err(FolderLoss::Moved);
        }
        match lock.file.try_lock() {
            Ok(()) => Ok(()),
            Err(_) => {
                self.is_lost.store(true, Ordering::SeqCst);
                Err(FolderLoss::LockLost)
            }
        }
    }

    /// Brings the names of its files to the disk.
    pub(crate) fn sync(&self) -> io::Result<()> {
        self.folder.sync_all()
    }
}

/// Whether a path leads to a file.
fn leads_to<R: Files>(rt: &R, path: &str, identity: FileIdentity) -> bool {
    match fs::metadata(rt, path) {
        Ok(metadata) => FileIdentity::of(&metadata) == identity,
        Err(_) => false,
    }
}

/// Opens a folder and takes its locks. Where it isn't there it is made, or refused.
pub fn lock_folder<R: AllocGlobal + Files<File = File>>(
    rt: &R,
    path: &str,
    without: WithoutLibrary,
) -> Result<LibraryFolder, FolderFault>
    ensures { IfOk result (λ folder. folder ≡ path.now) }
{
    let alloc = rt.alloc();
    if without == WithoutLibrary::Make {
        if let Err(error) = make_folder(rt, path) {
            return Err(FolderFault::CannotMake(String::from_str(alloc, path)?, error));
        }
    }
    let (folder, metadata) = match opened(rt, path) {
        Ok(opened) => opened,
        Err(error) => return Err(FolderFault::of_folder(String::from_str(alloc, path)?, error)),
    };
    take_lock(alloc, &folder, path, path)?;
    let identity = FileIdentity::of(&metadata);
    let opened = opened_path(rt, path, &folder, identity)?;
    look_for_library(
        rt,
        FolderPaths {
            given: path,
            opened: opened.as_str(),
        },
        without,
    )?;
    let lock = lock_file(rt, path, opened.as_str())?;
    Ok(LibraryFolder {
        path: String::from_str(alloc, path)?,
        opened,
        folder,
        identity,
        lock,
        is_lost: AtomicBool::new(false),
    })
}

/// Whether users other than its owner may read or write the folder at a path.
pub(crate) fn is_folder_open<R: Files>(rt: &R, path: &str) -> bool {
    match fs::metadata(rt, path) {
        Ok(metadata) => is_open_to_others(metadata.mode()),
        Err(_) => false,
    }
}

/// Makes a folder, and those above it, if it isn't there.
fn make_folder<R: Files>(rt: &R, path: &str) -> io::Result<()> {
    DirBuilder::new()
        .recursive(true)
        .mode(NEW_FOLDER)
        .create(rt, path)
}

/// A folder that is open, and what is known of it. Something else than a folder isn't opened.
fn opened<R: Files<File = File>>(rt: &R, path: &str) -> io::Result<(File, Metadata)> {
    if !fs::metadata(rt, path)?.is_dir() {
        return Err(io::Error::from(ErrorKind::NotADirectory));
    }
    let folder = fs::open(rt, path)?;
    let metadata = folder.metadata()?;
    Ok((folder, metadata))
}

/// The path to the descriptor of a folder (proc(5)). Without it what is written could go into a folder that took the place of this one.
fn opened_path<R: AllocGlobal + Files>(
    rt: &R,
    path: &str,
    folder: &File,
    identity: FileIdentity,
) -> Result<String, FolderFault> {
    let number = folder.as_raw_fd();
    let opened = format!(in rt.alloc(); "/proc/self/fd/{number}")?;
    if leads_to(rt, opened.as_str(), identity) {
        Ok(opened)
    } else {
        Err(FolderFault::NoProc(String::from_str(rt.alloc(), path)?))
    }
}

/// Takes the lock of a file. Where another program has it, it has the folder.
fn take_lock(alloc: Global, file: &File, path: &str, folder: &str) -> Result<(), FolderFault> {
    match file.try_lock() {
        Ok(()) => Ok(()),
        Err(TryLockError::WouldBlock) => Err(FolderFault::InUse(String::from_str(alloc, folder)?)),
        Err(TryLockError::Error(error)) => {
            Err(FolderFault::CannotLock(String::from_str(alloc, path)?, error))
        }
    }
}

/// Refuses a folder that has no library where none is to be made. Nothing is left there.
fn look_for_library<R: AllocGlobal + Files>(
    rt: &R,
    folder: FolderPaths<'_>,
    without: WithoutLibrary,
) -> Result<(), FolderFault> {
    if without == WithoutLibrary::Make || has_inventory(rt, folder)? {
        return Ok(());
    }
    Err(FolderFault::NoLibrary(String::from_str(rt.alloc(), folder.given)?))
}

/// The file of a folder whose lock other machines see, which is made if it isn't there. It stays there, so that no two programs have locks
/// of two files. A file system in which nothing can be written has none.
fn lock_file<R: AllocGlobal + Files<File = File>>(
    rt: &R,
    folder: &str,
    opened: &str,
) -> Result<Option<LockFile>, FolderFault> {
    let alloc = rt.alloc();
    let path = path_in(alloc, folder, LOCK_NAME)?;
    let place = path_in(alloc, opened, LOCK_NAME)?;
    let file = match open_lock(rt, place.as_str()) {
        Ok(file) => file,
        Err(error) if error.kind() == ErrorKind::ReadOnlyFilesystem => return Ok(None),
        Err(error) => return Err(FolderFault::CannotLock(path, error)),
    };
    take_lock(alloc, &file, path.as_str(), folder)?;
    match file.metadata() {
        Ok(metadata) => Ok(Some(LockFile {
            path,
            file,
            identity: FileIdentity::of(&metadata),
        })),
        Err(error) => Err(FolderFault::CannotLock(path, error)),
    }
}

/// Opens the file of a lock to read and to write, since the clients of some file systems lock no other. What isn't a regular file isn't
/// opened.
fn open_lock<R: Files<File = File>>(rt: &R, path: &str) -> io::Result<File> {
    match fs::metadata(rt, path) {
        Ok(metadata) if metadata.is_file() => {}
        Ok(_) => return Err(io::Error::new(ErrorKind::InvalidInput, "it is not a regular file")),
        Err(error) if error.kind() == ErrorKind::NotFound => {}
        Err(error) => return Err(error),
    }
    OpenOptions::new()
        .read(true)
        .write(true)
        .create(true)
        .mode(NEW_FILE)
        .open(rt, path)
}
