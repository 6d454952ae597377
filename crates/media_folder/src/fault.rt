ghost use Rattle.std.specs.Prelude.{◌≡◌};
ghost use Rattle.media_folder.specs.Faults.{folder_status};

use crate::text_fault::{InventoryKey, ReadFault, VolumeFault, WriteFault};
use library_inventory::{AddFault, LibrarySize, SizeOption, StartFault};
use std::alloc::AllocError;
use std::fmt;
use std::io::{self, ErrorKind};
use tape_flush::StoreFault;
use thiserror::Error;

/// Why a folder isn't opened, or its inventory isn't written. Paths are those that were given, and of files in the folder.
#[derive(Debug, Drop, Error)]
pub enum FolderFault {
    NoMemory,
    /// The folder isn't there, and can't be made. Like those that follow it has the reason that the system gives.
    CannotMake(String, io::Error),
    CannotRead(String, io::Error),
    CannotWrite(String, io::Error),
    CannotLock(String, io::Error),
    /// The path leads to another folder than the one that was opened, or nowhere; or that of its lock's file does.
    Moved(String),
    /// Another program may have the folder.
    LockLost(String),
    /// A folder that is open can't be reached by its descriptor.
    NoProc(String),
    /// Another program has the folder.
    InUse(String),
    /// The folder isn't there, or has no inventory.
    NoLibrary(String),
    /// The text of the inventory is none.
    BadInventory(String, ReadFault),
    /// No library is made of this.
    NoSize(LibrarySize),
    /// Options disagree with the inventory, or there are too few elements or tags.
    Start(StartFault),
    /// There are images in the folder, and none of them can be served.
    NothingServed(String),
    /// A volume that is to be write-protected has no file, which would be this one.
    NothingToProtect(String),
    /// A tag has no name that a file can have.
    NoName,
    /// The system gives no random number for a library.
    NoNumber,
}

impl FolderFault {
    /// Why something at a path wasn't read.
    pub(crate) fn of_reading(path: String, error: io::Error) -> FolderFault {
        match error.kind() {
            ErrorKind::OutOfMemory => FolderFault::NoMemory,
            _ => FolderFault::CannotRead(path, error),
        }
    }

    /// Why a folder isn't opened.
    pub(crate) fn of_folder(path: String, error: io::Error) -> FolderFault {
        match error.kind() {
            ErrorKind::NotFound | ErrorKind::NotADirectory => FolderFault::NoLibrary(path),
            _ => FolderFault::of_reading(path, error),
        }
    }

    /// Why an inventory at a path has none that can be read.
    pub(crate) fn of_inventory(path: String, fault: ReadFault) -> FolderFault {
        match fault {
            ReadFault::NoMemory => FolderFault::NoMemory,
            _ => FolderFault::BadInventory(path, fault),
        }
    }

    /// Why a library isn't started.
    pub(crate) fn of_start(fault: StartFault) -> FolderFault {
        match fault {
            StartFault::NoMemory => FolderFault::NoMemory,
            _ => FolderFault::Start(fault),
        }
    }

    /// The exit status of a program that ends by it: 2 where something is to be corrected first, 3 where memory is refused, else 4
    /// (profile).
    pub fn status(&self) -> u8
        ensures { result ≡ folder_status self.now }
    {
        match self {
            FolderFault::NoMemory => 3,
            FolderFault::CannotMake(_, _)
            | FolderFault::CannotRead(_, _)
            | FolderFault::CannotWrite(_, _)
            | FolderFault::CannotLock(_, _)
            | FolderFault::Moved(_)
            | FolderFault::LockLost(_)
            | FolderFault::NoProc(_)
            | FolderFault::NoNumber => 4,
            FolderFault::InUse(_)
            | FolderFault::NoLibrary(_)
            | FolderFault::BadInventory(_, _)
            | FolderFault::NoSize(_)
            | FolderFault::Start(_)
            | FolderFault::NothingServed(_)
            | FolderFault::NothingToProtect(_)
            | FolderFault::NoName => 2,
        }
    }
}

impl From<AllocError> for FolderFault {
    fn from(_error: AllocError) -> FolderFault {
        FolderFault::NoMemory
    }
}

/// Why what is kept of a library isn't written while it is served.
impl From<FolderFault> for StoreFault {
    fn from(fault: FolderFault) -> StoreFault {
        match fault {
            FolderFault::CannotMake(_, error)
            | FolderFault::CannotRead(_, error)
            | FolderFault::CannotWrite(_, error)
            | FolderFault::CannotLock(_, error) => StoreFault::from(error),
            FolderFault::Moved(_) => StoreFault::Moved,
            FolderFault::LockLost(_) => StoreFault::LockLost,
            FolderFault::NoMemory => StoreFault::from(AllocError),
            FolderFault::NoProc(_)
            | FolderFault::InUse(_)
            | FolderFault::NoLibrary(_)
            | FolderFault::BadInventory(_, _)
            | FolderFault::NoSize(_)
            | FolderFault::Start(_)
            | FolderFault::NothingServed(_)
            | FolderFault::NothingToProtect(_)
            | FolderFault::NoName
            | FolderFault::NoNumber => StoreFault::Failed,
        }
    }
}

impl From<WriteFault> for FolderFault {
    fn from(fault: WriteFault) -> FolderFault {
        match fault {
            WriteFault::NoMemory => FolderFault::NoMemory,
            WriteFault::NoName => FolderFault::NoName,
        }
    }
}

impl fmt::Display for FolderFault {
    fn fmt<W: fmt::Write>(&self, f: &mut fmt::Formatter<W>) -> fmt::Result {
        match self {
            FolderFault::NoMemory => write!(f, "vtl: want of memory"),
            FolderFault::CannotMake(path, error) => {
                write!(f, "vtl: device fault\nvtl: cannot make {path}: {error}")
            }
            FolderFault::CannotRead(path, error) => {
                write!(f, "vtl: device fault\nvtl: cannot read {path}: {error}")
            }
            FolderFault::CannotWrite(path, error) => {
                write!(f, "vtl: device fault\nvtl: cannot write {path}: {error}")
            }
            FolderFault::CannotLock(path, error) => {
                write!(f, "vtl: device fault\nvtl: cannot lock {path}: {error}")
            }
            FolderFault::LockLost(path) => {
                write!(f, "vtl: device fault\nvtl: the lock of {path} is lost")
            }
            FolderFault::NoProc(path) => {
                write!(
                    f,
                    "vtl: device fault\nvtl: {path}: /proc/self/fd does not lead there: /proc has to be mounted"
                )
            }
            FolderFault::Moved(path) => {
                write!(
                    f,
                    "vtl: device fault\nvtl: {path} no longer leads to the folder that was opened"
                )
            }
            FolderFault::NoLibrary(path) => write!(
                f,
                "vtl: {path}: there is no library here (no library.toml); --new-library makes one"
            ),
            FolderFault::NothingServed(path) => {
                write!(f, "vtl: {path}: none of the images here can be served")
            }
            FolderFault::NothingToProtect(path) => write!(
                f,
                "vtl: {path}: it is not there, and library.toml wants it write-protected"
            ),
            FolderFault::InUse(path) => write!(f, "vtl: {path}: another program has this folder"),
            FolderFault::BadInventory(path, fault) => {
                write!(f, "vtl: {path}: ")?;
                write_read_fault(f, fault)
            }
            FolderFault::NoSize(size) => write_size(f, size),
            FolderFault::Start(fault) => write_start_fault(f, fault),
            FolderFault::NoName => write!(f, "vtl: a volume has a tag that no file can have"),
            FolderFault::NoNumber => write!(
                f,
                "vtl: device fault\nvtl: the system gives no random number for the library"
            ),
        }
    }
}

fn write_size<W: fmt::Write>(f: &mut fmt::Formatter<W>, size: &LibrarySize) -> fmt::Result {
    let LibrarySize {
        drives,
        slots,
        import_exports,
    } = *size;
    write!(
        f,
        "vtl: no library has {drives} drives, {slots} slots and {import_exports} import/export elements"
    )
}

fn write_start_fault<W: fmt::Write>(f: &mut fmt::Formatter<W>, fault: &StartFault) -> fmt::Result {
    match fault {
        StartFault::Disagrees {
            option,
            given,
            kept,
        } => {
            let name = option_name(*option);
            write!(
                f,
                "vtl: {name} {given} disagrees with the inventory, which has {kept}"
            )
        }
        _ => write!(f, "vtl: {fault}"),
    }
}

fn option_name(option: SizeOption) -> &'static str {
    match option {
        SizeOption::Drives => "--drives",
        SizeOption::Slots => "--slots",
        SizeOption::ImportExports => "--portals",
    }
}

fn write_read_fault<W: fmt::Write>(f: &mut fmt::Formatter<W>, fault: &ReadFault) -> fmt::Result {
    match fault {
        ReadFault::UnknownVersion(version) => write!(f, "unknown version {version}"),
        ReadFault::BadKey(key) => {
            let name = key_name(*key);
            write!(f, "{name} is missing, or has a bad value")
        }
        ReadFault::BadTags(key) => {
            let name = key_name(*key);
            write!(
                f,
                "{name} needs a list of tags, each once, of 1 to 32 letters, digits, _ and -"
            )
        }
        ReadFault::Volume { nth, fault } => {
            let words = volume_words(*fault);
            write!(f, "of the volumes, counted from 0, number {nth}: {words}")
        }
        ReadFault::Missing { nth, fault } => {
            let words = volume_words(*fault);
            write!(
                f,
                "of the missing volumes, counted from 0, number {nth}: {words}"
            )
        }
        _ => write!(f, "{fault}"),
    }
}

fn key_name(key: InventoryKey) -> &'static str {
    match key {
        InventoryKey::Version => "version",
        InventoryKey::Drives => "drives",
        InventoryKey::Slots => "slots",
        InventoryKey::ImportExports => "portals",
        InventoryKey::Profile => "profile",
        InventoryKey::LibraryNumber => "library",
        InventoryKey::Volume => "volume",
        InventoryKey::Missing => "missing",
        InventoryKey::Blank => "blank",
        InventoryKey::Protect => "protect",
    }
}

/// What is wrong with a volume of an inventory.
fn volume_words(fault: VolumeFault) -> &'static str {
    match fault {
        VolumeFault::NoTable => "no table",
        VolumeFault::NoTag => "no tag of 1 to 32 letters, digits, _ and -",
        VolumeFault::NoElement => {
            "it needs exactly one of data_transfer, storage and import_export, with a number"
        }
        VolumeFault::NoSource => {
            "its source needs exactly one of data_transfer, storage and import_export, with a number"
        }
        VolumeFault::Refused(AddFault::NoElement) => "no such element",
        VolumeFault::Refused(AddFault::ElementTwice) => "another volume is in its element",
        VolumeFault::Refused(AddFault::TagTwice) => "another volume has its tag",
        VolumeFault::Refused(AddFault::BadSource) => {
            "only a volume in a drive has a source, which is a storage or import/export element of the library"
        }
        VolumeFault::Refused(AddFault::NoMemory) => "want of memory",
    }
}
