ghost use Rattle.std.specs.Prelude.{◌≡◌};
ghost use Rattle.media_folder.specs.Faults.{check_status};

use crate::fault::FolderFault;
use std::alloc::AllocError;
use std::fmt;
use thiserror::Error;

/// What is wrong with a folder that was checked.
#[derive(Debug, Drop, Error)]
pub enum CheckFault {
    /// It couldn't be checked.
    Folder(#[from] FolderFault),
    /// So many of its volumes have faulty images, or none of their own.
    Faulty { path: String, count: usize },
    /// The images of so many of its volumes couldn't be read.
    CannotRead { path: String, count: usize },
    /// The lines couldn't be written.
    Write,
}

impl CheckFault {
    /// The exit status of a program that ends by it (profile).
    pub fn status(&self) -> u8
        ensures { result ≡ check_status self.now }
    {
        match self {
            CheckFault::Folder(fault) => fault.status(),
            CheckFault::Faulty { .. } => 2,
            CheckFault::CannotRead { .. } | CheckFault::Write => 4,
        }
    }
}

impl From<AllocError> for CheckFault {
    fn from(_error: AllocError) -> CheckFault {
        CheckFault::Folder(FolderFault::NoMemory)
    }
}

impl fmt::Display for CheckFault {
    fn fmt<W: fmt::Write>(&self, f: &mut fmt::Formatter<W>) -> fmt::Result {
        match self {
            CheckFault::Folder(fault) => write!(f, "{fault}"),
            CheckFault::Faulty { path, count } => {
                write!(f, "vtl: {path}: volumes with a fault: {count}")
            }
            CheckFault::CannotRead { path, count } => write!(
                f,
                "vtl: device fault\nvtl: {path}: volumes that can't be read: {count}"
            ),
            CheckFault::Write => {
                f.write_str("vtl: device fault\nvtl: the lines of the volumes could not be written")
            }
        }
    }
}
