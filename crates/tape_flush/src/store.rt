use std::alloc::AllocError;
use std::io::{self, ErrorKind};
use thiserror::Error;

/// Why a file did not take what it was given.
#[derive(Clone, Copy, Debug, Error)]
pub enum StoreFault {
    /// There is no room for more bytes.
    #[error("disk full")]
    Full,
    #[error("disk error")]
    Failed,
    /// Something else has changed the file, or taken its place.
    #[error("something else has changed the file, or taken its place")]
    Changed,
    /// The path of the folder leads to another one, or nowhere.
    #[error("the path of its folder no longer leads there")]
    Moved,
    /// Another program may have the folder.
    #[error("the lock of its folder is lost")]
    LockLost,
    /// The system says why.
    #[error("{0}")]
    System(io::Error),
}

impl From<io::Error> for StoreFault {
    fn from(error: io::Error) -> StoreFault {
        match error.kind() {
            ErrorKind::StorageFull | ErrorKind::QuotaExceeded | ErrorKind::FileTooLarge => {
                StoreFault::Full
            }
            _ => StoreFault::System(error),
        }
    }
}

impl From<AllocError> for StoreFault {
    fn from(error: AllocError) -> StoreFault {
        StoreFault::System(io::Error::from(error))
    }
}

/// A file that keeps an image, and next to it a record on the disk of how much of the file is known to be there. Each call may fail, and
/// may be tried again.
///
/// `did` says that a call led from one state of a store to another. A store need say nothing by it; but code that is generic over stores
/// gets it from these calls alone, so a clause with it says which calls were made, in which order and with which result, of every store.
pub trait ImageStore {
    ghost use Rattle.std.specs.Prelude.{Option, None, is_ok, IfOk};
    ghost use Rattle.tape_flush.specs.Stores.{StoreCall, FileValue, DoesTo, IsNewFile, Truncate, Append, Sync, Note};

    // The file, where its bytes are known.
    ghost file: { Self → Option FileValue } = { λ _. None };

    ghost did: { Self → StoreCall → Self → Type 0 };

    /// Cuts the file back to its first `size` bytes, or leaves it where it has no more. Where it fails the file may have more of its first
    /// bytes, also all.
    fn truncate(&mut self, size: u64) -> Result<(), StoreFault>
        ensures { did self.old (Truncate size (is_ok result)) self.new };

    /// Adds bytes at the end, which has to be at an offset: a file that ends elsewhere was changed by something else, and is left. Where it
    /// fails the first of them may have been added, also all.
    fn append(&mut self, offset: u64, bytes: &[u8]) -> Result<(), StoreFault>
        ensures { did self.old (Append offset bytes.now (is_ok result)) self.new };

    /// Brings the file to the disk, with its length, as fdatasync does. A system reports once that this failed, and forgets what it had to
    /// write: then the file has on the disk what an earlier sync brought there, and anything after it.
    fn sync(&mut self) -> Result<(), StoreFault>
        ensures { did self.old (Sync (is_ok result)) self.new };

    /// Notes on the disk that the first `size` bytes of the file are there. Where it fails the record may say either.
    fn note(&mut self, size: u64) -> Result<(), StoreFault>
        ensures { did self.old (Note size (is_ok result)) self.new };

    /// A new file for the same image, without a byte. It takes the place of this file on the disk when its record is noted for the first
    /// time; until then a power cut finds this one. Nothing is done with this one any more after the new one was written on.
    fn renewed(&self) -> Result<Self, StoreFault>
        ensures { IfOk result (λ store. IsNewFile (file store)) };

    // What a call does to a file whose bytes are known.
    ghost does: { (before : Self) (call : StoreCall) (after : Self) → did before call after → DoesTo call (file before) (file after) };
}
