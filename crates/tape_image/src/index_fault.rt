use crate::fault::PastLastOffset;
use std::alloc::{AllocError, AllocFailed};
use std::io;
use thiserror::Error;

/// Why an image has no index. What was read of it is lost.
#[derive(Clone, Copy, Debug, Error)]
pub enum IndexFault {
    #[error("want of memory")]
    NoMemory,
    /// A read failed, also by an interruption.
    #[error("the image could not be read")]
    Read,
    #[error("image of 2^64 bytes or more")]
    PastLastOffset,
    /// A block that is longer than is wanted, at the offset `whole`, in bytes, after so many objects.
    #[error("block too long")]
    TooLong { objects: u64, whole: u64 },
}

impl From<AllocError> for IndexFault {
    ghost use Rattle.std.specs.Prelude.{◌≡◌};
    ghost use Rattle.tape_image.specs.declared.index_fault.IndexFault.TheVariants.{NoMemory};

    ghost from_gives = { λ _ fault. fault ≡ NoMemory };

    fn from(_error: AllocError) -> IndexFault {
        IndexFault::NoMemory
    }
}

impl<T: Drop> From<AllocFailed<T>> for IndexFault {
    ghost use Rattle.std.specs.Prelude.{◌≡◌};
    ghost use Rattle.tape_image.specs.declared.index_fault.IndexFault.TheVariants.{NoMemory};

    ghost from_gives = { λ _ fault. fault ≡ NoMemory };

    fn from(_error: AllocFailed<T>) -> IndexFault {
        IndexFault::NoMemory
    }
}

impl From<io::Error> for IndexFault {
    ghost use Rattle.std.specs.Prelude.{◌≡◌};
    ghost use Rattle.tape_image.specs.declared.index_fault.IndexFault.TheVariants.{Read};

    ghost from_gives = { λ _ fault. fault ≡ Read };

    fn from(_error: io::Error) -> IndexFault {
        IndexFault::Read
    }
}

impl From<PastLastOffset> for IndexFault {
    ghost use Rattle.std.specs.Prelude.{◌≡◌};
    ghost use Rattle.tape_image.specs.declared.index_fault.IndexFault.TheVariants.{PastLastOffset};

    ghost from_gives = { λ _ fault. fault ≡ PastLastOffset };

    fn from(_error: PastLastOffset) -> IndexFault {
        IndexFault::PastLastOffset
    }
}
