use std::alloc::{AllocError, AllocFailed};
use std::io;
use tape_image::PastLastOffset;
use thiserror::Error;

/// Why an image isn't read as a tape. What was read of it is lost.
#[derive(Clone, Copy, Debug, PartialEq, Eq, Error)]
pub enum ReadTapeFault {
    #[error("want of memory")]
    NoMemory,
    /// A read failed, also by an interruption.
    #[error("the image could not be read")]
    Read,
    #[error("image of 2^64 bytes or more")]
    PastLastOffset,
    /// After so many objects there is one that the tape doesn't take: its capacity in bytes of blocks would be passed, or the count of
    /// objects that a tape has at most.
    #[error("image of more than the tape takes")]
    TooLarge { objects: u32 },
    /// A block that is longer than those of the profile, at the offset `whole`, in bytes, after so many objects.
    #[error("block too long")]
    TooLong { objects: u64, whole: u64 },
}

impl From<AllocError> for ReadTapeFault {
    ghost use Rattle.std.specs.Prelude.{◌≡◌};
    ghost use Rattle.tape_flush.specs.declared.read_fault.ReadTapeFault.TheVariants.{NoMemory};

    ghost from_gives = { λ _ fault. fault ≡ NoMemory };

    fn from(_error: AllocError) -> ReadTapeFault {
        ReadTapeFault::NoMemory
    }
}

impl<T: Drop> From<AllocFailed<T>> for ReadTapeFault {
    ghost use Rattle.std.specs.Prelude.{◌≡◌};
    ghost use Rattle.tape_flush.specs.declared.read_fault.ReadTapeFault.TheVariants.{NoMemory};

    ghost from_gives = { λ _ fault. fault ≡ NoMemory };

    fn from(_error: AllocFailed<T>) -> ReadTapeFault {
        ReadTapeFault::NoMemory
    }
}

impl From<io::Error> for ReadTapeFault {
    ghost use Rattle.std.specs.Prelude.{◌≡◌};
    ghost use Rattle.tape_flush.specs.declared.read_fault.ReadTapeFault.TheVariants.{Read};

    ghost from_gives = { λ _ fault. fault ≡ Read };

    fn from(_error: io::Error) -> ReadTapeFault {
        ReadTapeFault::Read
    }
}

impl From<PastLastOffset> for ReadTapeFault {
    ghost use Rattle.std.specs.Prelude.{◌≡◌};
    ghost use Rattle.tape_flush.specs.declared.read_fault.ReadTapeFault.TheVariants.{PastLastOffset};

    ghost from_gives = { λ _ fault. fault ≡ PastLastOffset };

    fn from(_error: PastLastOffset) -> ReadTapeFault {
        ReadTapeFault::PastLastOffset
    }
}
