use crate::store::StoreFault;
use std::alloc::{AllocError, AllocFailed};
use tape_image::ImageFault;
use thiserror::Error;

/// Why an image isn't that of the tape.
#[derive(Clone, Copy, Debug, Error)]
pub enum FlushFault {
    #[error("want of memory")]
    NoMemory,
    /// The file would have 2^64 bytes or more.
    #[error("image of 2^64 bytes or more")]
    PastLastOffset,
    #[error("the image could not be written")]
    Store(StoreFault),
    /// After what was brought to the disk before, the file may have anything.
    #[error("the image could not be brought to the disk")]
    Unsynced(StoreFault),
}

impl From<AllocError> for FlushFault {
    fn from(_error: AllocError) -> FlushFault {
        FlushFault::NoMemory
    }
}

impl<T: Drop> From<AllocFailed<T>> for FlushFault {
    fn from(_error: AllocFailed<T>) -> FlushFault {
        FlushFault::NoMemory
    }
}

impl From<StoreFault> for FlushFault {
    fn from(fault: StoreFault) -> FlushFault {
        FlushFault::Store(fault)
    }
}

/// Why an image isn't written on.
#[derive(Clone, Copy, Debug, Error)]
pub enum OpenFault {
    #[error("want of memory")]
    NoMemory,
    /// By a fault at the offset `whole`, in bytes, after so many objects. The file is left as it is.
    #[error("the image is faulty")]
    Faulty {
        fault: ImageFault,
        objects: u64,
        whole: u64,
    },
    /// The index has an object that would end at 2^64 bytes or more.
    #[error("image of 2^64 bytes or more")]
    PastLastOffset,
}

impl From<AllocError> for OpenFault {
    fn from(_error: AllocError) -> OpenFault {
        OpenFault::NoMemory
    }
}

impl<T: Drop> From<AllocFailed<T>> for OpenFault {
    fn from(_error: AllocFailed<T>) -> OpenFault {
        OpenFault::NoMemory
    }
}
