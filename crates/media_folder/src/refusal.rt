use std::alloc::{AllocError, AllocFailed};
use std::io::{self, ErrorKind};
use tape_flush::{OpenFault, ReadTapeFault};
use tape_image::{ImageFault, IndexFault};
use thiserror::Error;

/// Why a volume's file isn't served.
#[derive(Clone, Copy, Debug, Error)]
pub(crate) enum ImageRefusal {
    #[error("want of memory")]
    NoMemory,
    #[error("it is not a regular file")]
    NotRegular,
    /// Another volume, whose tag comes before, has the same file.
    #[error("it is also another volume's file")]
    Doubled,
    #[error("it can't be read")]
    CannotRead,
    /// The system says why.
    #[error("it can't be read: {0}")]
    System(io::Error),
    /// Its record can't be read, so it isn't known what of it is on the disk.
    #[error("its record can't be read: {0}")]
    Record(io::Error),
    #[error("its record is not a regular file")]
    RecordNotRegular,
    /// A program that is newer than this one wrote it.
    #[error("its record has version {0}, which this program does not know")]
    RecordVersion(i64),
    /// By a fault at the offset `whole`, in bytes, after so many objects.
    #[error("{fault}, at offset {whole}, after {objects} objects")]
    Faulty {
        fault: ImageFault,
        objects: u64,
        whole: u64,
    },
    /// The object after so many others is more than a tape takes.
    #[error("more than a volume holds, after {objects} objects")]
    TooLarge {
        objects: u32,
    },
}

impl ImageRefusal {
    /// Why the record of a volume's file wasn't read.
    pub fn of_record(error: io::Error) -> ImageRefusal {
        match error.kind() {
            ErrorKind::OutOfMemory => ImageRefusal::NoMemory,
            _ => ImageRefusal::Record(error),
        }
    }
}

/// A block that is longer than those of the library's profile.
fn too_long(objects: u64, whole: u64) -> ImageRefusal {
    ImageRefusal::Faulty {
        fault: ImageFault::TooLong,
        objects,
        whole,
    }
}

impl From<AllocError> for ImageRefusal {
    fn from(_error: AllocError) -> ImageRefusal {
        ImageRefusal::NoMemory
    }
}

impl<T: Drop> From<AllocFailed<T>> for ImageRefusal {
    fn from(_error: AllocFailed<T>) -> ImageRefusal {
        ImageRefusal::NoMemory
    }
}

impl From<io::Error> for ImageRefusal {
    fn from(error: io::Error) -> ImageRefusal {
        match error.kind() {
            ErrorKind::OutOfMemory => ImageRefusal::NoMemory,
            _ => ImageRefusal::System(error),
        }
    }
}

impl From<ReadTapeFault> for ImageRefusal {
    fn from(fault: ReadTapeFault) -> ImageRefusal {
        match fault {
            ReadTapeFault::NoMemory => ImageRefusal::NoMemory,
            ReadTapeFault::Read | ReadTapeFault::PastLastOffset => ImageRefusal::CannotRead,
            ReadTapeFault::TooLarge { objects } => ImageRefusal::TooLarge { objects },
            ReadTapeFault::TooLong { objects, whole } => too_long(objects, whole),
        }
    }
}

impl From<IndexFault> for ImageRefusal {
    fn from(fault: IndexFault) -> ImageRefusal {
        match fault {
            IndexFault::NoMemory => ImageRefusal::NoMemory,
            IndexFault::Read | IndexFault::PastLastOffset => ImageRefusal::CannotRead,
            IndexFault::TooLong { objects, whole } => too_long(objects, whole),
        }
    }
}

impl From<OpenFault> for ImageRefusal {
    fn from(fault: OpenFault) -> ImageRefusal {
        match fault {
            OpenFault::NoMemory => ImageRefusal::NoMemory,
            OpenFault::Faulty {
                fault,
                objects,
                whole,
            } => ImageRefusal::Faulty {
                fault,
                objects,
                whole,
            },
            OpenFault::PastLastOffset => ImageRefusal::CannotRead,
        }
    }
}
