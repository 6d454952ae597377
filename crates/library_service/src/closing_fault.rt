use lun_router::CloseFault;
use thiserror::Error;

/// Why a library isn't closed, or not all that is wanted of its records is written.
#[derive(Clone, Copy, Debug, PartialEq, Eq, Error)]
pub enum ClosingFault {
    /// The library couldn't be closed, so that there are no lines of its records.
    #[error("the library could not be closed: {0}")]
    Close(CloseFault),
    /// The lines of the records couldn't be written, or not all of them.
    #[error("the lines of the records could not be written")]
    Write,
    /// There was no room for the lines, and nothing is written.
    #[error("out of memory")]
    NoMemory,
}
