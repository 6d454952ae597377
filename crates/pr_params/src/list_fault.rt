use thiserror::Error;

/// The PARAMETER LIST LENGTH isn't that of the data, or not that of the list's format.
#[derive(Clone, Copy, Debug, Drop, Error)]
#[error("a parameter list of the wrong length")]
pub struct ListLengthFault;
