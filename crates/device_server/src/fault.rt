use thiserror::Error;

/// Why no volume was taken out.
#[derive(Clone, Copy, Debug, Error)]
pub enum TakeFault {
    /// No such place, or one that holds no volumes.
    #[error("no such place")]
    BadPlace,
    #[error("no volume there")]
    Empty,
}

/// Why a volume wasn't put in.
#[derive(Clone, Copy, Debug, Error)]
pub enum PutFault {
    /// No such place, or one that holds no volumes.
    #[error("no such place")]
    BadPlace,
    #[error("a volume is there")]
    Full,
}

/// No data transfer element is there.
#[derive(Clone, Copy, Debug, Error)]
#[error("no data transfer element there")]
pub struct BadPlace;
