use thiserror::Error;

/// Why no volume was taken out of a unit, or put in, in the order of the tests. Nothing has changed.
#[derive(Clone, Copy, Debug, Error)]
pub enum MediumFault {
    #[error("not a drive")]
    NotADrive,
    /// A nexus prevents the removal of media.
    #[error("removal is prevented")]
    Prevented,
    #[error("no volume is there")]
    Empty,
    #[error("a volume is there")]
    Full,
    /// There is no room for a record of it, or no number.
    #[error("busy")]
    Busy,
}
