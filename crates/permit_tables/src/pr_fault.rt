use thiserror::Error;

/// Why an allowed PERSISTENT RESERVE OUT command is refused, by the additional sense that answers
/// it. Each leaves everything unchanged.
#[derive(Clone, Copy, Debug, Drop, Error)]
pub enum PrFault {
    /// 24h/00h INVALID FIELD IN CDB.
    #[error("invalid field in CDB")]
    InvalidField,
    /// 26h/00h INVALID FIELD IN PARAMETER LIST.
    #[error("invalid field in parameter list")]
    InvalidParam,
    /// 26h/04h INVALID RELEASE OF PERSISTENT RESERVATION.
    #[error("invalid release of persistent reservation")]
    InvalidRelease,
    /// 55h/04h INSUFFICIENT REGISTRATION RESOURCES.
    #[error("insufficient registration resources")]
    NoRegistrationRoom,
}
