use thiserror::Error;

/// Why bytes are no fixed format sense data, in the order of the tests.
#[derive(Clone, Copy, Debug, Error)]
pub enum SenseFault {
    /// Fewer than 18 bytes.
    #[error("fewer than 18 bytes")]
    Short,
    /// RESPONSE CODE other than 70h.
    #[error("no fixed format sense data")]
    NotFixed,
}
