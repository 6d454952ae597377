use thiserror::Error;

/// What is wrong with the header of a PDU, in the order in which it is told. Where it ends isn't known, so a stream with a
/// fault has no further PDUs.
#[derive(Clone, Copy, Debug, PartialEq, Eq, Error)]
pub enum PduFault {
    /// Additional header segments of more than 256 bytes.
    #[error("additional header segments too long")]
    AhsTooLong,
    /// A data segment longer than its receiver has declared.
    #[error("data segment too long")]
    DataSegmentTooLong,
    /// An extended CDB of no bytes, or longer than the additional header segments.
    #[error("bad extended CDB")]
    BadExtendedCdb,
}
