use thiserror::Error;

/// What is wrong with a stream of frames. It is told by the first byte that shows it, and a stream with
/// a fault has no further frames.
#[derive(Clone, Copy, Debug, Error)]
pub enum FrameFault {
    /// A body of no bytes; a kind that there isn't, a LOGIN behind another, anything before a LOGIN; a
    /// length that the kind doesn't have; a CDB of no bytes, of more than 16, or longer than its body; a
    /// target port other than 1 to 4.
    #[error("bad frame")]
    BadFrame,
    /// A body of more than `most_body` bytes.
    #[error("frame too long")]
    TooLong,
}
