use thiserror::Error;

/// Why a call of a tape fails, in the order of the tests. The tape is as before after each.
#[derive(Clone, Copy, Debug, PartialEq, Eq, Error)]
pub enum TapeFault {
    /// An empty block, a size of 0, either above the limit of a block, or bytes that aren't whole blocks.
    #[error("no length of a block")]
    BlockLength,
    /// Bytes past the capacity of the tape, or more objects than a tape takes.
    #[error("the tape is full")]
    Overflow,
    /// The allocator has no memory left.
    #[error("want of memory")]
    NoMemory,
}
