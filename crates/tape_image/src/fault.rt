use thiserror::Error;

/// What is wrong with an image. Where its next part would begin isn't known, so an image with a fault has no further objects.
#[derive(Clone, Copy, Debug, Error)]
pub enum ImageFault {
    /// A record of a class other than 0: a length whose highest four bits are not zero, other than the marks.
    #[error("record of an unknown class")]
    UnknownClass,
    /// A block of more bytes than the tapes have that are wanted, or than any tape has.
    #[error("block too long")]
    TooLong,
    /// The length after a block isn't the one before it.
    #[error("the lengths before and after a block differ")]
    UnequalLengths,
}

/// An image goes on after the last offset that there is, 2^64 - 1.
#[derive(Clone, Copy, Debug, Error)]
#[error("image of 2^64 bytes or more")]
pub struct PastLastOffset;
