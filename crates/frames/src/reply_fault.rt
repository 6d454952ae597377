use thiserror::Error;

/// What is wrong with a stream of replies, in the order in which it shows. A stream with a fault has no further
/// replies.
#[derive(Clone, Copy, Debug, Error)]
pub enum ReplyFault {
    /// A body of no bytes.
    #[error("reply of no bytes")]
    NoBody,
    /// A body of more than `most_reply` bytes.
    #[error("reply too long")]
    TooLong,
    /// A kind of reply that there isn't.
    #[error("unknown kind of reply")]
    UnknownKind,
    /// A length that the kind doesn't have.
    #[error("bad length of a reply")]
    BadLength,
    /// An answer to a LOGIN other than 00h and 01h.
    #[error("unknown answer to a LOGIN")]
    UnknownAnswer,
    /// A status other than GOOD, CHECK CONDITION, BUSY and RESERVATION CONFLICT.
    #[error("unknown status")]
    UnknownStatus,
    /// A length of sense data other than 0 and 18.
    #[error("bad length of sense data")]
    BadSenseLength,
    /// Sense data that aren't in fixed format.
    #[error("bad sense data")]
    BadSense,
}
