use thiserror::Error;

/// What in its keys ends a login.
#[derive(Clone, Copy, Debug, Error)]
pub enum NegotiationFault {
    /// A key was offered twice.
    #[error("key offered twice")]
    KeyTwice,
    /// None of the digests that are offered is `None`.
    #[error("no digest in common")]
    DigestNeeded,
    /// The authentication method that is asked for isn't offered.
    #[error("no authentication method in common")]
    AuthenticationFailure,
    /// The value of a key that data are transferred by is out of its range or form.
    #[error("key out of its range")]
    NeededKeyRejected,
}

/// What is wrong with the text of a request.
#[derive(Clone, Copy, Debug, Error)]
pub enum TextFault {
    /// What is left has no NUL at its end.
    #[error("no NUL behind a value")]
    NoNul,
    /// An item without `=`.
    #[error("no = behind a key")]
    NoEquals,
}
