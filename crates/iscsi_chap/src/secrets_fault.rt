use thiserror::Error;

/// What is wrong with a line of a secrets file. No secret is told.
#[derive(Clone, Copy, Debug, PartialEq, Eq, Error)]
pub enum LineFault {
    /// Not `NAME USER SECRET`, nor that with `TARGET-USER TARGET-SECRET` behind it.
    #[error("expected NAME USER SECRET, or NAME USER SECRET TARGET-USER TARGET-SECRET")]
    FieldCount,
    /// No iSCSI name.
    #[error("expected an iSCSI name as NAME")]
    Name,
    /// A secret of less than 12 bytes, or of more than 128.
    #[error("a secret has 12 to 128 bytes")]
    SecretLength,
    /// The same secret for both directions (RFC 7143, "CHAP Considerations").
    #[error("the target has the secret of the host")]
    SameSecret,
    /// A line before it has its host, by a name in letters of either case, and its user.
    #[error("the host has a line with this user already")]
    UserTwice,
    /// The target would show a secret by this line that a host has by a line before it (RFC 7143, "CHAP Considerations").
    #[error("the target has the secret of the host in line {line}")]
    SecretOfHost { line: usize },
    /// The host has a secret by this line that the target would show by a line before it (RFC 7143, "CHAP Considerations").
    #[error("the host has the secret of the target in line {line}")]
    SecretOfTarget { line: usize },
}

/// Why a secrets file isn't taken.
#[derive(Clone, Copy, Debug, Error)]
pub enum SecretsFault {
    /// The first line with a fault, all lines counted from 1.
    #[error("line {number}: {what}")]
    Line { number: usize, what: LineFault },
    #[error("out of memory")]
    NoMemory,
}
