use crate::word::Word;

/// How the value of a key comes to be agreed (RFC 7143, "Declarations", "Negotiations").
#[derive(Clone, Copy)]
pub enum KeyKind {
    /// Declared by the initiator.
    Declared,
    /// A number that each side declares for itself.
    DeclaredNumber(Range),
    /// A list, of which the target takes this word.
    List(Word),
    /// A list of authentication methods, of which the target takes the one that it asks for.
    AuthMethod,
    /// The smaller of both numbers.
    Smaller(Range),
    /// The larger of both numbers.
    Larger(Range),
    /// Yes where both say so; the target says this.
    And(bool),
    /// Yes where either says so; the target says this.
    Or(bool),
    /// No longer negotiated.
    Obsolete,
}

/// The numbers that a key may have, and the target's own.
#[derive(Clone, Copy)]
pub struct Range {
    pub least: u32,
    pub most: u32,
    pub own: u32,
}
