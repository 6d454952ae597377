ghost use Rattle.std.specs.Prelude.{◌≡◌};

/// The values of lists that the target takes.
#[derive(Clone, Copy)]
pub enum Word {
    /// No digest, or no authentication.
    None,
    Chap,
    /// The reporting of tasks of RFC 3720.
    Rfc3720,
}

impl Word {
    ghost use Rattle.iscsi_keys.specs.Words.{word_text};

    /// As it is written.
    pub fn text(self) -> &'static [u8]
        ensures { result.now ≡ word_text self }
    {
        match self {
            Word::None => b"None",
            Word::Chap => b"CHAP",
            Word::Rfc3720 => b"RFC3720",
        }
    }
}
