use crate::fields::*;
use crate::layout::*;

/// What is left of the data that a command was to transfer (RFC 7143, "Residual Count").
#[derive(Clone, Copy)]
pub enum Residual {
    /// All that was expected, and no more.
    Exact,
    /// So many bytes more than were expected.
    Overflow(u32),
    /// So many bytes fewer than were expected.
    Underflow(u32),
}

impl Residual {
    ghost use Rattle.std.specs.Prelude.{◌≡◌, ◌≤◌, length};
    ghost use Rattle.iscsi_pdu.specs.Completions.{residual, residual_flags, residual_count};

    pub(crate) fn read(header: &[u8]) -> Residual
        requires { length header.now ≡ 48 }
        ensures { result ≡ residual header.now }
    {
        if bit_at(header, FLAGS, OVERFLOW_BIT) {
            Residual::Overflow(u32_at(header, RESIDUAL_COUNT))
        } else if bit_at(header, FLAGS, UNDERFLOW_BIT) {
            Residual::Underflow(u32_at(header, RESIDUAL_COUNT))
        } else {
            Residual::Exact
        }
    }

    pub(crate) fn flags(self) -> u8
        ensures flags { result ≡ residual_flags self }
        ensures most { result ≤ 4 }
    {
        match self {
            Residual::Exact => 0,
            Residual::Overflow(_) => 1 << OVERFLOW_BIT,
            Residual::Underflow(_) => 1 << UNDERFLOW_BIT,
        }
    }

    pub(crate) fn count(self) -> u32
        ensures { result ≡ residual_count self }
    {
        match self {
            Residual::Exact => 0,
            Residual::Overflow(count) | Residual::Underflow(count) => count,
        }
    }
}
