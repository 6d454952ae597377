use std::fmt;
use thiserror::Error;

/// What is wrong with a line of a script, in the order of the tests (profile).
#[derive(Clone, Copy, Debug, PartialEq, Eq, Error)]
pub enum LineFault {
    /// Above 270,000 bytes.
    TooLong,
    /// Another number of words than the line's form has.
    WordCount,
    /// The word for a nexus is no `SAS.PORT`.
    BadNexus,
    /// The word for a logical unit is no number from 0 to 255.
    BadUnit,
    /// The word for a CDB or for data is no hexadecimal text, or of another length.
    BadHex,
}

impl LineFault {
    ghost use Rattle.std.specs.Prelude.{◌≡◌};
    ghost use Rattle.script_input.specs.Faults.{line_fault_text};

    /// The fault in words, as a program tells it.
    pub fn text(self) -> &'static str
        ensures { result.now ≡ line_fault_text self }
    {
        match self {
            LineFault::TooLong => "too long",
            LineFault::WordCount => "word count",
            LineFault::BadNexus => "bad nexus",
            LineFault::BadUnit => "bad unit",
            LineFault::BadHex => "bad hex",
        }
    }
}

impl fmt::Display for LineFault {
    ghost use Rattle.std.specs.Prelude.{Some};
    ghost use Rattle.script_input.specs.Faults.{line_fault_text};

    ghost output = { λ fault. Some (line_fault_text fault) };

    fn fmt<W: fmt::Write>(&self, f: &mut fmt::Formatter<W>) -> fmt::Result {
        f.write_str(self.text())
    }
}
