use std::alloc::AllocError;
use std::fmt;

/// Why a line isn't one of a record.
#[derive(Clone, Copy, Debug, PartialEq, Eq)]
pub enum LineFault {
    /// It is no object of JSON in text.
    NoObject,
    /// It has more bytes than any line of a record.
    TooLong,
    /// It ends without a line feed, as where a write was cut off.
    CutOff,
    /// It has nothing at a key of records, or a value that none has there.
    BadValue(&'static str),
    NoMemory,
}

impl From<AllocError> for LineFault {
    fn from(_error: AllocError) -> LineFault {
        LineFault::NoMemory
    }
}

impl fmt::Display for LineFault {
    ghost use Rattle.std.specs.Prelude.{Some};
    ghost use Rattle.record_words.specs.Faults.{line_fault_text};

    ghost output = { λ fault. Some (line_fault_text fault) };

    fn fmt<W: fmt::Write>(&self, f: &mut fmt::Formatter<W>) -> fmt::Result {
        match self {
            LineFault::NoObject => f.write_str("it is no object of JSON"),
            LineFault::TooLong => f.write_str("it is longer than the line of any record"),
            LineFault::CutOff => f.write_str("it does not end in a line feed"),
            LineFault::BadValue(key) => write!(f, "no record has such a value at {key}"),
            LineFault::NoMemory => f.write_str("want of memory"),
        }
    }
}
