use std::alloc::AllocError;
use std::fmt;
use thiserror::Error;

/// Why not all lines of records are said in words.
#[derive(Debug, Drop, Error)]
pub enum ExplainFault {
    /// What has the lines can't be read.
    Read,
    /// The file with the lines can't be read.
    CannotRead(String),
    /// The words can't be written.
    Write,
    /// So many lines were refused. The others are said.
    Refused(u64),
    NoMemory,
}

impl ExplainFault {
    ghost use Rattle.std.specs.Prelude.{◌≡◌};
    ghost use Rattle.record_words.specs.Faults.{explain_status};

    /// The exit status of a program that ends by it: 2 where lines are refused, 3 for want of memory, else 4 (profile).
    pub fn status(&self) -> u8
        ensures { result ≡ explain_status self.now }
    {
        match self {
            ExplainFault::Refused(_) => 2,
            ExplainFault::NoMemory => 3,
            ExplainFault::Read | ExplainFault::CannotRead(_) | ExplainFault::Write => 4,
        }
    }
}

impl From<AllocError> for ExplainFault {
    fn from(_error: AllocError) -> ExplainFault {
        ExplainFault::NoMemory
    }
}

impl fmt::Display for ExplainFault {
    ghost use Rattle.std.specs.Prelude.{Some};
    ghost use Rattle.record_words.specs.Faults.{explain_text};

    ghost output = { λ fault. Some (explain_text fault) };

    fn fmt<W: fmt::Write>(&self, f: &mut fmt::Formatter<W>) -> fmt::Result {
        match self {
            ExplainFault::Read => {
                f.write_str("vtl: device fault\nvtl: the lines could not be read")
            }
            ExplainFault::CannotRead(path) => {
                write!(f, "vtl: device fault\nvtl: cannot read {path}")
            }
            ExplainFault::Write => {
                f.write_str("vtl: device fault\nvtl: the words could not be written")
            }
            ExplainFault::Refused(count) => {
                write!(f, "vtl: lines that are not of records: {count}")
            }
            ExplainFault::NoMemory => f.write_str("vtl: want of memory"),
        }
    }
}
