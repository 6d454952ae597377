use std::alloc::AllocError;
use std::fmt;
use thiserror::Error;

/// Why the state of a library isn't printed.
#[derive(Debug, Drop, Error)]
pub enum StatusFault {
    /// No server answers at this path.
    CannotConnect(String),
    /// What the server at this path sent isn't whole.
    Cut(String),
    /// It couldn't be printed.
    Output,
    NoMemory,
}

impl StatusFault {
    ghost use Rattle.std.specs.Prelude.{◌≡◌};
    ghost use Rattle.vtl.specs.Faults.{status_status};

    /// The exit status of a program that ends by it: 3 for want of memory, else 4 (profile).
    pub fn status(&self) -> u8
        ensures { result ≡ status_status self.now }
    {
        match self {
            StatusFault::CannotConnect(_) | StatusFault::Cut(_) | StatusFault::Output => 4,
            StatusFault::NoMemory => 3,
        }
    }
}

impl fmt::Display for StatusFault {
    ghost use Rattle.std.specs.Prelude.{Some};
    ghost use Rattle.vtl.specs.Faults.{status_text};

    ghost output = { λ fault. Some (status_text fault) };

    fn fmt<W: fmt::Write>(&self, f: &mut fmt::Formatter<W>) -> fmt::Result {
        match self {
            StatusFault::CannotConnect(path) => write!(
                f,
                "vtl: device fault\nvtl: no server answers at {path} (see --control of vtl serve)"
            ),
            StatusFault::Cut(path) => {
                write!(
                    f,
                    "vtl: device fault\nvtl: the status from {path} is not whole"
                )
            }
            StatusFault::Output => {
                f.write_str("vtl: device fault\nvtl: the status could not be written")
            }
            StatusFault::NoMemory => f.write_str("vtl: want of memory"),
        }
    }
}

impl From<AllocError> for StatusFault {
    fn from(_error: AllocError) -> StatusFault {
        StatusFault::NoMemory
    }
}
