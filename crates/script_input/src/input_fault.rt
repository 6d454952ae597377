use std::alloc::{AllocError, AllocFailed};
use std::fmt;
use thiserror::Error;

/// Why not all was read.
#[derive(Clone, Copy, Debug, Error)]
pub enum InputFault {
    /// A read failed, or one more read was needed than was allowed.
    Read,
    NoMemory,
}

impl fmt::Display for InputFault {
    ghost use Rattle.std.specs.Prelude.{Some};
    ghost use Rattle.script_input.specs.InputFaults.{fault_text};

    ghost output = { λ fault. Some (fault_text fault) };

    fn fmt<W: fmt::Write>(&self, f: &mut fmt::Formatter<W>) -> fmt::Result {
        match self {
            InputFault::Read => {
                f.write_str("vtl: device fault\nvtl: the script could not be read")
            }
            InputFault::NoMemory => f.write_str("vtl: want of memory"),
        }
    }
}

impl InputFault {
    ghost use Rattle.std.specs.Prelude.{◌≡◌};
    ghost use Rattle.script_input.specs.InputFaults.{exit_status};

    /// The exit status of a program that ends by it: 3 for want of memory, else 4 (profile).
    pub fn status(&self) -> u8
        ensures { result ≡ exit_status self.now }
    {
        match self {
            InputFault::Read => 4,
            InputFault::NoMemory => 3,
        }
    }
}

impl From<AllocError> for InputFault {
    ghost use Rattle.std.specs.Prelude.{◌≡◌};
    ghost use Rattle.script_input.specs.declared.input_fault.InputFault.TheVariants.{NoMemory};

    ghost from_gives = { λ _ fault. fault ≡ NoMemory };

    fn from(_error: AllocError) -> InputFault {
        InputFault::NoMemory
    }
}

impl<T: Drop> From<AllocFailed<T>> for InputFault {
    ghost use Rattle.std.specs.Prelude.{◌≡◌};
    ghost use Rattle.script_input.specs.declared.input_fault.InputFault.TheVariants.{NoMemory};

    ghost from_gives = { λ _ fault. fault ≡ NoMemory };

    fn from(_error: AllocFailed<T>) -> InputFault {
        InputFault::NoMemory
    }
}
