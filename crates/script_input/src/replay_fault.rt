ghost use Rattle.std.specs.Prelude.{◌≡◌};

use crate::input_fault::InputFault;
use crate::line_fault::LineFault;
use crate::script_fault::ScriptFault;
use std::alloc::{AllocError, AllocFailed};
use std::fmt;
use thiserror::Error;

/// Why a replay ended early.
#[derive(Clone, Copy, Debug, Error)]
pub enum ReplayFault {
    /// The first line with a fault, counted from 1.
    Line { number: u64, what: LineFault },
    NoMemory,
    /// A read failed, or one more read was needed than was allowed.
    Read,
    /// A write failed, or the flush behind the last one.
    Write,
}

impl fmt::Display for ReplayFault {
    ghost use Rattle.std.specs.Prelude.{Some};
    ghost use Rattle.script_input.specs.ReplayFaults.{fault_text};

    ghost output = { λ fault. Some (fault_text fault) };

    fn fmt<W: fmt::Write>(&self, f: &mut fmt::Formatter<W>) -> fmt::Result {
        match self {
            ReplayFault::Line { number, what } => write!(f, "vtl: line {number}: {what}"),
            ReplayFault::NoMemory => f.write_str("vtl: want of memory"),
            ReplayFault::Read => {
                f.write_str("vtl: device fault\nvtl: the script could not be read")
            }
            ReplayFault::Write => {
                f.write_str("vtl: device fault\nvtl: the replies could not be written")
            }
        }
    }
}

impl ReplayFault {
    ghost use Rattle.script_input.specs.ReplayFaults.{exit_status};

    /// The exit status of a program that ends by it: 2 where the script is refused, 3 for want of memory,
    /// 4 for a fault of input or output (profile).
    pub fn status(&self) -> u8
        ensures { result ≡ exit_status self.now }
    {
        match self {
            ReplayFault::Line { .. } => 2,
            ReplayFault::NoMemory => 3,
            ReplayFault::Read | ReplayFault::Write => 4,
        }
    }
}

impl From<ScriptFault> for ReplayFault {
    ghost use Rattle.std.specs.Prelude.{◌≡◌};
    ghost use Rattle.script_input.specs.ReplayFaults.{of_script};

    ghost from_gives = { λ fault replay_fault. replay_fault ≡ of_script fault };

    fn from(fault: ScriptFault) -> ReplayFault {
        match fault {
            ScriptFault::Line { number, what } => ReplayFault::Line { number, what },
            ScriptFault::NoMemory => ReplayFault::NoMemory,
        }
    }
}

impl From<InputFault> for ReplayFault {
    ghost use Rattle.std.specs.Prelude.{◌≡◌};
    ghost use Rattle.script_input.specs.ReplayFaults.{of_input};

    ghost from_gives = { λ fault replay_fault. replay_fault ≡ of_input fault };

    fn from(fault: InputFault) -> ReplayFault {
        match fault {
            InputFault::Read => ReplayFault::Read,
            InputFault::NoMemory => ReplayFault::NoMemory,
        }
    }
}

impl From<AllocError> for ReplayFault {
    ghost use Rattle.std.specs.Prelude.{◌≡◌};
    ghost use Rattle.script_input.specs.declared.replay_fault.ReplayFault.TheVariants.{NoMemory};

    ghost from_gives = { λ _ fault. fault ≡ NoMemory };

    fn from(_error: AllocError) -> ReplayFault {
        ReplayFault::NoMemory
    }
}

impl<T: Drop> From<AllocFailed<T>> for ReplayFault {
    ghost use Rattle.std.specs.Prelude.{◌≡◌};
    ghost use Rattle.script_input.specs.declared.replay_fault.ReplayFault.TheVariants.{NoMemory};

    ghost from_gives = { λ _ fault. fault ≡ NoMemory };

    fn from(_error: AllocFailed<T>) -> ReplayFault {
        ReplayFault::NoMemory
    }
}
