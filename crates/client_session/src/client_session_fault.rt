use script_input::{LineFault, ScriptFault};
use scsi_nexus::Nexus;
use std::alloc::{AllocError, AllocFailed};
use std::fmt;
use thiserror::Error;

/// Why a host's session ended early.
#[derive(Clone, Copy, Debug, PartialEq, Eq, Error)]
pub enum ClientSessionFault {
    /// The first line of the script with a fault, counted from 1.
    Line { number: u64, what: LineFault },
    /// The nexus has a session already.
    Refused(Nexus),
    /// What came is no reply, or one of another kind than what was sent has, or nothing came any more.
    BadReply,
    /// A read failed, or one more was needed than was allowed.
    Read,
    /// A write failed, to the server or of the lines, or the flush behind it.
    Write,
    NoMemory,
}

impl fmt::Display for ClientSessionFault {
    ghost use Rattle.std.specs.Prelude.{Some};
    ghost use Rattle.client_session.specs.Faults.{fault_text};

    ghost output = { λ fault. Some (fault_text fault) };

    fn fmt<W: fmt::Write>(&self, f: &mut fmt::Formatter<W>) -> fmt::Result {
        match self {
            ClientSessionFault::Line { number, what } => write!(f, "vtl: line {number}: {what}"),
            ClientSessionFault::Refused(nexus) => {
                write!(f, "vtl: device fault\nvtl: {nexus} has a session already")
            }
            ClientSessionFault::BadReply => f.write_str("vtl: device fault\nvtl: bad reply"),
            ClientSessionFault::Read => f.write_str("vtl: device fault\nvtl: a read failed"),
            ClientSessionFault::Write => f.write_str("vtl: device fault\nvtl: a write failed"),
            ClientSessionFault::NoMemory => f.write_str("vtl: want of memory"),
        }
    }
}

impl ClientSessionFault {
    ghost use Rattle.std.specs.Prelude.{◌≡◌};
    ghost use Rattle.client_session.specs.Faults.{exit_status};

    /// The exit status of a program that ends by it: 2 where the script is refused, 3 for want of memory,
    /// 4 for a fault of the server or of input or output (profile).
    pub fn status(&self) -> u8
        ensures { result ≡ exit_status self.now }
    {
        match self {
            ClientSessionFault::Line { .. } => 2,
            ClientSessionFault::NoMemory => 3,
            ClientSessionFault::Refused(_)
            | ClientSessionFault::BadReply
            | ClientSessionFault::Read
            | ClientSessionFault::Write => 4,
        }
    }
}

impl From<ScriptFault> for ClientSessionFault {
    ghost use Rattle.std.specs.Prelude.{◌≡◌};
    ghost use Rattle.client_session.specs.Faults.{of_script};

    ghost from_gives = { λ fault client_fault. client_fault ≡ of_script fault };

    fn from(fault: ScriptFault) -> ClientSessionFault {
        match fault {
            ScriptFault::Line { number, what } => ClientSessionFault::Line { number, what },
            ScriptFault::NoMemory => ClientSessionFault::NoMemory,
        }
    }
}

impl From<AllocError> for ClientSessionFault {
    ghost use Rattle.std.specs.Prelude.{◌≡◌};
    ghost use Rattle.client_session.specs.declared.client_session_fault.ClientSessionFault.TheVariants.{NoMemory};

    ghost from_gives = { λ _ fault. fault ≡ NoMemory };

    fn from(_error: AllocError) -> ClientSessionFault {
        ClientSessionFault::NoMemory
    }
}

impl<T: Drop> From<AllocFailed<T>> for ClientSessionFault {
    ghost use Rattle.std.specs.Prelude.{◌≡◌};
    ghost use Rattle.client_session.specs.declared.client_session_fault.ClientSessionFault.TheVariants.{NoMemory};

    ghost from_gives = { λ _ fault. fault ≡ NoMemory };

    fn from(_error: AllocFailed<T>) -> ClientSessionFault {
        ClientSessionFault::NoMemory
    }
}
