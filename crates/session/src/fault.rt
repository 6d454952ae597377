ghost use Rattle.std.specs.Prelude.{◌≡◌};
ghost use Rattle.session.specs.declared.fault.SessionFault.TheVariants.{NoMemory};

use frames::FrameFault;
use std::alloc::{AllocError, AllocFailed};
use thiserror::Error;

/// How a session ended that had no fault.
#[derive(Clone, Copy, Debug, PartialEq, Eq)]
pub enum End {
    /// By a LOGOUT.
    Logout,
    /// By the end of input, between frames.
    Closed,
    /// By the end of input, within a frame.
    Cut,
}

/// Why a session ended early.
#[derive(Clone, Copy, Debug, PartialEq, Eq, Error)]
pub enum SessionFault {
    #[error("bad frame")]
    BadFrame,
    #[error("frame too long")]
    TooLong,
    /// The nexus of its LOGIN has a session already.
    #[error("already connected")]
    AlreadyConnected,
    /// A read failed, or one more was needed than was allowed.
    #[error("a read failed")]
    Read,
    #[error("a write failed")]
    Write,
    /// Memory was refused, or a unit had no room or no number for the loss of the nexus.
    #[error("want of memory")]
    NoMemory,
}

impl From<AllocError> for SessionFault {
    ghost from_gives = { λ _ fault. fault ≡ NoMemory };

    fn from(_error: AllocError) -> SessionFault {
        SessionFault::NoMemory
    }
}

impl<T: Drop> From<AllocFailed<T>> for SessionFault {
    ghost from_gives = { λ _ fault. fault ≡ NoMemory };

    fn from(_error: AllocFailed<T>) -> SessionFault {
        SessionFault::NoMemory
    }
}

impl From<FrameFault> for SessionFault {
    ghost use Rattle.session.specs.Faults.{of_frame};

    ghost from_gives = { λ fault session_fault. session_fault ≡ of_frame fault };

    fn from(fault: FrameFault) -> SessionFault {
        match fault {
            FrameFault::BadFrame => SessionFault::BadFrame,
            FrameFault::TooLong => SessionFault::TooLong,
        }
    }
}
