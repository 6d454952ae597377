ghost use Rattle.std.specs.Prelude.{◌≡◌};
ghost use Rattle.iscsi_session.specs.declared.fault.IscsiFault.TheVariants.{NoMemory, BadPdu};

use iscsi_pdu::{LoginStatus, PduFault};
use iscsi_tasks::TasksFault;
use std::alloc::{AllocError, AllocFailed};
use thiserror::Error;

/// How a connection ended that had no fault.
#[derive(Clone, Copy, Debug, PartialEq, Eq)]
pub enum IscsiEnd {
    /// By a logout.
    Logout,
    /// By the end of input, between PDUs.
    Closed,
    /// By the end of input, within a PDU.
    Cut,
}

/// Why a connection ended early.
#[derive(Clone, Copy, Debug, PartialEq, Eq, Error)]
pub enum IscsiFault {
    /// The login was refused, and the initiator was told so.
    #[error("login refused")]
    Refused(LoginStatus),
    #[error("bad PDU")]
    BadPdu(PduFault),
    /// The commands that wait hold more data than there is room for.
    #[error("too much data waits")]
    TooMuchData,
    /// Nothing came for a while: during login, or behind a ping.
    #[error("nothing came")]
    Silent,
    /// A read failed, or one more was needed than was allowed.
    #[error("a read failed")]
    Read,
    #[error("a write failed")]
    Write,
    /// Memory was refused, or a unit had no room or no number for the loss of the nexus.
    #[error("want of memory")]
    NoMemory,
}

impl From<AllocError> for IscsiFault {
    ghost from_gives = { λ _ fault. fault ≡ NoMemory };

    fn from(_error: AllocError) -> IscsiFault {
        IscsiFault::NoMemory
    }
}

impl<T: Drop> From<AllocFailed<T>> for IscsiFault {
    ghost from_gives = { λ _ fault. fault ≡ NoMemory };

    fn from(_error: AllocFailed<T>) -> IscsiFault {
        IscsiFault::NoMemory
    }
}

impl From<PduFault> for IscsiFault {
    ghost from_gives = { λ fault ended. ended ≡ BadPdu fault };

    fn from(fault: PduFault) -> IscsiFault {
        IscsiFault::BadPdu(fault)
    }
}

impl From<TasksFault> for IscsiFault {
    ghost use Rattle.iscsi_session.specs.Faults.{IsInside};

    ghost from_gives = { λ _ fault. IsInside fault };

    fn from(fault: TasksFault) -> IscsiFault {
        match fault {
            TasksFault::TooMuchData => IscsiFault::TooMuchData,
            TasksFault::NoMemory => IscsiFault::NoMemory,
        }
    }
}
