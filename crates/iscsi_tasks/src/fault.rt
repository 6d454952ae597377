ghost use Rattle.std.specs.Prelude.{◌≡◌};

use std::alloc::{AllocError, AllocFailed};
use thiserror::Error;

/// Why a task ends without having been executed: in CHECK CONDITION, with sense key ABORTED COMMAND (RFC 7143, "Sense Data").
#[derive(Clone, Copy)]
pub enum TaskFault {
    /// Unsolicited data that weren't agreed, or data that nothing has asked for.
    UnexpectedUnsolicitedData,
    /// More or less than was asked for.
    IncorrectAmountOfData,
    /// Data that don't continue where those before them end.
    DataOffsetError,
}

impl TaskFault {
    ghost use Rattle.iscsi_tasks.specs.Writes.{additional_sense};

    /// The additional sense code and its qualifier.
    pub fn additional_sense(self) -> (u8, u8)
        ensures { result ≡ additional_sense self }
    {
        match self {
            TaskFault::UnexpectedUnsolicitedData => (0x0C, 0x0C),
            TaskFault::IncorrectAmountOfData => (0x0C, 0x0D),
            TaskFault::DataOffsetError => (0x4B, 0x05),
        }
    }
}

/// Why a session can't go on.
#[derive(Clone, Copy, Debug, Error)]
pub enum TasksFault {
    /// The commands that wait would hold more data than they may.
    #[error("waiting commands have too much data")]
    TooMuchData,
    #[error("want of memory")]
    NoMemory,
}

impl From<AllocError> for TasksFault {
    ghost use Rattle.iscsi_tasks.specs.declared.fault.TasksFault.TheVariants.{NoMemory};

    ghost from_gives = { λ _ fault. fault ≡ NoMemory };

    fn from(_error: AllocError) -> TasksFault {
        TasksFault::NoMemory
    }
}

impl<T: Drop> From<AllocFailed<T>> for TasksFault {
    ghost use Rattle.iscsi_tasks.specs.declared.fault.TasksFault.TheVariants.{NoMemory};

    ghost from_gives = { λ _ fault. fault ≡ NoMemory };

    fn from(_error: AllocFailed<T>) -> TasksFault {
        TasksFault::NoMemory
    }
}
