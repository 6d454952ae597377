ghost use Rattle.std.specs.Prelude.{◌≡◌, IfOk};
ghost use Rattle.frames.specs.Views.{frame_value};
ghost use Rattle.session.specs.Splitting.{value_of_frame};

use scsi_nexus::Nexus;
use std::alloc::{AllocError, Global};

/// What a client sends, with bytes of its own.
#[derive(Drop)]
pub enum Frame {
    /// The session's nexus.
    Login {
        nexus: Nexus,
    },
    /// A command to a logical unit: its CDB, 1 to 16 bytes, and the data sent with it.
    Command {
        lun: u8,
        cdb: Vec<u8>,
        bytes: Vec<u8>,
    },
    /// A reset of a logical unit.
    Reset {
        lun: u8,
    },
    /// The end of the session.
    Logout,
}

/// The frame that lies among the bytes of a stream, with copies of them.
pub(crate) fn copy_of(alloc: Global, frame: frames::FrameRef<'_>) -> Result<Frame, AllocError>
    ensures { IfOk result (λ copy. value_of_frame copy ≡ frame_value frame.entry) }
{
    match frame {
        frames::FrameRef::Login { nexus } => Ok(Frame::Login { nexus }),
        frames::FrameRef::Command { lun, cdb, bytes } => Ok(Frame::Command {
            lun,
            cdb: Vec::from_slice(alloc, cdb)?,
            bytes: Vec::from_slice(alloc, bytes)?,
        }),
        frames::FrameRef::Reset { lun } => Ok(Frame::Reset { lun }),
        frames::FrameRef::Logout => Ok(Frame::Logout),
    }
}
