ghost use Rattle.std.specs.Prelude.{◌↔◌, IsTrue};
ghost use Rattle.frames.specs.Sending.{IsSendable};
ghost use Rattle.frames.specs.Views.{frame_value};

use crate::fault::FrameFault;
use crate::layout::*;
use scsi_cdb::Profile;
use scsi_nexus::Nexus;

/// What a client sends, where it lies among the bytes of the stream.
#[derive(Clone, Copy)]
pub enum FrameRef<'a> {
    /// The session's nexus.
    Login {
        nexus: Nexus,
    },
    /// A command to a logical unit: its CDB, 1 to 16 bytes, and the data sent with it.
    Command {
        lun: u8,
        cdb: &'a [u8],
        bytes: &'a [u8],
    },
    /// A reset of a logical unit.
    Reset {
        lun: u8,
    },
    /// The end of the session.
    Logout,
}

impl FrameRef<'_> {
    /// Whether a client may send it in a session of a library of a profile: a target port of 1 to 4; a CDB of 1 to 16 bytes, with data that
    /// the longest body has room for.
    pub fn is_sendable(&self, profile: Profile) -> bool
        ensures { IsTrue result ↔ IsSendable profile (frame_value self.now) }
    {
        match self {
            FrameRef::Login { nexus } => nexus.has_target_port(),
            FrameRef::Command { cdb, bytes, .. } => {
                !cdb.is_empty()
                    && cdb.len() <= MAX_CDB
                    && bytes.len() <= most_body(profile) - 1 - COMMAND_FIELDS - cdb.len()
            }
            FrameRef::Reset { .. } => true,
            FrameRef::Logout => true,
        }
    }
}

/// What a stream begins with.
#[derive(Clone, Copy)]
pub enum ParsedFrame<'a> {
    /// Less than a frame.
    Partial,
    /// A frame, and how many bytes it takes.
    Complete(FrameRef<'a>, usize),
    Invalid(FrameFault),
}
