ghost use Rattle.std.specs.Prelude.{◌≡◌, ◌≤◌, ◌+◌, ◌++◌, length, OnOk, OnErr};
ghost use Rattle.frames.specs.Frames.{Login, Command};
ghost use Rattle.frames.specs.Limits.{longest_frame};
ghost use Rattle.frames.specs.Sending.{IsSendable, frame_bytes};
ghost use Rattle.frames.specs.Views.{frame_value};

use crate::frame::FrameRef;
use crate::layout::*;
use scsi_cdb::Profile;
use scsi_nexus::Nexus;
use std::alloc::AllocError;

/// Adds a frame as a client sends it in a session of a library of a profile: four bytes of length, then a body whose first byte is its kind.
/// Room for all of it is made first; where memory is refused, nothing was added.
pub fn write_frame(
    profile: Profile,
    out: &mut Vec<u8>,
    frame: &FrameRef<'_>,
) -> Result<(), AllocError>
    requires { IsSendable profile (frame_value frame.now) }
    ensures ok { OnOk result (out.new.items ≡ out.old.items ++ frame_bytes (frame_value frame.now)) }
    ensures err { OnErr result (out.new.items ≡ out.old.items) }
{
    match frame {
        FrameRef::Login { nexus } => write_login(out, *nexus),
        FrameRef::Command { lun, cdb, bytes } => write_command(out, *lun, cdb, bytes),
        FrameRef::Reset { lun } => out.extend_from_slice(&[0, 0, 0, 2, RESET, *lun]),
        FrameRef::Logout => out.extend_from_slice(&[0, 0, 0, 1, LOGOUT]),
    }
}

/// Adds a LOGIN.
fn write_login(out: &mut Vec<u8>, nexus: Nexus) -> Result<(), AllocError>
    ensures ok { OnOk result (out.new.items ≡ out.old.items ++ frame_bytes (Login nexus)) }
    ensures err { OnErr result (out.new.items ≡ out.old.items) }
{
    out.reserve(LENGTH_FIELD + 1 + LOGIN_FIELDS)?;
    out.extend_from_slice(&[0, 0, 0, 11, LOGIN])?;
    out.extend_from_slice(&nexus.sas.to_be_bytes())?;
    out.extend_from_slice(&nexus.port.to_be_bytes())
}

/// Adds a COMMAND.
fn write_command(out: &mut Vec<u8>, lun: u8, cdb: &[u8], bytes: &[u8]) -> Result<(), AllocError>
    requires cdb { length cdb.now ≤ 16 }
    requires bytes { 3 + length cdb.now + length bytes.now ≤ longest_frame }
    ensures ok { OnOk result (out.new.items ≡ out.old.items ++ frame_bytes (Command lun cdb.now bytes.now)) }
    ensures err { OnErr result (out.new.items ≡ out.old.items) }
{
    let size = 1 + COMMAND_FIELDS + cdb.len() + bytes.len();
    out.reserve(LENGTH_FIELD + size)?;
    out.extend_from_slice(&(size as u32).to_be_bytes())?;
    out.extend_from_slice(&[COMMAND, lun, cdb.len() as u8])?;
    out.extend_from_slice(cdb)?;
    out.extend_from_slice(bytes)
}
