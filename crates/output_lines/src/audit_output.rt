ghost use Rattle.std.specs.Prelude.{◌≡◌, IfErr, OnOk};
ghost use Rattle.std.specs.Io.KnownBytes.{Appends};
ghost use Rattle.logical_unit.specs.UnitView.{units_of};
ghost use Rattle.output_lines.specs.AuditLines.{audit_text};
ghost use Rattle.output_lines.specs.LeftLines.{WritesPart, WritesWhole};

use crate::audit_lines::{Audit, audit_text};
use crate::left_lines::whole_lines;
use crate::writing::write_some;
use device_server::DeviceServer;
use logical_unit::LogicalUnit;
use std::alloc::{AllocError, Global};
use std::io::Write;

/// Why not all that is wanted of units' records is written.
#[derive(Clone, Copy)]
pub enum AuditFault {
    /// The writer takes no more: so many lines were written whole.
    Write(usize),
    /// There was no room for the lines, and nothing is written.
    NoMemory,
}

impl From<AllocError> for AuditFault {
    ghost use Rattle.output_lines.specs.declared.audit_output.AuditFault.TheVariants.{NoMemory};

    ghost from_gives = { λ _ fault. fault ≡ NoMemory };

    fn from(_error: AllocError) -> AuditFault {
        AuditFault::NoMemory
    }
}

/// Writes what is wanted of units' records, and what the writer may still hold back of it. The lines are made before the first of them
/// is written.
pub fn write_audit<D: DeviceServer, W: Write>(
    alloc: Global,
    audit: Audit,
    units: &[LogicalUnit<D>],
    writer: &mut W,
) -> Result<(), AuditFault>
    ensures lines { OnOk result (Appends (W.contents writer.old) (W.contents writer.new) (audit_text audit (units_of units.now))) }
    ensures fault { IfErr result (λ fault. WritesPart (W.contents writer.old) (W.contents writer.new) (audit_text audit (units_of units.now)) fault) }
{
    let text = audit_text(alloc, audit, units)?;
    match write_lines(writer, text.as_str()) {
        Ok(()) => Ok(()),
        Err(lines) => Err(AuditFault::Write(lines)),
    }
}

/// Writes lines, and what the writer may still hold back of them. On an error: how many were written whole.
fn write_lines<W: Write>(writer: &mut W, lines: &str) -> Result<(), usize>
    ensures all { OnOk result (Appends (W.contents writer.old) (W.contents writer.new) lines.now) }
    ensures whole { IfErr result (λ count. WritesWhole (W.contents writer.old) (W.contents writer.new) lines.now count) }
{
    let bytes = lines.as_bytes();
    let count = write_some(writer, bytes);
    if count == bytes.len() && writer.flush().is_ok() {
        Ok(())
    } else {
        Err(whole_lines(&bytes[..count]))
    }
}
