ghost use Rattle.std.specs.Prelude.{◌≡◌, ◌++◌, map, IfOk, OnOk, string_bytes};
ghost use Rattle.logical_unit.specs.UnitView.{units_of};
ghost use Rattle.output_lines.specs.AuditLines.{audit_line, audit_text, lines_of_records, lines_of_units, spans_of_units, text_of_lines};

use audit_log::{Record, add_line};
use device_server::DeviceServer;
use logical_unit::LogicalUnit;
use std::alloc::{AllocError, Global};

/// What is written of the units' records.
#[derive(Clone, Copy)]
pub enum Audit {
    /// Nothing.
    Off,
    /// A line for each record.
    Lines,
    /// The same, with the reservation that stood before the record.
    Spans,
}

/// What follows the reply lines: nothing, or a line for each record of each unit, with or without the
/// reservation that stood before it, the units in the order in which they stand, and each unit's records
/// oldest first.
pub fn audit_text<D: DeviceServer>(
    alloc: Global,
    audit: Audit,
    units: &[LogicalUnit<D>],
) -> Result<String, AllocError>
    ensures { IfOk result (λ text. string_bytes text ≡ audit_text audit (units_of units.now)) }
{
    let mut text = String::new(alloc);
    match audit {
        Audit::Off => {}
        Audit::Lines => write_units(&mut text, units)?,
        Audit::Spans => write_spans(alloc, &mut text, units)?,
    }
    Ok(text)
}

/// A line for each of some records, in their order.
pub fn records_text(alloc: Global, entries: &[Record]) -> Result<String, AllocError>
    ensures { IfOk result (λ text. string_bytes text ≡ lines_of_records entries.now) }
{
    let mut text = String::new(alloc);
    write_records(&mut text, entries)?;
    Ok(text)
}

/// Adds the lines of each unit's records.
fn write_units<D: DeviceServer>(
    text: &mut String,
    units: &[LogicalUnit<D>],
) -> Result<(), AllocError>
    ensures { OnOk result (string_bytes text.new ≡ string_bytes text.old ++ lines_of_units (units_of units.now)) }
{
    for unit in units {
        write_records(text, unit.records())?;
    }
    Ok(())
}

/// Adds the lines of records.
fn write_records(text: &mut String, entries: &[Record]) -> Result<(), AllocError>
    ensures { OnOk result (string_bytes text.new ≡ string_bytes text.old ++ lines_of_records entries.now) }
{
    for entry in entries {
        write_record(text, entry)?;
    }
    Ok(())
}

/// Adds the line of a record, with its line feed.
fn write_record(text: &mut String, entry: &Record) -> Result<(), AllocError>
    ensures { OnOk result (string_bytes text.new ≡ string_bytes text.old ++ audit_line entry.now) }
{
    add_line(text, entry)?;
    text.push('\n')
}

/// Adds the lines of each unit's records with the reservations that stood before them.
fn write_spans<D: DeviceServer>(
    alloc: Global,
    text: &mut String,
    units: &[LogicalUnit<D>],
) -> Result<(), AllocError>
    ensures { OnOk result (string_bytes text.new ≡ string_bytes text.old ++ spans_of_units (units_of units.now)) }
{
    for unit in units {
        let lines = unit.audit(alloc)?;
        write_lines(text, &lines)?;
    }
    Ok(())
}

/// Adds lines, each with its line feed.
fn write_lines(text: &mut String, lines: &[String]) -> Result<(), AllocError>
    ensures { OnOk result (string_bytes text.new ≡ string_bytes text.old ++ text_of_lines (map string_bytes lines.now)) }
{
    for line in lines {
        text.push_str(line.as_str())?;
        text.push_str("\n")?;
    }
    Ok(())
}
