//! The lines of a unit's records.
ghost use Rattle.std.specs.Prelude.{◌≡◌, ◌++◌, IfOk, OnErr, OnOk, option_map, string_bytes};
ghost use Rattle.record_lines.specs.Lines.{line_of, lines_of};
ghost use Rattle.record_lines.specs.Names.{name_in};
ghost use Rattle.record_lines.specs.Standing.{state_after, states_after};

use crate::host_name::HostName;
use crate::line::{TakenRecord, write_line};
use crate::names::name_of;
use crate::standing::follow;
use audit_log::Record;
use pr_core::PrState;
use program_options::RecordFormat;
use std::alloc::{AllocError, Global};
use unit_attention::Queues;

/// What lines of records have in common that were taken out of a unit at once.
#[derive(Clone, Copy)]
pub struct LineContext<'a> {
    pub format: RecordFormat,
    /// When they were taken.
    pub time: Option<&'a str>,
    /// The number of the logical unit.
    pub unit: u8,
    /// The names of hosts that are known.
    pub names: &'a [HostName],
}

/// The lines of a unit's records, by the reservations before the first, which then are those after the last. Want of memory leaves these
/// as they were.
pub fn records_text(
    alloc: Global,
    context: &LineContext<'_>,
    reservations: &mut PrState,
    entries: &[Record],
) -> Result<String, AllocError>
    ensures text { IfOk result (λ text. string_bytes text ≡ lines_of context.now.format (option_map (λ t. t.now) context.now.time) context.now.unit context.now.names.now reservations.old entries.now) }
    ensures after { OnOk result (reservations.new ≡ states_after reservations.old entries.now) }
    ensures err { OnErr result (reservations.new ≡ reservations.old) }
{
    let mut standing = reservations.copy();
    let mut nobody = Queues::new();
    let mut text = String::new(alloc);
    'entries: for entry in entries {
        write_next(alloc, &mut text, context, &mut standing, &mut nobody, entry)?;
    }
    *reservations = standing;
    Ok(text)
}

/// Adds the line of a record by the reservations before it, which then are those after it.
fn write_next(
    alloc: Global,
    text: &mut String,
    context: &LineContext<'_>,
    standing: &mut PrState,
    nobody: &mut Queues,
    entry: &Record,
) -> Result<(), AllocError>
    ensures line { OnOk result (string_bytes text.new ≡ string_bytes text.old ++ line_of context.now.format (option_map (λ t. t.now) context.now.time) context.now.unit (name_in context.now.names.now entry.now.nexus) standing.old.reservation entry.now) }
    ensures after { OnOk result (standing.new ≡ state_after standing.old entry.now) }
{
    let taken = TakenRecord {
        time: context.time,
        unit: context.unit,
        name: name_of(context.names, entry.nexus),
        reservation: standing.reservation(),
        record: entry,
    };
    write_line(alloc, text, context.format, &taken)?;
    follow(standing, nobody, entry);
    Ok(())
}
