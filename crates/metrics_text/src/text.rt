//! The text of all metrics.

ghost use Rattle.std.specs.Prelude.{◌≡◌, ◌++◌, IfOk, OnOk, map, string_bytes};
ghost use Rattle.std.specs.List.{flat_map};
ghost use Rattle.record_lines.specs.CountsSeen.{count_seen, kind_seen};
ghost use Rattle.metrics_text.specs.Text.{count_line, kind_labels, metrics, records_family, status_label, uncounted_family};

use crate::family::Family;
use crate::line::{write_heading, write_label, write_name, write_value};
use crate::server::write_server;
use crate::server_counts::ServerCounts;
use crate::units::write_units;
use crate::volumes::write_volumes;
use crate::word::Word;
use library_status::{LibrarySummary, ServerSummary};
use record_lines::{RecordCount, RecordCounts, RecordKind};
use std::alloc::{AllocError, Global};

/// What was counted, and the summaries of a library and of its server, as metrics in Prometheus' text format.
#[tactic(auto, unfolding(crate::specs::Text::metrics))]
pub fn metrics_text(
    alloc: Global,
    counts: &RecordCounts,
    library: &LibrarySummary,
    server: &ServerSummary,
    server_counts: &ServerCounts,
) -> Result<String, AllocError>
    ensures { IfOk result (λ text. string_bytes text ≡ metrics counts.now library.now server.now server_counts.now) }
{
    let mut text = String::new(alloc);
    write_records(&mut text, counts.counts())?;
    write_uncounted(&mut text, counts.uncounted())?;
    write_units(&mut text, &library.units)?;
    write_volumes(&mut text, &library.units)?;
    write_server(&mut text, server, server_counts)?;
    Ok(text)
}

/// How often each kind of record was counted.
#[tactic(auto, unfolding(crate::specs::Text::records_family))]
fn write_records(text: &mut String, counts: &[RecordCount]) -> Result<(), AllocError>
    ensures { OnOk result (string_bytes text.new ≡ string_bytes text.old ++ records_family (map count_seen counts.now)) }
{
    write_heading(text, Family::Records)?;
    write_counts(text, counts)
}

fn write_counts(text: &mut String, counts: &[RecordCount]) -> Result<(), AllocError>
    ensures { OnOk result (string_bytes text.new ≡ string_bytes text.old ++ flat_map count_line (map count_seen counts.now)) }
{
    for entry in counts {
        write_count(text, *entry)?;
    }
    Ok(())
}

#[tactic(auto, unfolding(crate::specs::Text::count_line))]
fn write_count(text: &mut String, entry: RecordCount) -> Result<(), AllocError>
    ensures { OnOk result (string_bytes text.new ≡ string_bytes text.old ++ count_line (count_seen entry)) }
{
    write_name(text, Family::Records)?;
    write_kind(text, entry.kind)?;
    write_status(text, entry.kind)?;
    write_value(text, Word::EndOfLabels, entry.count)
}

/// What was asked, and the cell.
#[tactic(auto, unfolding(crate::specs::Text::kind_labels))]
fn write_kind(text: &mut String, kind: RecordKind) -> Result<(), AllocError>
    ensures { OnOk result (string_bytes text.new ≡ string_bytes text.old ++ kind_labels (kind_seen kind)) }
{
    write_label(text, Word::Class, kind.class().as_bytes())?;
    write_label(text, Word::ResType, kind.res_type().as_bytes())?;
    write_label(text, Word::Role, kind.role().as_bytes())
}

#[tactic(auto, unfolding(crate::specs::Text::status_label))]
fn write_status(text: &mut String, kind: RecordKind) -> Result<(), AllocError>
    ensures { OnOk result (string_bytes text.new ≡ string_bytes text.old ++ status_label (kind_seen kind)) }
{
    write_label(text, Word::Status, kind.status_digits().as_bytes())
}

/// How many records couldn't be counted.
#[tactic(auto, unfolding(crate::specs::Text::uncounted_family))]
fn write_uncounted(text: &mut String, uncounted: u64) -> Result<(), AllocError>
    ensures { OnOk result (string_bytes text.new ≡ string_bytes text.old ++ uncounted_family uncounted) }
{
    write_heading(text, Family::Uncounted)?;
    write_name(text, Family::Uncounted)?;
    write_value(text, Word::Space, uncounted)
}
