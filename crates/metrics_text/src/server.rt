//! The metrics of the server.

ghost use Rattle.std.specs.Prelude.{◌≡◌, ◌++◌, OnOk, string_bytes};
ghost use Rattle.std.specs.List.{flat_map};
ghost use Rattle.metrics_text.specs.Server.{bytes_family, bytes_line, failing_family, failing_line, failing_metrics, failing_name, memory_family, memory_lines, number_family, number_line, seconds_after, server_metrics, session_metrics, sync_family, sync_line, sync_lines};

use crate::family::{Family, ServerNumber};
use crate::line::{write_heading, write_label, write_name, write_number, write_value, write_word};
use crate::server_counts::ServerCounts;
use crate::word::Word;
use library_status::{ServerSummary, without_spaces};
use std::alloc::AllocError;
use std::fmt::Write;
use tape_medium::VolumeTag;

/// How many microseconds a second has.
const SECOND: u64 = 1_000_000;

/// Adds the families of the server.
#[tactic(auto, unfolding(crate::specs::Server::server_metrics))]
pub(crate) fn write_server(
    text: &mut String,
    server: &ServerSummary,
    counts: &ServerCounts,
) -> Result<(), AllocError>
    ensures { OnOk result (string_bytes text.new ≡ string_bytes text.old ++ server_metrics server.now counts.now) }
{
    write_memory_family(text, server.memory)?;
    write_sessions(text, counts)?;
    write_failing(text, server)?;
    write_family(text, ServerNumber::AwaitedSaves, counts.awaited_saves)?;
    write_sync_family(text, counts.last_sync)
}

#[tactic(auto, unfolding(crate::specs::Server::memory_family))]
fn write_memory_family(text: &mut String, memory: Option<u64>) -> Result<(), AllocError>
    ensures { OnOk result (string_bytes text.new ≡ string_bytes text.old ++ memory_family memory) }
{
    write_heading(text, Family::Server(ServerNumber::Memory))?;
    write_memory(text, memory)
}

fn write_memory(text: &mut String, memory: Option<u64>) -> Result<(), AllocError>
    ensures { OnOk result (string_bytes text.new ≡ string_bytes text.old ++ memory_lines memory) }
{
    match memory {
        None => Ok(()),
        Some(bytes) => write_line(text, ServerNumber::Memory, bytes),
    }
}

/// How many sessions go on, and what came and went in all.
#[tactic(auto, unfolding(crate::specs::Server::session_metrics))]
fn write_sessions(text: &mut String, counts: &ServerCounts) -> Result<(), AllocError>
    ensures { OnOk result (string_bytes text.new ≡ string_bytes text.old ++ session_metrics counts.now) }
{
    write_family(text, ServerNumber::Sessions, counts.sessions)?;
    write_family(text, ServerNumber::Commands, counts.commands)?;
    write_bytes_family(text, counts)
}

#[tactic(auto, unfolding(crate::specs::Server::bytes_family))]
fn write_bytes_family(text: &mut String, counts: &ServerCounts) -> Result<(), AllocError>
    ensures { OnOk result (string_bytes text.new ≡ string_bytes text.old ++ bytes_family counts.now) }
{
    write_heading(text, Family::Server(ServerNumber::Bytes))?;
    write_bytes(text, Word::Received, counts.received)?;
    write_bytes(text, Word::Sent, counts.sent)
}

#[tactic(auto, unfolding(crate::specs::Server::bytes_line))]
fn write_bytes(text: &mut String, direction: Word, bytes: u64) -> Result<(), AllocError>
    ensures { OnOk result (string_bytes text.new ≡ string_bytes text.old ++ bytes_line direction bytes) }
{
    write_name(text, Family::Server(ServerNumber::Bytes))?;
    write_word(text, direction)?;
    write_value(text, Word::EndOfLabels, bytes)
}

/// What can't be written.
#[tactic(auto, unfolding(crate::specs::Server::failing_metrics))]
fn write_failing(text: &mut String, server: &ServerSummary) -> Result<(), AllocError>
    ensures { OnOk result (string_bytes text.new ≡ string_bytes text.old ++ failing_metrics server.now) }
{
    write_failing_family(text, &server.failing)?;
    write_family(
        text,
        ServerNumber::InventoryFailing,
        u64::from(server.is_inventory_failing),
    )
}

#[tactic(auto, unfolding(crate::specs::Server::failing_family))]
fn write_failing_family(text: &mut String, tags: &[VolumeTag]) -> Result<(), AllocError>
    ensures { OnOk result (string_bytes text.new ≡ string_bytes text.old ++ failing_family tags.now) }
{
    write_heading(text, Family::Server(ServerNumber::ImageFailing))?;
    write_failing_lines(text, tags)
}

fn write_failing_lines(text: &mut String, tags: &[VolumeTag]) -> Result<(), AllocError>
    ensures { OnOk result (string_bytes text.new ≡ string_bytes text.old ++ flat_map failing_line tags.now) }
{
    for tag in tags {
        write_failing_line(text, tag)?;
    }
    Ok(())
}

#[tactic(auto, unfolding(crate::specs::Server::failing_line))]
fn write_failing_line(text: &mut String, tag: &VolumeTag) -> Result<(), AllocError>
    ensures { OnOk result (string_bytes text.new ≡ string_bytes text.old ++ failing_line tag.now) }
{
    write_failing_name(text, tag)?;
    write_value(text, Word::EndOfLabels, 1)
}

/// Adds the name of the metric, and the tag without the spaces at its end.
#[tactic(auto, unfolding(crate::specs::Server::failing_name))]
fn write_failing_name(text: &mut String, tag: &VolumeTag) -> Result<(), AllocError>
    ensures { OnOk result (string_bytes text.new ≡ string_bytes text.old ++ failing_name tag.now) }
{
    write_name(text, Family::Server(ServerNumber::ImageFailing))?;
    write_label(text, Word::OfVolume, without_spaces(&tag.0))
}

#[tactic(auto, unfolding(crate::specs::Server::sync_family))]
fn write_sync_family(text: &mut String, micros: Option<u64>) -> Result<(), AllocError>
    ensures { OnOk result (string_bytes text.new ≡ string_bytes text.old ++ sync_family micros) }
{
    write_heading(text, Family::Server(ServerNumber::LastSync))?;
    write_sync(text, micros)
}

fn write_sync(text: &mut String, micros: Option<u64>) -> Result<(), AllocError>
    ensures { OnOk result (string_bytes text.new ≡ string_bytes text.old ++ sync_lines micros) }
{
    match micros {
        None => Ok(()),
        Some(micros) => write_sync_line(text, micros),
    }
}

#[tactic(auto, unfolding(crate::specs::Server::sync_line))]
fn write_sync_line(text: &mut String, micros: u64) -> Result<(), AllocError>
    ensures { OnOk result (string_bytes text.new ≡ string_bytes text.old ++ sync_line micros) }
{
    write_name(text, Family::Server(ServerNumber::LastSync))?;
    write_seconds(text, Word::Space, micros)?;
    write_word(text, Word::EndOfLine)
}

/// Adds microseconds as seconds after a word.
#[tactic(auto, unfolding(crate::specs::Server::seconds_after))]
fn write_seconds(text: &mut String, before: Word, micros: u64) -> Result<(), AllocError>
    ensures { OnOk result (string_bytes text.new ≡ string_bytes text.old ++ seconds_after before micros) }
{
    write_number(text, before, micros / SECOND)?;
    write_word(text, Word::Point)?;
    let rest = micros % SECOND;
    write!(text, "{rest:06}")
}

/// Adds a family of one metric.
#[tactic(auto, unfolding(crate::specs::Server::number_family))]
fn write_family(text: &mut String, number: ServerNumber, value: u64) -> Result<(), AllocError>
    ensures { OnOk result (string_bytes text.new ≡ string_bytes text.old ++ number_family number value) }
{
    write_heading(text, Family::Server(number))?;
    write_line(text, number, value)
}

#[tactic(auto, unfolding(crate::specs::Server::number_line))]
fn write_line(text: &mut String, number: ServerNumber, value: u64) -> Result<(), AllocError>
    ensures { OnOk result (string_bytes text.new ≡ string_bytes text.old ++ number_line number value) }
{
    write_name(text, Family::Server(number))?;
    write_value(text, Word::Space, value)
}
