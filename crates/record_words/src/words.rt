//! A record in words.

use crate::read_record::{ReadAnswer, ReadRecord};
use explanations::explain;
use scsi_cdb::{Profile, commands_at};
use std::alloc::{AllocError, Global};
use std::fmt::Write;

/// Adds the words of a record: when it was taken, which it is, what was asked by whom, what was answered, and why.
pub(crate) fn write_words(
    alloc: Global,
    text: &mut String,
    entry: &ReadRecord<'_>,
    answer: &ReadAnswer,
) -> Result<(), AllocError> {
    write_taken(text, entry)?;
    write_asked(text, entry)?;
    write_answered(alloc, text, answer)?;
    write_why(text, entry)
}

fn write_taken(text: &mut String, entry: &ReadRecord<'_>) -> Result<(), AllocError> {
    let time = entry.time.unwrap_or("at an unknown time");
    let (unit, number) = (entry.unit, entry.number);
    write!(text, "{time}, unit {unit}, record {number}: ")
}

fn write_asked(text: &mut String, entry: &ReadRecord<'_>) -> Result<(), AllocError> {
    let class = entry.class;
    match (entry.name, entry.nexus) {
        (Some(name), Some(nexus)) => write!(text, "{class} of {name} ({nexus}): "),
        (None, Some(nexus)) => write!(text, "{class} of {nexus}: "),
        (_, None) => write!(text, "{class}: "),
    }
}

/// The status, and what its sense data mean.
fn write_answered(alloc: Global, text: &mut String, answer: &ReadAnswer) -> Result<(), AllocError> {
    let mut line = Vec::new(alloc);
    let commands = commands_at(Profile::Spec, 0);
    explain(&mut line, commands, &[], answer.status, &answer.sense, &[])?;
    let words = std::str::from_utf8(&line).unwrap_or("");
    text.push_str(words.trim_start_matches("# ").trim_end_matches("\n"))
}

/// The stage that decided, with the cell of the permission table and the rule on keys, and the reservation before it.
fn write_why(text: &mut String, entry: &ReadRecord<'_>) -> Result<(), AllocError> {
    text.push_str("; decided by ")?;
    text.push_str(stage_words(entry.stage))?;
    if let Some(cell) = entry.cell {
        write!(text, ", cell {cell}")?;
    }
    if let Some(rule) = entry.rule {
        let words = rule_words(rule);
        write!(text, ", rule {rule}: {words}")?;
    }
    match entry.reservation {
        Some(reservation) => write!(text, "; reserved before: {reservation}"),
        None => text.push_str("; not reserved before"),
    }
}

fn stage_words(stage: u64) -> &'static str {
    match stage {
        1 => "the bytes of the command",
        2 => "a reset that it had to be told of",
        3 => "the reservation",
        4 => "an attention that it had to be told of",
        5 => "the fields of the command",
        _ => "the device",
    }
}

/// What the rule on keys asks that was broken (SPC-4, "PERSISTENT RESERVE OUT command").
fn rule_words(rule: &str) -> &'static str {
    match rule {
        "K1" => "a nexus that is not registered has no key to give",
        "K2" => "the key is not that of the nexus",
        "K3" => "the sender is not registered with this key",
        "K4" => "the reservation has another scope or type",
        "K5" => "nobody has the key",
        "K6" => "all registrants hold the reservation",
        _ => "unknown",
    }
}
