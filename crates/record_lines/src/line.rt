//! The line of a record.
ghost use Rattle.std.specs.Prelude.{◌≡◌, ◌++◌, OnOk, Some, option_map, string_bytes};
ghost use Rattle.hex.specs.Hex.{encode_lower};
ghost use Rattle.scsi_sense.specs.FixedSense.{fixed_sense};
ghost use Rattle.scsi_nexus.specs.Text.{nexus_text};
ghost use Rattle.permit_tables.specs.Text.{cell_text};
ghost use Rattle.record_lines.specs.Lines.{answered_text, asked_text, held_in, judged_text, line_of, rule_name, taken_text, value};

use crate::field::{Field, absent, line_end, mark};
use crate::words::rule_name;
use audit_log::{Record, status_text, write_reservation};
use itoa::Buffer;
use permit_tables::{Cell, KeyRule, ResType};
use program_options::RecordFormat;
use scsi_nexus::Nexus;
use scsi_sense::Sense;
use std::alloc::{AllocError, Global};
use std::fmt::Write;

/// A record that was taken out of its unit, with what is told of it beside.
#[derive(Clone, Copy)]
pub struct TakenRecord<'a> {
    /// When it was taken.
    pub time: Option<&'a str>,
    /// The number of its logical unit.
    pub unit: u8,
    /// The name of the host that asked.
    pub name: Option<&'a str>,
    /// The reservation before it.
    pub reservation: Option<(ResType, Nexus)>,
    pub record: &'a Record,
}

/// Adds the line of a record, with its line feed. Where memory runs out, some of it may have been added.
#[tactic(auto, unfolding(crate::specs::Lines::line_of))]
pub fn write_line(
    alloc: Global,
    text: &mut String,
    format: RecordFormat,
    taken: &TakenRecord<'_>,
) -> Result<(), AllocError>
    ensures { OnOk result (string_bytes text.new ≡ string_bytes text.old ++ line_of format (option_map (λ t. t.now) taken.now.time) taken.now.unit (option_map (λ t. t.now) taken.now.name) taken.now.reservation taken.now.record.now) }
{
    write_taken(text, format, taken)?;
    write_asked(text, format, taken)?;
    write_judged(text, format, taken.record)?;
    write_answered(alloc, text, format, taken.record)?;
    text.push_str(Field::Reservation.lead(format))?;
    write_held(text, format, taken.reservation)?;
    text.push_str(line_end(format))
}

/// The time, the unit and the number.
fn write_taken(
    text: &mut String,
    format: RecordFormat,
    taken: &TakenRecord<'_>,
) -> Result<(), AllocError>
    ensures { OnOk result (string_bytes text.new ≡ string_bytes text.old ++ taken_text format (option_map (λ t. t.now) taken.now.time) taken.now.unit taken.now.record.now) }
{
    text.push_str(Field::Time.lead(format))?;
    write_word_if(text, format, taken.time)?;
    text.push_str(Field::Unit.lead(format))?;
    text.push_str(Buffer::new().format(taken.unit))?;
    text.push_str(Field::Number.lead(format))?;
    text.push_str(Buffer::new().format(taken.record.number))
}

/// The nexus, the name and the class.
fn write_asked(
    text: &mut String,
    format: RecordFormat,
    taken: &TakenRecord<'_>,
) -> Result<(), AllocError>
    ensures { OnOk result (string_bytes text.new ≡ string_bytes text.old ++ asked_text format (option_map (λ t. t.now) taken.now.name) taken.now.record.now) }
{
    text.push_str(Field::Nexus.lead(format))?;
    write_nexus(text, format, taken.record.nexus)?;
    text.push_str(Field::Name.lead(format))?;
    write_word_if(text, format, taken.name)?;
    text.push_str(Field::Class.lead(format))?;
    write_word(text, format, taken.record.act.asked().text())
}

/// The stage, the cell and the rule.
fn write_judged(text: &mut String, format: RecordFormat, entry: &Record) -> Result<(), AllocError>
    ensures { OnOk result (string_bytes text.new ≡ string_bytes text.old ++ judged_text format entry.now) }
{
    text.push_str(Field::Stage.lead(format))?;
    text.push_str(Buffer::new().format(entry.stage.number()))?;
    text.push_str(Field::Cell.lead(format))?;
    write_cell(text, format, entry.cell)?;
    text.push_str(Field::Rule.lead(format))?;
    write_rule(text, format, entry.rule)
}

/// The status and the sense data.
fn write_answered(
    alloc: Global,
    text: &mut String,
    format: RecordFormat,
    entry: &Record,
) -> Result<(), AllocError>
    ensures { OnOk result (string_bytes text.new ≡ string_bytes text.old ++ answered_text format entry.now) }
{
    text.push_str(Field::Status.lead(format))?;
    write_word(text, format, status_text(entry.status))?;
    text.push_str(Field::Sense.lead(format))?;
    write_sense(alloc, text, format, &entry.sense)
}

/// A value that is there.
fn write_word(text: &mut String, format: RecordFormat, word: &str) -> Result<(), AllocError>
    ensures { OnOk result (string_bytes text.new ≡ string_bytes text.old ++ value format (Some word.now)) }
{
    text.push_str(mark(format))?;
    text.push_str(word)?;
    text.push_str(mark(format))
}

fn write_word_if(
    text: &mut String,
    format: RecordFormat,
    word: Option<&str>,
) -> Result<(), AllocError>
    ensures { OnOk result (string_bytes text.new ≡ string_bytes text.old ++ value format (option_map (λ w. w.now) word.entry)) }
{
    match word {
        None => text.push_str(absent(format)),
        Some(word) => write_word(text, format, word),
    }
}

fn write_nexus(
    text: &mut String,
    format: RecordFormat,
    nexus: Option<Nexus>,
) -> Result<(), AllocError>
    ensures { OnOk result (string_bytes text.new ≡ string_bytes text.old ++ value format (option_map nexus_text nexus)) }
{
    let Some(nexus) = nexus else {
        return text.push_str(absent(format));
    };
    text.push_str(mark(format))?;
    write!(text, "{nexus}")?;
    text.push_str(mark(format))
}

fn write_cell(text: &mut String, format: RecordFormat, cell: Option<Cell>) -> Result<(), AllocError>
    ensures { OnOk result (string_bytes text.new ≡ string_bytes text.old ++ value format (option_map cell_text cell)) }
{
    let Some(cell) = cell else {
        return text.push_str(absent(format));
    };
    text.push_str(mark(format))?;
    write!(text, "{cell}")?;
    text.push_str(mark(format))
}

fn write_rule(
    text: &mut String,
    format: RecordFormat,
    rule: Option<KeyRule>,
) -> Result<(), AllocError>
    ensures { OnOk result (string_bytes text.new ≡ string_bytes text.old ++ value format (option_map rule_name rule)) }
{
    match rule {
        None => text.push_str(absent(format)),
        Some(rule) => write_word(text, format, rule_name(rule)),
    }
}

fn write_sense(
    alloc: Global,
    text: &mut String,
    format: RecordFormat,
    sense: &Option<Sense>,
) -> Result<(), AllocError>
    ensures { OnOk result (string_bytes text.new ≡ string_bytes text.old ++ value format (option_map (λ s. encode_lower (fixed_sense s)) sense.now)) }
{
    match sense {
        None => text.push_str(absent(format)),
        Some(sense) => {
            let digits = hex::encode(alloc, sense.to_bytes())?;
            write_word(text, format, digits.as_str())
        }
    }
}

fn write_held(
    text: &mut String,
    format: RecordFormat,
    held: Option<(ResType, Nexus)>,
) -> Result<(), AllocError>
    ensures { OnOk result (string_bytes text.new ≡ string_bytes text.old ++ value format (held_in held)) }
{
    let Some(reservation) = held else {
        return text.push_str(absent(format));
    };
    text.push_str(mark(format))?;
    write_reservation(text, Some(reservation))?;
    text.push_str(mark(format))
}
