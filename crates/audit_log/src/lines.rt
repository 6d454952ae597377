ghost use Rattle.std.specs.Prelude.{◌≡◌, ◌++◌, codes, IfOk, OnOk, string_bytes};
ghost use Rattle.std.specs.Fmt.{decimal};
ghost use Rattle.scsi_sense.specs.Status.{status_code};
ghost use Rattle.audit_log.specs.Hexadecimal.{two_digits};
ghost use Rattle.audit_log.specs.Stages.{stage_number};
ghost use Rattle.audit_log.specs.Lines.{line_of, asked_text, judged_text, sender_text, cell_text_or_dash, rule_text, act_text, reservation_text};

use crate::record::Record;
use crate::stage::Stage;
use itoa::Buffer;
use permit_tables::{Cell, KeyRule, ResType, class_text};
use scsi_nexus::Nexus;
use scsi_sense::Status;
use std::alloc::{AllocError, Global};
use std::fmt::Write;

/// Room for most lines at once: a text that grows piece by piece costs as much as all else of a line.
const ROOM: usize = 128;

/// A record as `NUMBER NEXUS WHAT STAGE CELL RULE STATUS`, without an end of line: the number in
/// decimal; the nexus as its SAS address in 16 hexadecimal digits, a dot and its port; what was
/// asked; the stage's number; the cell as `CLASS/TYPE/ROLE`; the rule on keys; the status in two
/// hexadecimal digits. A dash stands for a nexus, a cell or a rule that isn't there (profile).
pub fn line(alloc: Global, entry: &Record) -> Result<String, AllocError>
    ensures { IfOk result (λ text. string_bytes text ≡ line_of entry.now) }
{
    let mut text = String::with_capacity(alloc, ROOM)?;
    add_line(&mut text, entry)?;
    Ok(text)
}

/// Adds a record's `line` to a text, without room of its own. Where memory runs out, some of it may have been added.
#[tactic(auto, unfolding(crate::specs::Lines::line_of))]
pub fn add_line(text: &mut String, entry: &Record) -> Result<(), AllocError>
    ensures { OnOk result (string_bytes text.new ≡ string_bytes text.old ++ line_of entry.now) }
{
    write_asked(text, entry)?;
    write_judged(text, entry)
}

/// The number, the nexus and what was asked.
fn write_asked(text: &mut String, entry: &Record) -> Result<(), AllocError>
    ensures { OnOk result (string_bytes text.new ≡ string_bytes text.old ++ asked_text entry.now) }
{
    text.push_str(Buffer::new().format(entry.number))?;
    text.push_str(" ")?;
    write_nexus(text, entry.nexus)?;
    text.push_str(" ")?;
    text.push_str(entry.act.asked().text())
}

/// The stage, the cell, the rule and the status, each after a space.
fn write_judged(text: &mut String, entry: &Record) -> Result<(), AllocError>
    ensures { OnOk result (string_bytes text.new ≡ string_bytes text.old ++ judged_text entry.now) }
{
    text.push_str(stage_text(entry.stage))?;
    write_cell(text, entry.cell)?;
    text.push_str(" ")?;
    text.push_str(rule_text(entry.rule))?;
    text.push_str(" ")?;
    text.push_str(status_text(entry.status))
}

/// The stage's number between spaces.
#[tactic(auto, using(crate::proofs::StageDigits::stage_digits))]
fn stage_text(stage: Stage) -> &'static str
    ensures { result.now ≡ codes " " ++ decimal (stage_number stage) ++ codes " " }
{
    match stage {
        Stage::Decoding => " 1 ",
        Stage::ResetAttention => " 2 ",
        Stage::ReservationCheck => " 3 ",
        Stage::OtherAttention => " 4 ",
        Stage::Fields => " 5 ",
        Stage::Device => " 6 ",
    }
}

/// The status code in two hexadecimal digits.
pub fn status_text(status: Status) -> &'static str
    ensures { result.now ≡ two_digits (status_code status) }
{
    match status {
        Status::Good => "00",
        Status::CheckCondition => "02",
        Status::Busy => "08",
        Status::ReservationConflict => "18",
    }
}

fn write_nexus(text: &mut String, nexus: Option<Nexus>) -> Result<(), AllocError>
    ensures { OnOk result (string_bytes text.new ≡ string_bytes text.old ++ sender_text nexus) }
{
    match nexus {
        None => text.push_str("-"),
        Some(nexus) => write!(text, "{nexus}"),
    }
}

/// Adds the reservation that stood: a dash where none did, or its type, a slash and its holder, or
/// `ALL` in the holder's place under an all registrants type (profile).
pub fn write_reservation(
    text: &mut String,
    held: Option<(ResType, Nexus)>,
) -> Result<(), AllocError>
    ensures { OnOk result (string_bytes text.new ≡ string_bytes text.old ++ reservation_text held) }
{
    match held {
        None => text.push_str("-"),
        Some((res_type, nexus)) => {
            write!(text, "{res_type}/")?;
            if res_type.is_all_registrants() {
                text.push_str("ALL")
            } else {
                write_nexus(text, Some(nexus))
            }
        }
    }
}

fn write_cell(text: &mut String, cell: Option<Cell>) -> Result<(), AllocError>
    ensures { OnOk result (string_bytes text.new ≡ string_bytes text.old ++ cell_text_or_dash cell) }
{
    match cell {
        None => text.push_str("-"),
        Some(cell) => {
            text.push_str(class_text(cell.class))?;
            text.push_str("/")?;
            text.push_str(cell.res_type.text())?;
            text.push_str("/")?;
            text.push_str(cell.role.text())
        }
    }
}

fn rule_text(rule: Option<KeyRule>) -> &'static str
    ensures { result.now ≡ rule_text rule }
{
    match rule {
        None => "-",
        Some(KeyRule::K1) => "K1",
        Some(KeyRule::K2) => "K2",
        Some(KeyRule::K3) => "K3",
        Some(KeyRule::K4) => "K4",
        Some(KeyRule::K5) => "K5",
        Some(KeyRule::K6) => "K6",
    }
}
