ghost use Rattle.std.specs.Prelude.{◌≡◌, ◌++◌, OnOk};
ghost use Rattle.explanations.specs.Explanation.{contents_text, explanation, payload_text};
ghost use Rattle.explanations.specs.Senses.{sense_text_in};

use crate::commands::{write_commands, write_log, write_one_command, write_task_management};
use crate::contents::{Contents, contents_of};
use crate::drives::{write_long_mode, write_mode, write_position};
use crate::elements::write_elements;
use crate::reservations::write_reservations;
use crate::senses::write_sense;
use crate::units::{write_inquiry, write_luns, write_page};
use crate::words::{write_count, write_words};
use scsi_cdb::CommandSet;
use scsi_sense::{Sense, Status};
use std::alloc::AllocError;

/// Adds a line that says in words what a reply to a command says that was sent to a unit with these commands: `# `, the
/// status, then what its sense data mean, and its data where it is GOOD. Data may be cut anywhere: what is whole is
/// said, and that they are cut. Data of other commands, or with another status, are counted. Where memory runs out
/// a part of the line may have been added.
#[tactic(auto, unfolding(crate::specs::Explanation::explanation))]
pub fn explain(
    line: &mut Vec<u8>,
    commands: CommandSet,
    cdb: &[u8],
    status: Status,
    sense: &Option<Sense>,
    payload: &[u8],
) -> Result<(), AllocError>
    ensures { OnOk result (line.new.items ≡ line.old.items ++ explanation commands cdb.now status sense.now payload.now) }
{
    write_words(line, "# ")?;
    write_words(line, status.text())?;
    write_sense_in(line, sense)?;
    write_payload(line, commands, cdb, status, payload)?;
    write_words(line, "\n")
}

fn write_sense_in(line: &mut Vec<u8>, sense: &Option<Sense>) -> Result<(), AllocError>
    ensures { OnOk result (line.new.items ≡ line.old.items ++ sense_text_in sense.now) }
{
    match sense {
        None => Ok(()),
        Some(sense) => write_sense(line, sense),
    }
}

fn write_payload(
    line: &mut Vec<u8>,
    commands: CommandSet,
    cdb: &[u8],
    status: Status,
    payload: &[u8],
) -> Result<(), AllocError>
    ensures { OnOk result (line.new.items ≡ line.old.items ++ payload_text commands cdb.now status payload.now) }
{
    if payload.is_empty() {
        return Ok(());
    }
    match status {
        Status::Good => write_contents(line, contents_of(commands, cdb), payload),
        Status::CheckCondition | Status::Busy | Status::ReservationConflict => {
            write_count(line, payload)
        }
    }
}

fn write_contents(line: &mut Vec<u8>, contents: Contents, bytes: &[u8]) -> Result<(), AllocError>
    ensures { OnOk result (line.new.items ≡ line.old.items ++ contents_text contents bytes.now) }
{
    match contents {
        Contents::StandardInquiry => write_inquiry(line, bytes),
        Contents::VitalProductData => write_page(line, bytes),
        Contents::ModeParameters => write_mode(line, bytes),
        Contents::LongModeParameters => write_long_mode(line, bytes),
        Contents::LogPage => write_log(line, bytes),
        Contents::Commands { timeouts } => write_commands(line, timeouts, bytes),
        Contents::Command => write_one_command(line, bytes),
        Contents::TaskManagement => write_task_management(line, bytes),
        Contents::Position => write_position(line, bytes),
        Contents::Reservations(list) => write_reservations(line, list, bytes),
        Contents::LogicalUnits => write_luns(line, bytes),
        Contents::Elements => write_elements(line, bytes),
        Contents::Other => write_count(line, bytes),
    }
}
