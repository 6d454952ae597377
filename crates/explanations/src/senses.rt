//! Sense data in words.
ghost use Rattle.std.specs.Prelude.{◌≡◌, ◌++◌, OnOk};
ghost use Rattle.explanations.specs.Senses.{condition_text, condition_with, information_text, key_text, key_with, mark_text, marks_text, residue_text, sense_text};

use crate::codes::{condition_of, key_with};
use crate::words::{write_code, write_number_of, write_small, write_words};
use scsi_sense::Sense;
use std::alloc::AllocError;

/// The first of the numbers that are negative as two's complement.
const FIRST_NEGATIVE: u32 = 0x8000_0000;

/// Adds what sense data say: the key, the condition, the marks that are set and INFORMATION (SPC-4, "Fixed
/// format sense data").
#[tactic(auto, unfolding(crate::specs::Senses::sense_text))]
pub fn write_sense(line: &mut Vec<u8>, sense: &Sense) -> Result<(), AllocError>
    ensures { OnOk result (line.new.items ≡ line.old.items ++ sense_text sense.now) }
{
    write_words(line, ", ")?;
    write_key(line, sense.key)?;
    write_words(line, ": ")?;
    write_condition(line, sense)?;
    write_marks(line, sense)?;
    write_information(line, sense)
}

fn write_key(line: &mut Vec<u8>, code: u8) -> Result<(), AllocError>
    ensures { OnOk result (line.new.items ≡ line.old.items ++ key_text code (key_with code)) }
{
    match key_with(code) {
        Some(key) => write_words(line, key.text()),
        None => {
            write_words(line, "SENSE KEY ")?;
            write_code(line, code)
        }
    }
}

fn write_condition(line: &mut Vec<u8>, sense: &Sense) -> Result<(), AllocError>
    ensures { OnOk result (line.new.items ≡ line.old.items
        ++ condition_text sense.now.asc sense.now.ascq (condition_with sense.now.key sense.now.asc sense.now.ascq)) }
{
    match condition_of(sense) {
        Some(condition) => write_small(line, condition.text()),
        None => {
            write_code(line, sense.asc)?;
            write_words(line, "/")?;
            write_code(line, sense.ascq)
        }
    }
}

/// Adds what FILEMARK, EOM and ILI mean (SSC-4, "Sense data").
fn write_marks(line: &mut Vec<u8>, sense: &Sense) -> Result<(), AllocError>
    ensures { OnOk result (line.new.items ≡ line.old.items ++ marks_text sense.now) }
{
    write_mark(line, sense.filemark, ", at a filemark")?;
    write_mark(line, sense.eom, ", at an end of the medium")?;
    write_mark(line, sense.ili, ", incorrect length")?;
    Ok(())
}

/// Adds the words of a mark that is set.
#[tactic(auto, unfolding(crate::specs::Senses::mark_text))]
fn write_mark(line: &mut Vec<u8>, is_set: bool, words: &str) -> Result<(), AllocError>
    ensures { OnOk result (line.new.items ≡ line.old.items ++ mark_text is_set words.now) }
{
    if is_set {
        write_words(line, words)?;
    }
    Ok(())
}

/// Adds what INFORMATION means, where it is valid.
fn write_information(line: &mut Vec<u8>, sense: &Sense) -> Result<(), AllocError>
    ensures { OnOk result (line.new.items ≡ line.old.items ++ information_text sense.now) }
{
    if sense.valid {
        write_residue(line, sense.information)?;
    }
    Ok(())
}

/// Adds what was requested less what there was, as two's complement.
fn write_residue(line: &mut Vec<u8>, information: u32) -> Result<(), AllocError>
    ensures { OnOk result (line.new.items ≡ line.old.items ++ residue_text information) }
{
    if information < FIRST_NEGATIVE {
        write_number_of(line, u64::from(information), " fewer than requested")
    } else {
        let more = 0x1_0000_0000 - u64::from(information);
        write_number_of(line, more, " more than requested")
    }
}
