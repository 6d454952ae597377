//! What lines are made of: headings, and values after the words before them.

ghost use Rattle.std.specs.Prelude.{◌≡◌, ◌++◌, OnOk, string_bytes};
ghost use Rattle.std.specs.List.{flat_map};
ghost use Rattle.metrics_text.specs.Words.{escaped, label_after, number_after, value_after, word_text};
ghost use Rattle.metrics_text.specs.Families.{family_name, heading, help_line, type_line};

use crate::family::Family;
use crate::word::Word;
use std::alloc::AllocError;
use std::fmt::Write;

/// Adds a word.
pub(crate) fn write_word(text: &mut String, word: Word) -> Result<(), AllocError>
    ensures { OnOk result (string_bytes text.new ≡ string_bytes text.old ++ word_text word) }
{
    text.push_str(word.text())
}

/// Adds the name of a family.
pub(crate) fn write_name(text: &mut String, family: Family) -> Result<(), AllocError>
    ensures { OnOk result (string_bytes text.new ≡ string_bytes text.old ++ family_name family) }
{
    text.push_str(family.name())
}

/// Adds a number after a word.
#[tactic(auto, unfolding(crate::specs::Words::number_after))]
pub(crate) fn write_number(text: &mut String, before: Word, number: u64) -> Result<(), AllocError>
    ensures { OnOk result (string_bytes text.new ≡ string_bytes text.old ++ number_after before number) }
{
    write_word(text, before)?;
    write!(text, "{number}")
}

/// Adds the value of a metric after a word, and ends its line.
#[tactic(auto, unfolding(crate::specs::Words::value_after))]
pub(crate) fn write_value(text: &mut String, before: Word, number: u64) -> Result<(), AllocError>
    ensures { OnOk result (string_bytes text.new ≡ string_bytes text.old ++ value_after before number) }
{
    write_number(text, before, number)?;
    write_word(text, Word::EndOfLine)
}

/// Adds the value of a label after a word.
#[tactic(auto, unfolding(crate::specs::Words::label_after))]
pub(crate) fn write_label(text: &mut String, before: Word, label: &[u8]) -> Result<(), AllocError>
    ensures { OnOk result (string_bytes text.new ≡ string_bytes text.old ++ label_after before label.now) }
{
    write_word(text, before)?;
    write_escaped(text, label)
}

/// Bytes as they stand in the value of a label.
fn write_escaped(text: &mut String, bytes: &[u8]) -> Result<(), AllocError>
    ensures { OnOk result (string_bytes text.new ≡ string_bytes text.old ++ flat_map escaped bytes.now) }
{
    for byte in bytes {
        write_byte(text, *byte)?;
    }
    Ok(())
}

fn write_byte(text: &mut String, byte: u8) -> Result<(), AllocError>
    ensures { OnOk result (string_bytes text.new ≡ string_bytes text.old ++ escaped byte) }
{
    if byte == b'\n' {
        return text.push_str("\\n");
    }
    if byte == b'"' {
        return text.push_str("\\\"");
    }
    if byte == b'\\' {
        return text.push_str("\\\\");
    }
    text.push(char::from(byte))
}

/// Adds the two lines before the metrics of a family.
#[tactic(auto, unfolding(crate::specs::Families::heading))]
pub(crate) fn write_heading(text: &mut String, family: Family) -> Result<(), AllocError>
    ensures { OnOk result (string_bytes text.new ≡ string_bytes text.old ++ heading family) }
{
    write_help(text, family)?;
    write_type(text, family)?;
    write_word(text, Word::EndOfLine)
}

#[tactic(auto, unfolding(crate::specs::Families::help_line))]
fn write_help(text: &mut String, family: Family) -> Result<(), AllocError>
    ensures { OnOk result (string_bytes text.new ≡ string_bytes text.old ++ help_line family) }
{
    write_word(text, Word::Help)?;
    write_name(text, family)?;
    write_word(text, Word::Space)?;
    text.push_str(family.help())
}

#[tactic(auto, unfolding(crate::specs::Families::type_line))]
fn write_type(text: &mut String, family: Family) -> Result<(), AllocError>
    ensures { OnOk result (string_bytes text.new ≡ string_bytes text.old ++ type_line family) }
{
    write_word(text, Word::Type)?;
    write_name(text, family)?;
    write_word(text, Word::Space)?;
    text.push_str(family.type_text())
}
