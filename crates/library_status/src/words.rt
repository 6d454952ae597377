//! What lines are made of: a value after the words before it.

ghost use Rattle.std.specs.Prelude.{◌≡◌, ◌++◌, OnOk, length, string_bytes};
ghost use Rattle.std.specs.List.{flat_map};
ghost use Rattle.library_status.specs.Words.{escaped, is_plain, key_after, nexus_after, number_after, tag_after, trimmed, word_text, words_after};

use crate::word::Word;
use scsi_nexus::Nexus;
use std::alloc::AllocError;
use std::fmt::Write;
use tape_medium::VolumeTag;

/// Adds a word.
pub(crate) fn write_word(text: &mut String, word: Word) -> Result<(), AllocError>
    ensures { OnOk result (string_bytes text.new ≡ string_bytes text.old ++ word_text word) }
{
    text.push_str(word.text())
}

/// Adds words after others.
#[tactic(auto, unfolding(crate::specs::Words::words_after))]
pub(crate) fn write_words(text: &mut String, before: Word, words: &str) -> Result<(), AllocError>
    ensures { OnOk result (string_bytes text.new ≡ string_bytes text.old ++ words_after before words.now) }
{
    write_word(text, before)?;
    text.push_str(words)
}

/// Adds a number after words.
#[tactic(auto, unfolding(crate::specs::Words::number_after))]
pub(crate) fn write_number(text: &mut String, before: Word, number: u64) -> Result<(), AllocError>
    ensures { OnOk result (string_bytes text.new ≡ string_bytes text.old ++ number_after before number) }
{
    write_word(text, before)?;
    write!(text, "{number}")
}

/// Adds a nexus after words.
#[tactic(auto, unfolding(crate::specs::Words::nexus_after))]
pub(crate) fn write_nexus(text: &mut String, before: Word, nexus: Nexus) -> Result<(), AllocError>
    ensures { OnOk result (string_bytes text.new ≡ string_bytes text.old ++ nexus_after before nexus) }
{
    write_word(text, before)?;
    write!(text, "{nexus}")
}

/// Adds a reservation key after words, in 16 hexadecimal digits.
#[tactic(auto, unfolding(crate::specs::Words::key_after))]
pub(crate) fn write_key(text: &mut String, before: Word, key: u64) -> Result<(), AllocError>
    ensures { OnOk result (string_bytes text.new ≡ string_bytes text.old ++ key_after before key) }
{
    write_word(text, before)?;
    write!(text, "{key:016x}")
}

/// Adds a tag after words, without the spaces at its end.
#[tactic(auto, unfolding(crate::specs::Words::tag_after))]
pub(crate) fn write_tag(text: &mut String, before: Word, tag: &VolumeTag) -> Result<(), AllocError>
    ensures { OnOk result (string_bytes text.new ≡ string_bytes text.old ++ tag_after before tag.now) }
{
    write_word(text, before)?;
    write_escaped(text, without_spaces(&tag.0))
}

/// The bytes before the spaces at their end.
pub fn without_spaces(bytes: &[u8]) -> &[u8]
    ensures { result.now ≡ trimmed bytes.now (length bytes.now) }
{
    let mut end = bytes.len();
    'spaces: while end > 0 && bytes[end - 1] == b' ' {
        end -= 1;
    }
    &bytes[..end]
}

/// Bytes as they stand in a string.
pub(crate) fn write_escaped(text: &mut String, bytes: &[u8]) -> Result<(), AllocError>
    ensures { OnOk result (string_bytes text.new ≡ string_bytes text.old ++ flat_map escaped bytes.now) }
{
    for byte in bytes {
        write_byte(text, *byte)?;
    }
    Ok(())
}

fn write_byte(text: &mut String, byte: u8) -> Result<(), AllocError>
    ensures { OnOk result (string_bytes text.new ≡ string_bytes text.old ++ escaped byte) }
{
    if is_plain(byte) {
        text.push(char::from(byte))
    } else {
        write!(text, "\\u{byte:04x}")
    }
}

/// Whether a string has a byte as it is.
fn is_plain(byte: u8) -> bool
    ensures { result ≡ is_plain byte }
{
    (32 <= byte && byte < 127) && !(byte == b'"' || byte == b'\\')
}
