//! What lines are made of.
ghost use Rattle.std.specs.Prelude.{◌≡◌, ◌++◌, length, map, OnOk};
ghost use Rattle.std.specs.Char.{to_ascii_lowercase};
ghost use Rattle.std.specs.Fmt.{decimal};
ghost use Rattle.explanations.specs.Words.{code_text, coded_text, byte_count, count_text, cut, number_text, printable, quoted, trimmed};

use crate::hex_text::write_hex;
use itoa::Buffer;
use std::alloc::AllocError;

pub fn write_words(line: &mut Vec<u8>, words: &str) -> Result<(), AllocError>
    ensures { OnOk result (line.new.items ≡ line.old.items ++ words.now) }
{
    line.extend_from_slice(words.as_bytes())
}

/// Adds words in small letters.
pub fn write_small(line: &mut Vec<u8>, words: &str) -> Result<(), AllocError>
    ensures { OnOk result (line.new.items ≡ line.old.items ++ map to_ascii_lowercase words.now) }
{
    let bytes = words.as_bytes();
    for byte in bytes {
        line.push(byte.to_ascii_lowercase())?;
    }
    Ok(())
}

pub fn write_decimal(line: &mut Vec<u8>, number: u64) -> Result<(), AllocError>
    ensures { OnOk result (line.new.items ≡ line.old.items ++ decimal number) }
{
    let mut buffer = Buffer::new();
    line.extend_from_slice(buffer.format(number).as_bytes())
}

/// Adds a byte that is a code, as `1ah`.
pub fn write_code(line: &mut Vec<u8>, code: u8) -> Result<(), AllocError>
    ensures { OnOk result (line.new.items ≡ line.old.items ++ code_text code) }
{
    write_hex(line, &[code])?;
    write_words(line, "h")
}

/// Adds words and a byte that is a code.
#[tactic(auto, unfolding(crate::specs::Words::coded_text))]
pub fn write_coded(line: &mut Vec<u8>, words: &str, code: u8) -> Result<(), AllocError>
    ensures { OnOk result (line.new.items ≡ line.old.items ++ coded_text words.now code) }
{
    write_words(line, words)?;
    write_code(line, code)
}

/// Adds words and a number.
#[tactic(auto, unfolding(crate::specs::Words::number_text))]
pub fn write_number(line: &mut Vec<u8>, words: &str, number: u64) -> Result<(), AllocError>
    ensures { OnOk result (line.new.items ≡ line.old.items ++ number_text words.now number) }
{
    write_words(line, words)?;
    write_decimal(line, number)
}

/// Adds how many there are of something.
#[tactic(auto, unfolding(crate::specs::Words::count_text))]
pub fn write_number_of(line: &mut Vec<u8>, number: u64, what: &str) -> Result<(), AllocError>
    ensures { OnOk result (line.new.items ≡ line.old.items ++ count_text number what.now) }
{
    write_words(line, ", ")?;
    write_decimal(line, number)?;
    write_words(line, what)
}

/// Adds how many bytes there are.
pub fn write_count(line: &mut Vec<u8>, bytes: &[u8]) -> Result<(), AllocError>
    ensures { OnOk result (line.new.items ≡ line.old.items ++ byte_count (length bytes.now)) }
{
    let what = if bytes.len() == 1 { " byte" } else { " bytes" };
    write_number_of(line, bytes.len() as u64, what)
}

/// Says of data that they are cut, where they have fewer bytes than the whole.
#[tactic(auto, unfolding(crate::specs::Words::cut))]
pub fn write_cut(line: &mut Vec<u8>, bytes: &[u8], whole: u64) -> Result<(), AllocError>
    ensures { OnOk result (line.new.items ≡ line.old.items ++ cut whole bytes.now) }
{
    if (bytes.len() as u64) < whole {
        write_words(line, ", cut")?;
    }
    Ok(())
}

/// Adds text in quotes, without the spaces at its end, and with a dot for each byte that ASCII has no sign for.
#[tactic(auto, unfolding(crate::specs::Words::quoted))]
pub fn write_quoted(line: &mut Vec<u8>, bytes: &[u8]) -> Result<(), AllocError>
    ensures { OnOk result (line.new.items ≡ line.old.items ++ quoted bytes.now) }
{
    write_words(line, "\"")?;
    write_printable(line, without_spaces(bytes))?;
    write_words(line, "\"")
}

fn write_printable(line: &mut Vec<u8>, bytes: &[u8]) -> Result<(), AllocError>
    ensures { OnOk result (line.new.items ≡ line.old.items ++ map printable bytes.now) }
{
    for byte in bytes {
        line.push(printable(*byte))?;
    }
    Ok(())
}

fn printable(byte: u8) -> u8
    ensures { result ≡ printable byte }
{
    if b' ' <= byte && byte <= b'~' {
        byte
    } else {
        b'.'
    }
}

/// The bytes before the spaces at their end.
fn without_spaces(bytes: &[u8]) -> &[u8]
    ensures { result.now ≡ trimmed bytes.now (length bytes.now) }
{
    let mut end = bytes.len();
    'spaces: while end > 0 && bytes[end - 1] == b' ' {
        end -= 1;
    }
    &bytes[..end]
}
