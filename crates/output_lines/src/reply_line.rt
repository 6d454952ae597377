ghost use Rattle.std.specs.Prelude.{◌≡◌, ◌++◌, OnOk};
ghost use Rattle.output_lines.specs.Replies.{answer_line, reply_line, sense_text, hex_or_dash};

use explanations::{digits_of, write_hex};
use logical_unit::Reply;
use scsi_sense::{Sense, Status};
use std::alloc::AllocError;

/// Adds the line of a reply. After an error some of it may have been added.
pub fn write_reply(text: &mut Vec<u8>, reply: &Reply) -> Result<(), AllocError>
    ensures { OnOk result (text.new.items ≡ text.old.items ++ reply_line reply.now) }
{
    write_answer(text, reply.status, &reply.sense, reply.payload.bytes())
}

/// Adds the line `STATUS SENSE DATA` of an answer: the status in two hexadecimal digits, the sense and the data
/// in hexadecimal with lower case letters, and a dash where there is none (profile). After an error some of it may have
/// been added.
#[tactic(auto, unfolding(crate::specs::Replies::answer_line))]
pub fn write_answer(
    text: &mut Vec<u8>,
    status: Status,
    sense: &Option<Sense>,
    payload: &[u8],
) -> Result<(), AllocError>
    ensures { OnOk result (text.new.items ≡ text.old.items ++ answer_line status sense.now payload.now) }
{
    let [high, low] = digits_of(status.code());
    if sense.is_none() && payload.is_empty() {
        // Most answers have neither, and are added in one piece.
        return text.extend_from_slice(&[high, low, b' ', b'-', b' ', b'-', b'\n']);
    }
    text.extend_from_slice(&[high, low, b' '])?;
    write_sense(text, sense)?;
    text.push(b' ')?;
    write_data(text, payload)?;
    text.push(b'\n')?;
    Ok(())
}

fn write_sense(text: &mut Vec<u8>, sense: &Option<Sense>) -> Result<(), AllocError>
    ensures { OnOk result (text.new.items ≡ text.old.items ++ sense_text sense.now) }
{
    match sense {
        None => text.push(b'-')?,
        Some(sense) => write_hex(text, &sense.to_bytes())?,
    }
    Ok(())
}

fn write_data(text: &mut Vec<u8>, bytes: &[u8]) -> Result<(), AllocError>
    ensures { OnOk result (text.new.items ≡ text.old.items ++ hex_or_dash bytes.now) }
{
    if bytes.is_empty() {
        text.push(b'-')?;
    } else {
        write_hex(text, bytes)?;
    }
    Ok(())
}
