//! Each line of an input, in words or refused.

use crate::explain_fault::ExplainFault;
use crate::input_lines::{NextLine, next_line};
use crate::line_fault::LineFault;
use crate::read_record::{answer_in, record_in};
use crate::words::write_words;
use serde_json::Value;
use std::alloc::Global;
use std::io::{BufRead, Write};
use std::str;

/// Writes to `out` what each line of an input says, and on `errors` which it refuses.
pub fn explain_lines<R: BufRead, W: Write, E: Write>(
    alloc: Global,
    reader: &mut R,
    out: &mut W,
    errors: &mut E,
) -> Result<(), ExplainFault> {
    let mut line = Vec::new(alloc);
    let mut refused: u64 = 0;
    for number in 1..u64::MAX {
        let next = next_line(reader, &mut line).map_err(|_| ExplainFault::Read)?;
        let words = match next {
            NextLine::End => break,
            NextLine::Whole => words_of(alloc, &line),
            NextLine::CutOff => Err(LineFault::CutOff),
            NextLine::TooLong => Err(LineFault::TooLong),
        };
        match words {
            Ok(words) => writeln!(out, "{words}").map_err(|_| ExplainFault::Write)?,
            Err(LineFault::NoMemory) => return Err(ExplainFault::NoMemory),
            Err(fault) => {
                refused = refused.saturating_add(1);
                // Where the line can't be written, the count at the end tells.
                let _ = writeln!(errors, "vtl: line {number}: {fault}");
            }
        }
    }
    end_of(out, refused)
}

/// How it ends once each line was read, so many of which were refused.
fn end_of<W: Write>(out: &mut W, refused: u64) -> Result<(), ExplainFault> {
    out.flush().map_err(|_| ExplainFault::Write)?;
    if refused == 0 {
        Ok(())
    } else {
        Err(ExplainFault::Refused(refused))
    }
}

/// What a line says, in words.
fn words_of(alloc: Global, line: &[u8]) -> Result<String, LineFault> {
    let Ok(text) = str::from_utf8(line) else {
        return Err(LineFault::NoObject);
    };
    let object = match Value::from_str(alloc, text) {
        Ok(value) => value,
        Err(fault) if fault.is_memory() => return Err(LineFault::NoMemory),
        Err(_) => return Err(LineFault::NoObject),
    };
    if !object.is_object() {
        return Err(LineFault::NoObject);
    }
    let entry = record_in(&object)?;
    let answer = answer_in(alloc, &object)?;
    let mut words = String::new(alloc);
    write_words(alloc, &mut words, &entry, &answer)?;
    Ok(words)
}
