//! Lines of records in words.

use record_words::{ExplainFault, explain_lines};
use std::fs::{self, Files};
use std::io::{self, BufReader, Write};

/// Prints what the lines of a file say, or those of standard input, and writes on `errors` which are refused.
pub(crate) fn explain<R: AllocGlobal + Files + Input + Print, E: Write>(
    rt: &R,
    file: Option<String>,
    errors: &mut E,
) -> Result<(), ExplainFault> {
    let alloc = rt.alloc();
    let mut out = io::writer(rt);
    match file {
        Some(path) => {
            let Ok(opened) = fs::open(rt, path.as_str()) else {
                return Err(ExplainFault::CannotRead(path));
            };
            let mut reader = match BufReader::new(alloc, opened) {
                Ok(reader) => reader,
                Err(_) => return Err(ExplainFault::NoMemory),
            };
            explain_lines(alloc, &mut reader, &mut out, errors)
        }
        None => {
            let mut reader = match BufReader::new(alloc, rt.reader()) {
                Ok(reader) => reader,
                Err(_) => return Err(ExplainFault::NoMemory),
            };
            explain_lines(alloc, &mut reader, &mut out, errors)
        }
    }
}
