//! The state of a library that is served, as its server sends it.

ghost use Rattle.std.specs.Prelude.{◌≡◌, ℕ, ◌+◌, ◌-◌, ◌<◌, ◌≤◌, ◌≢◌, length, slice_index};

use crate::status_fault::StatusFault;
use command_line::StatusOptions;
use std::io::{self, Read, Write};
use std::net::Net;
use std::os::unix::net::UnixStream;
use std::sync::Wait;
use std::thread;
use std::time::{Clock, Duration};

/// How many bytes the status of a library has at most.
const MOST_BYTES: u64 = 4_194_304;

/// How many seconds the server has for it.
const ANSWER_TIME: u64 = 10;

/// How many seconds pass before it is printed again.
const INTERVAL: u64 = 2;

/// What a terminal is sent before a picture that is printed again: its cursor goes to the first column of the first line, and all that it
/// shows is erased (ECMA-48, "CUP" and "ED").
const CLEAR: &[u8] = b"\x1b[H\x1b[2J";

/// Prints the state of a library, once, or again and again until that fails.
pub fn print_status<R: AllocGlobal + Clock + Net + Print + Wait>(
    rt: &R,
    options: StatusOptions,
) -> Result<(), StatusFault> {
    let StatusOptions {
        control,
        watch,
        json,
    } = options;
    if !watch {
        return print_once(rt, control.as_str(), json, b"");
    }
    let before: &[u8] = if json { b"" } else { CLEAR };
    'turns: for _turn in rt.forever() {
        print_once(rt, control.as_str(), json, before)?;
        thread::sleep(rt, Duration::from_secs(INTERVAL));
    }
    Ok(())
}

/// Prints it once, after some bytes.
fn print_once<R: AllocGlobal + Net + Print>(
    rt: &R,
    path: &str,
    json: bool,
    before: &[u8],
) -> Result<(), StatusFault> {
    let text = read_status(rt, path)?;
    let end = line_length(&text);
    let shown = if json { &text[..end] } else { &text[end..] };
    match write_both(&mut io::writer(rt), before, shown) {
        Ok(()) => Ok(()),
        Err(_) => Err(StatusFault::Output),
    }
}

fn write_both<W: Write>(out: &mut W, before: &[u8], after: &[u8]) -> io::Result<()> {
    out.write_all(before)?;
    out.write_all(after)
}

/// What the server at a path sends: a line of JSON, and the lines of a picture.
fn read_status<R: AllocGlobal + Net>(rt: &R, path: &str) -> Result<Vec<u8>, StatusFault> {
    let Ok(stream) = UnixStream::connect(rt, path) else {
        return Err(StatusFault::CannotConnect(String::from_str(rt.alloc(), path)?));
    };
    let mut text = Vec::new(rt.alloc());
    let is_read = match stream.set_read_timeout(Some(Duration::from_secs(ANSWER_TIME))) {
        Ok(()) => (&stream).take(MOST_BYTES).read_to_end(&mut text).is_ok(),
        Err(_) => false,
    };
    if is_read && is_whole(&text) {
        Ok(text)
    } else {
        Err(StatusFault::Cut(String::from_str(rt.alloc(), path)?))
    }
}

/// Whether it has whole lines, two at least.
fn is_whole(text: &[u8]) -> bool {
    line_length(text) < text.len() && text.last() == Some(&b'\n')
}

/// How many bytes the first line has, with its end; all, where there is no end.
fn line_length(text: &[u8]) -> usize
    ensures within { result ≤ length text.now }
    ensures before { (k : ℕ) → k + 1 < result → slice_index text.now k ≢ 10 }
    ensures ends { result < length text.now → slice_index text.now (result - 1) ≡ 10 }
{
    for (at, byte) in text.iter().enumerate() {
        if *byte == b'\n' {
            return at + 1;
        }
    }
    text.len()
}
