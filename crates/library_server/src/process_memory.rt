//! How much memory the program has.

ghost use Rattle.std.specs.Prelude.{◌≡◌, ◌<◌, IfSome};
ghost use Rattle.library_server.specs.Memory.{digit_in, number_of_bytes, resident_in, with_byte, with_digit};

use std::fs::{self, Files};
use std::io::Read;

/// Where the system says that, in pages: the size of the address space, then how much is resident, and more (proc_pid_statm(5)).
const PATH: &str = "/proc/self/statm";

/// How many bytes a page has.
const PAGE: u64 = 4096;

/// Fewer pages are resident.
const TOO_MANY: u64 = 1_099_511_627_776;

/// How many bytes of memory are resident. None where that can't be read.
pub(crate) fn resident_memory<R: Files>(files: &R) -> Option<u64> {
    // The first two numbers have fewer bytes.
    let mut buffer = [0u8; 64];
    let mut file = fs::open(files, PATH).ok()?;
    let count = file.read(&mut buffer).ok()?;
    resident_in(buffer.get(..count)?)
}

/// How far the second number is read.
#[derive(Clone, Copy)]
pub(crate) enum SecondNumber {
    /// The first one hasn't ended.
    Awaited,
    /// It is this so far.
    Begun(u64),
    /// It is this.
    Ended(u64),
    /// There is something else, or it is too large.
    Bad,
}

/// How many bytes are resident by the system's line.
fn resident_in(line: &[u8]) -> Option<u64>
    ensures { result ≡ resident_in line.now }
{
    let number = line.iter().fold(
        SecondNumber::Awaited,
        |number, byte| with_byte(number, *byte),
    );
    number_of_bytes(number)
}

fn number_of_bytes(number: SecondNumber) -> Option<u64>
    ensures { result ≡ number_of_bytes number }
{
    match number {
        SecondNumber::Ended(pages) => pages.checked_mul(PAGE),
        SecondNumber::Awaited | SecondNumber::Begun(_) | SecondNumber::Bad => None,
    }
}

/// The same with one more byte.
fn with_byte(number: SecondNumber, byte: u8) -> SecondNumber
    ensures { result ≡ with_byte number byte }
{
    match number {
        SecondNumber::Awaited if byte == b' ' => SecondNumber::Begun(0),
        SecondNumber::Begun(pages) if byte == b' ' => SecondNumber::Ended(pages),
        SecondNumber::Begun(pages) => with_digit(pages, byte),
        SecondNumber::Awaited | SecondNumber::Ended(_) | SecondNumber::Bad => number,
    }
}

/// The same where it is this so far.
fn with_digit(pages: u64, byte: u8) -> SecondNumber
    ensures { result ≡ with_digit pages byte }
{
    match digit_in(byte) {
        Some(digit) if pages < TOO_MANY => SecondNumber::Begun(pages * 10 + digit),
        Some(_) | None => SecondNumber::Bad,
    }
}

fn digit_in(byte: u8) -> Option<u64>
    ensures value { result ≡ digit_in byte }
    ensures most { IfSome result (λ value. value < 10) }
{
    match byte {
        b'0'..=b'9' => Some(u64::from(byte - b'0')),
        _ => None,
    }
}
