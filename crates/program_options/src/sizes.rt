ghost use Rattle.std.specs.Prelude.{◌≡◌, ◌<◌, ◌≤◌, fold, Some, IfOk, IfSome};
ghost use Rattle.program_options.specs.Sizes.{digit_in, memory_size_in, number_in, size_in, unit_of, volume_size_in, with_digit};

use crate::library_options::LibraryOptions;
use crate::option_fault::OptionFault;

/// The least memory that all volumes may take together.
const LEAST_MEMORY: u64 = 1_048_576;

/// The most: what as many volumes as a library has take, each as large as can be.
const MOST_MEMORY: u64 = 70_368_744_177_664;

/// How many bytes of blocks a volume takes, by its text: a decimal number of bytes, or of KiB, MiB or GiB where it ends with `K`, `M` or
/// `G` of either case; from 1 MiB to 64 GiB (profile).
pub fn volume_size_of(text: &str) -> Result<u64, OptionFault>
    ensures value { result ≡ volume_size_in text.now }
    ensures range { IfOk result (λ size. (1048576 ≤ size) × (size ≤ 68719476736)) }
{
    let least = LibraryOptions::MIN.volume_size;
    let most = LibraryOptions::MAX.volume_size;
    match size_in(text.as_bytes()) {
        Some(size) if least <= size && size <= most => Ok(size),
        _ => Err(OptionFault::BadVolumeSize),
    }
}

/// How many bytes of memory all volumes may take together, by its text, as of a volume; from 1 MiB to 64 TiB (profile).
pub fn memory_size_of(text: &str) -> Result<u64, OptionFault>
    ensures { result ≡ memory_size_in text.now }
{
    match size_in(text.as_bytes()) {
        Some(size) if LEAST_MEMORY <= size && size <= MOST_MEMORY => Ok(size),
        _ => Err(OptionFault::BadMemorySize),
    }
}

/// The number of bytes that a text gives, where it has 64 bits.
fn size_in(text: &[u8]) -> Option<u64>
    ensures { result ≡ size_in text.now }
{
    if text.is_empty() {
        return None;
    }
    let end = text.len() - 1;
    match unit_of(text[end]) {
        Some(unit) => number_in(&text[..end])?.checked_mul(unit),
        None => number_in(text),
    }
}

/// How many bytes the letter after a number means.
fn unit_of(letter: u8) -> Option<u64>
    ensures { result ≡ unit_of letter }
{
    match letter {
        b'K' | b'k' => Some(1024),
        b'M' | b'm' => Some(1_048_576),
        b'G' | b'g' => Some(1_073_741_824),
        _ => None,
    }
}

/// The number of decimal digits, of which the first isn't 0, where it has 64 bits.
pub(crate) fn number_in(digits: &[u8]) -> Option<u64>
    ensures { result ≡ number_in digits.now }
{
    if digits.is_empty() || digits[0] == b'0' {
        return None;
    }
    digits
        .iter()
        .fold(Some(0), |number, digit| with_digit(number, *digit))
}

/// The number with one more digit, where there is one still.
fn with_digit(number: Option<u64>, digit: u8) -> Option<u64>
    ensures { result ≡ with_digit number digit }
{
    let number = number?;
    let digit = digit_in(digit)?;
    number.checked_mul(10)?.checked_add(digit)
}

fn digit_in(digit: u8) -> Option<u64>
    ensures value { result ≡ digit_in digit }
    ensures most { IfSome result (λ value. value < 10) }
{
    match digit {
        b'0'..=b'9' => Some(u64::from(digit - b'0')),
        _ => None,
    }
}
