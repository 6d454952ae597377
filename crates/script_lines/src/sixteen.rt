//! 16 hexadecimal digits to bytes, all of them at a time, by a vector.

ghost use Rattle.std.specs.Prelude.{◌≡◌, ◌<◌, ◌+◌, ◌*◌, ℕ, length, map, slice_index, true};
ghost use Rattle.std.specs.List.{list_all};
ghost use Rattle.hex.specs.Hex.{decode_of, is_hex_digit};
ghost use Rattle.script_lines.specs.Words.{digit_value, hex_bytes};

use std::simd::prelude::*;

/// What makes a capital letter of ASCII small, and leaves a small one as it is.
const SMALL: u8 = 0x20;

/// The bytes of 16 hexadecimal digits, in either case, if all are digits.
pub fn sixteen_digits(word: &[u8]) -> Option<[u8; 8]>
    requires { length word.now ≡ 16 }
    ensures { result ≡ hex_bytes (decode_of word.now) }
{
    let digits = u8x16::from_slice(word);
    if are_digits(digits) {
        Some(bytes_of(values_of(digits)))
    } else {
        None
    }
}

/// Whether all are hexadecimal digits, in either case.
#[inline(always)]
fn are_digits(lanes: u8x16) -> bool
    ensures { result ≡ list_all is_hex_digit lanes }
{
    let numbers = lanes - u8x16::splat(b'0');
    let letters = (lanes | u8x16::splat(SMALL)) - u8x16::splat(b'a');
    (numbers.simd_lt(u8x16::splat(10)) | letters.simd_lt(u8x16::splat(6))).all()
}

/// The values of hexadecimal digits.
#[inline(always)]
fn values_of(digits: u8x16) -> u8x16
    requires { list_all is_hex_digit digits ≡ true }
    ensures { result ≡ map digit_value digits }
{
    let numbers = digits - u8x16::splat(b'0');
    let letters = (digits | u8x16::splat(SMALL)) - u8x16::splat(b'a' - 10);
    numbers.simd_lt(u8x16::splat(10)).select(numbers, letters)
}

/// The bytes of pairs of values.
#[inline(always)]
fn bytes_of(values: u8x16) -> [u8; 8]
    requires { (k : ℕ) → slice_index values k < 16 }
    ensures { (k : ℕ) → k < 8 → slice_index result k ≡ slice_index values (2 * k) * 16 + slice_index values (2 * k + 1) }
{
    let high: u8x8 = values.swizzle([0, 2, 4, 6, 8, 10, 12, 14]);
    let low: u8x8 = values.swizzle([1, 3, 5, 7, 9, 11, 13, 15]);
    (high * u8x8::splat(16) + low).to_array()
}
