//! 64 hexadecimal digits to bytes, all of them at a time, by a vector.

ghost use Rattle.std.specs.Prelude.{◌≡◌, ◌<◌, ◌+◌, ◌*◌, ℕ, length, map, slice_index, true};
ghost use Rattle.std.specs.List.{list_all};
ghost use Rattle.hex.specs.Hex.{decode_of, is_hex_digit};
ghost use Rattle.script_lines.specs.Words.{digit_value, hex_bytes, is_small};

use std::simd::prelude::*;

/// How many digits are read at a time.
pub const BLOCK: usize = 64;

/// All bits but the one that tells a small letter of ASCII from a capital one.
const CAPITAL: u8 = 0xDF;

/// The bytes of a block of hexadecimal digits, in either case, if all are digits.
#[inline(always)]
pub fn bytes_of_block(block: &[u8]) -> Option<[u8; 32]>
    requires { length block.now ≡ 64 }
    ensures { result ≡ hex_bytes (decode_of block.now) }
{
    let values = values_of(u8x64::from_slice(block));
    if are_small(values) {
        Some(bytes_of(values))
    } else {
        None
    }
}

/// The values of hexadecimal digits, in either case, and 16 or more for each other character.
#[inline(always)]
fn values_of(lanes: u8x64) -> u8x64
    ensures values { list_all is_hex_digit lanes ≡ true → result ≡ map digit_value lanes }
    ensures others { list_all is_small result ≡ list_all is_hex_digit lanes }
{
    // F6h to FFh for the digits 0 to 9. All others are less: with 6 and then F0h taken off they are 16 or more.
    let moved = lanes + u8x64::splat(0xFF - b'9');
    let numbers = moved.saturating_sub(u8x64::splat(6)) - u8x64::splat(0xF0);
    let letters = ((lanes - u8x64::splat(b'A')) & u8x64::splat(CAPITAL)) + u8x64::splat(10);
    // The lesser is below 16 for hexadecimal digits alone.
    numbers.simd_lt(letters).select(numbers, letters)
}

/// Whether all have four bits.
#[inline(always)]
fn are_small(values: u8x64) -> bool
    ensures { result ≡ list_all is_small values }
{
    // A bit above the fourth stays set in both steps, and a test of 16 lanes is a third of one of 64.
    let halves = values.extract::<0, 32>() | values.extract::<32, 32>();
    let quarters = halves.extract::<0, 16>() | halves.extract::<16, 16>();
    quarters.simd_lt(u8x16::splat(16)).all()
}

/// The bytes of pairs of values.
#[inline(always)]
fn bytes_of(values: u8x64) -> [u8; 32]
    requires { (k : ℕ) → slice_index values k < 16 }
    ensures { (k : ℕ) → k < 32 → slice_index result k ≡ slice_index values (2 * k) * 16 + slice_index values (2 * k + 1) }
{
    // The first value of a pair is its low half. 1001h times the pair has the byte in the high half.
    let pairs = u16x32::from_le_bytes(values) * u16x32::splat(0x1001);
    let bytes: u8x32 = pairs.to_le_bytes().swizzle([
        1, 3, 5, 7, 9, 11, 13, 15, 17, 19, 21, 23, 25, 27, 29, 31, 33, 35, 37, 39, 41, 43, 45, 47,
        49, 51, 53, 55, 57, 59, 61, 63,
    ]);
    bytes.to_array()
}
