//! Bytes in hexadecimal, with lower case letters. Many are written a block at a time, whose digits are found by vectors.

ghost use Rattle.std.specs.Prelude.{◌≡◌, ◌++◌, ◌∷◌, [], ◌*◌, ◌/◌, ◌%◌, ◌<◌, ◌≤◌, drop, length, map, slice_index, OnOk};
ghost use Rattle.explanations.specs.HexDigits.{first_digit, second_digit};
ghost use Rattle.hex.specs.Hex.{encode_lower, lower_digits};

use std::alloc::AllocError;
use std::simd::prelude::*;

/// How many bytes are written at a time.
const BLOCK: usize = 32;

/// How many bytes get the room for their digits at once, where there are many.
const RUN: usize = 256;

/// Each digit at its value, twice, for each half of a vector.
const DIGITS: [u8; BLOCK] = *b"0123456789abcdef0123456789abcdef";

/// Adds bytes in hexadecimal.
pub fn write_hex(text: &mut Vec<u8>, bytes: &[u8]) -> Result<(), AllocError>
    ensures { OnOk result (text.new.items ≡ text.old.items ++ encode_lower bytes.now) }
{
    if bytes.len() < RUN {
        write_few(text, bytes)
    } else {
        write_many(text, bytes)
    }
}

/// Adds many bytes, a run at a time. Apart, so that few bytes do not pay for it.
#[inline(never)]
fn write_many(text: &mut Vec<u8>, bytes: &[u8]) -> Result<(), AllocError>
    ensures { OnOk result (text.new.items ≡ text.old.items ++ encode_lower bytes.now) }
{
    let mut rest = bytes;
    'runs: while rest.len() >= RUN {
        let (run, behind) = rest.split_at(RUN);
        write_blocks(text, run)?;
        rest = behind;
    }
    write_few(text, rest)
}

/// Adds bytes a block at a time.
fn write_few(text: &mut Vec<u8>, bytes: &[u8]) -> Result<(), AllocError>
    ensures { OnOk result (text.new.items ≡ text.old.items ++ encode_lower bytes.now) }
{
    let mut rest = bytes;
    'pieces: while rest.len() >= BLOCK {
        let (block, behind) = rest.split_at(BLOCK);
        write_blocks(text, block)?;
        rest = behind;
    }
    write_rest(text, rest)
}

/// Adds whole blocks, in room that is made for all of them at once.
#[inline(always)]
fn write_blocks(text: &mut Vec<u8>, bytes: &[u8]) -> Result<(), AllocError>
    requires { (length bytes.now % 32 ≡ 0) × (length bytes.now ≤ 256) }
    ensures { OnOk result (text.new.items ≡ text.old.items ++ encode_lower bytes.now) }
{
    let start = text.len();
    text.resize(start + 2 * bytes.len(), 0)?;
    fill_with_digits(&mut text[start..], bytes);
    Ok(())
}

/// Puts the digits of whole blocks into room that has their length.
#[inline(always)]
fn fill_with_digits(room: &mut [u8], bytes: &[u8])
    requires { (length bytes.now % 32 ≡ 0) × (length room.old ≡ 2 * length bytes.now) }
    ensures { room.new ≡ encode_lower bytes.now }
{
    'places: for k in 0..bytes.len() / BLOCK {
        let start = k * BLOCK;
        let digits = digits_of_block(&bytes[start..start + BLOCK]);
        digits.copy_to_slice(&mut room[2 * start..]);
    }
}

/// Adds fewer bytes than a block has, by a block that begins with them.
fn write_rest(text: &mut Vec<u8>, bytes: &[u8]) -> Result<(), AllocError>
    requires { length bytes.now < 32 }
    ensures { OnOk result (text.new.items ≡ text.old.items ++ encode_lower bytes.now) }
{
    let mut block = [0; BLOCK];
    begin_with(&mut block, bytes);
    let digits = digits_of_block(&block).to_array();
    text.extend_from_slice(&digits[..2 * bytes.len()])?;
    Ok(())
}

/// Puts some bytes over the first ones of a block.
fn begin_with(block: &mut [u8], bytes: &[u8])
    requires { length bytes.now ≤ length block.old }
    ensures { block.new ≡ bytes.now ++ drop (length bytes.now) block.old }
{
    block[..bytes.len()].copy_from_slice(bytes);
}

/// The digits of a block.
#[inline(always)]
fn digits_of_block(block: &[u8]) -> u8x64
    requires { length block.now ≡ 32 }
    ensures { result ≡ encode_lower block.now }
{
    let bytes = u8x32::from_slice(block);
    first_digits(bytes).shuffle(
        second_digits(bytes),
        [
            0, 32, 1, 33, 2, 34, 3, 35, 4, 36, 5, 37, 6, 38, 7, 39, 8, 40, 9, 41, 10, 42, 11, 43,
            12, 44, 13, 45, 14, 46, 15, 47, 16, 48, 17, 49, 18, 50, 19, 51, 20, 52, 21, 53, 22, 54,
            23, 55, 24, 56, 25, 57, 26, 58, 27, 59, 28, 60, 29, 61, 30, 62, 31, 63,
        ],
    )
}

/// The first digit of each byte.
#[inline(always)]
fn first_digits(bytes: u8x32) -> u8x32
    ensures { result ≡ map first_digit bytes }
{
    u8x32::from_array(DIGITS).swizzle_dyn_within::<16>(bytes >> u8x32::splat(4))
}

/// The second digit of each byte.
#[inline(always)]
fn second_digits(bytes: u8x32) -> u8x32
    ensures { result ≡ map second_digit bytes }
{
    u8x32::from_array(DIGITS).swizzle_dyn_within::<16>(bytes & u8x32::splat(15))
}

/// The two digits of a byte.
#[tactic(auto, unfolding(hex::specs::Hex::encode_with))]
pub fn digits_of(byte: u8) -> [u8; 2]
    ensures { result ≡ encode_lower (byte ∷ []) }
{
    let pair = pair_of(byte);
    [(pair % 256) as u8, (pair / 256) as u8]
}

/// The two digits of a byte, the first of them in the low half.
fn pair_of(byte: u8) -> u16
    ensures first { result % 256 ≡ slice_index lower_digits (byte / 16) }
    ensures second { result / 256 ≡ slice_index lower_digits (byte % 16) }
{
    // The value of each digit in its half: the second stands above the byte, and the byte then moves down by a digit.
    let values = u16::from(byte).wrapping_mul(0x1001) / 16;
    // 1 in each half whose value is 10 or more.
    let letters = (values + 0x0606) / 16 & 0x0101;
    values + 0x3030 + letters * 39
}
