//! Hexadecimal digits to bytes: those of data two blocks at a time, the few of a CDB one by one.

ghost use Rattle.std.specs.Prelude.{◌≡◌, ◌+◌, ◌*◌, ◌%◌, ◌<◌, ◌≤◌, ◌++◌, ℕ, Ok, None, drop, length, IfOk, IfSome};
ghost use Rattle.std.specs.Bool.{MatchBool};
ghost use Rattle.std.specs.Global.{Vec};
ghost use Rattle.std.specs.Option.{option_map};
ghost use Rattle.hex.specs.Hex.{decode_of, hex_digit_value};
ghost use Rattle.script_lines.specs.Words.{behind, hex_bytes};

use crate::blocks::{BLOCK, bytes_of_block};
use std::alloc::{AllocError, Global};

/// How many digits of data are read for each time that their bytes are added.
const BLOCKS: usize = 2 * BLOCK;

/// The bytes of pairs of hexadecimal digits, in either case, if all are digits.
pub fn decoded(alloc: Global, word: &[u8]) -> Result<Option<Vec<u8>>, AllocError>
    requires { length word.now % 2 ≡ 0 }
    ensures { IfOk result (λ read. option_map (λ (bytes : Vec ℕ). bytes.items) read ≡ hex_bytes (decode_of word.now)) }
{
    let mut bytes = Vec::with_capacity(alloc, word.len() / 2)?;
    let mut rest = word;
    'pieces: while rest.len() >= BLOCKS {
        let (blocks, behind) = rest.split_at(BLOCKS);
        let Some(read) = bytes_of_blocks(blocks) else {
            return Ok(None);
        };
        bytes.extend_from_slice(&read)?;
        rest = behind;
    }
    add_last(bytes, rest)
}

/// The bytes of two blocks of hexadecimal digits, in either case, if all are digits.
#[inline(always)]
fn bytes_of_blocks(blocks: &[u8]) -> Option<[u8; BLOCK]>
    requires { length blocks.now ≡ 128 }
    ensures { result ≡ hex_bytes (decode_of blocks.now) }
{
    let (front, back) = blocks.split_at(BLOCK);
    let Some(first) = bytes_of_block(front) else {
        return None;
    };
    let Some(second) = bytes_of_block(back) else {
        return None;
    };
    let mut bytes = [0; BLOCK];
    bytes[..BLOCK / 2].copy_from_slice(&first);
    bytes[BLOCK / 2..].copy_from_slice(&second);
    Some(bytes)
}

/// The bytes with those of fewer digits than two blocks have behind them.
fn add_last(bytes: Vec<u8>, digits: &[u8]) -> Result<Option<Vec<u8>>, AllocError>
    requires even { length digits.now % 2 ≡ 0 }
    requires few { length digits.now < 128 }
    ensures { IfOk result (λ read. option_map (λ (all : Vec ℕ). all.items) read ≡ behind bytes.items (hex_bytes (decode_of digits.now))) }
{
    if digits.len() < BLOCK {
        return add_rest(bytes, digits);
    }
    let (block, rest) = digits.split_at(BLOCK);
    let Some(read) = bytes_of_block(block) else {
        return Ok(None);
    };
    let mut all = bytes;
    all.extend_from_slice(&read)?;
    add_rest(all, rest)
}

/// The bytes with those of fewer digits than a block has behind them, by a block that begins with these.
fn add_rest(bytes: Vec<u8>, digits: &[u8]) -> Result<Option<Vec<u8>>, AllocError>
    requires even { length digits.now % 2 ≡ 0 }
    requires few { length digits.now < 64 }
    ensures { IfOk result (λ read. option_map (λ (all : Vec ℕ). all.items) read ≡ behind bytes.items (hex_bytes (decode_of digits.now))) }
{
    let mut block = [b'0'; BLOCK];
    begin_with(&mut block, digits);
    let Some(read) = bytes_of_block(&block) else {
        return Ok(None);
    };
    let mut all = bytes;
    all.extend_from_slice(&read[..digits.len() / 2])?;
    Ok(Some(all))
}

/// Puts some digits over the first ones of a block.
fn begin_with(block: &mut [u8], digits: &[u8])
    requires { length digits.now ≤ length block.old }
    ensures { block.new ≡ digits.now ++ drop (length digits.now) block.old }
{
    block[..digits.len()].copy_from_slice(digits);
}

/// Reads pairs of hexadecimal digits, a pair for each byte of the room, and says whether all are digits.
pub fn read_pairs(word: &[u8], room: &mut [u8]) -> bool
    requires { length word.now ≡ 2 * length room.old }
    ensures { MatchBool result (decode_of word.now ≡ Ok room.new) (hex_bytes (decode_of word.now) ≡ None) }
{
    'pairs: for place in 0..room.len() {
        let Some(high) = read_digit(word[2 * place]) else {
            return false;
        };
        let Some(low) = read_digit(word[2 * place + 1]) else {
            return false;
        };
        room[place] = high * 16 + low;
    }
    true
}

/// The value of a hexadecimal digit, in either case, if it is one.
fn read_digit(digit: u8) -> Option<u8>
    ensures value { result ≡ hex_digit_value digit }
    ensures small { IfSome result (λ value. value < 16) }
{
    match digit {
        b'0'..=b'9' => Some(digit - b'0'),
        b'a'..=b'f' => Some(digit - b'a' + 10),
        b'A'..=b'F' => Some(digit - b'A' + 10),
        _ => None,
    }
}
