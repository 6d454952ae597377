//! Fields of a CDB by their places, read and written. A single byte past the end reads as 0.
ghost use Rattle.std.specs.Prelude.{◌≡◌, ◌<◌, ◌≤◌, ◌+◌, ◌^◌, length, pos, neg_ℤ, ◌≤ℤ◌, ◌<ℤ◌};
ghost use Rattle.scsi_cdb.specs.Bits.{bit, bits, byte, two_bytes, three_bytes, four_bytes, signed_three_bytes};
ghost use Rattle.scsi_cdb.specs.Bytes.{at, from, padded};

use crate::layout::{
    CDB_LENGTH, FIRST_NEGATIVE_OF_24_BITS, NUMBERS_OF_24_BITS, PAGE_CODE_BITS, PAGE_CONTROL_BITS,
    PAGE_CONTROL_PLACE, SERVICE_ACTION, SERVICE_ACTION_BITS,
};
use byteorder::{BigEndian, ByteOrder};

pub fn byte_at(cdb: &[u8], place: usize) -> u8
    ensures { result ≡ byte cdb.now place }
{
    match cdb.get(place) {
        Some(byte) => *byte,
        None => 0,
    }
}

pub fn bit_at(cdb: &[u8], place: usize, number: u8) -> bool
    requires { number < 8 }
    ensures { result ≡ bit cdb.now place number }
{
    byte_at(cdb, place) >> number & 1 == 1
}

pub fn u16_at(cdb: &[u8], place: usize) -> u16
    requires { place + 2 ≤ length cdb.now }
    ensures { result ≡ two_bytes cdb.now place }
{
    BigEndian::read_u16(&cdb[place..])
}

pub fn u24_at(cdb: &[u8], place: usize) -> u32
    requires { place + 3 ≤ length cdb.now }
    ensures value { result ≡ three_bytes cdb.now place }
    ensures fits { result < 2 ^ 24 }
{
    BigEndian::read_u24(&cdb[place..])
}

/// A count of three bytes with its sign, as two's complement.
pub fn count_at(cdb: &[u8], place: usize) -> i32
    requires { place + 3 ≤ length cdb.now }
    ensures value { result ≡ signed_three_bytes cdb.now place }
    ensures low { neg_ℤ (pos (2 ^ 23)) ≤ℤ result }
    ensures high { result <ℤ pos (2 ^ 23) }
{
    let unsigned = u24_at(cdb, place) as i32;
    if unsigned < FIRST_NEGATIVE_OF_24_BITS {
        unsigned
    } else {
        unsigned - NUMBERS_OF_24_BITS
    }
}

pub fn u32_at(cdb: &[u8], place: usize) -> u32
    requires { place + 4 ≤ length cdb.now }
    ensures { result ≡ four_bytes cdb.now place }
{
    BigEndian::read_u32(&cdb[place..])
}

pub fn service_action_at(cdb: &[u8]) -> u8
    ensures { result ≡ bits cdb.now 1 4 0 }
{
    byte_at(cdb, SERVICE_ACTION) & SERVICE_ACTION_BITS
}

/// PC in the high two bits, and the page code below.
pub fn page_byte(page_control: u8, page_code: u8) -> u8
    ensures { result ≡ from 7 6 page_control + from 5 0 page_code }
{
    let control = page_control & PAGE_CONTROL_BITS;
    control << PAGE_CONTROL_PLACE | page_code & PAGE_CODE_BITS
}

/// A field of one bit.
pub fn flag(number: u8, is_set: bool) -> u8
    requires { number < 8 }
    ensures { result ≡ at number is_set }
{
    if is_set { 1 << number } else { 0 }
}

/// The bytes, then zeros.
pub fn zero_padded(bytes: &[u8]) -> [u8; CDB_LENGTH]
    requires { length bytes.now ≤ 16 }
    ensures { result ≡ padded bytes.now }
{
    let mut cdb = [0; CDB_LENGTH];
    cdb[..bytes.len()].copy_from_slice(bytes);
    cdb
}
