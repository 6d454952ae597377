//! Fields of a basic header segment by their places, read and written.
ghost use Rattle.std.specs.Prelude.{◌≡◌, ◌≤◌, ◌<◌, ◌+◌, ◌%◌, ◌^◌, length, take, drop};
ghost use Rattle.iscsi_pdu.specs.Fields.{bit, bits, two, three, four, six, eight, serial, at, session_identifier};

use crate::layout::*;
use crate::serial_number::SerialNumber;
use byteorder::{BigEndian, ByteOrder};

pub(crate) fn bit_at(header: &[u8], place: usize, number: u8) -> bool
    requires within { place < length header.now }
    requires number { number < 8 }
    ensures { result ≡ bit header.now place number }
{
    header[place] >> number & 1 == 1
}

/// The opcode, the low six bits of byte 0.
pub(crate) fn opcode_at(header: &[u8]) -> u8
    requires { length header.now ≡ 48 }
    ensures { result ≡ bits header.now 0 5 0 }
{
    header[OPCODE] & OPCODE_BITS
}

/// The six bits of an opcode.
pub(crate) fn opcode_bits(opcode: u8) -> u8
    ensures value { result ≡ opcode % 2 ^ 6 }
    ensures most { result < 64 }
{
    opcode & OPCODE_BITS
}

/// The low seven bits of byte 1.
pub(crate) fn seven_bits_at(header: &[u8]) -> u8
    requires { length header.now ≡ 48 }
    ensures { result ≡ bits header.now 1 6 0 }
{
    header[FLAGS] & SEVEN_BITS
}

/// The low four bits of byte 1.
pub(crate) fn four_bits_at(header: &[u8]) -> u8
    requires { length header.now ≡ 48 }
    ensures { result ≡ bits header.now 1 3 0 }
{
    header[FLAGS] & FOUR_BITS
}

/// The low three bits of byte 1.
pub(crate) fn three_bits_at(header: &[u8]) -> u8
    requires { length header.now ≡ 48 }
    ensures { result ≡ bits header.now 1 2 0 }
{
    header[FLAGS] & THREE_BITS
}

/// CSG, bits 3 and 2 of byte 1.
pub(crate) fn current_stage_at(header: &[u8]) -> u8
    requires { length header.now ≡ 48 }
    ensures { result ≡ bits header.now 1 3 2 }
{
    header[FLAGS] >> CURRENT_STAGE_PLACE & TWO_BITS
}

/// NSG, the low two bits of byte 1.
pub(crate) fn next_stage_at(header: &[u8]) -> u8
    requires { length header.now ≡ 48 }
    ensures { result ≡ bits header.now 1 1 0 }
{
    header[FLAGS] & TWO_BITS
}

pub(crate) fn u16_at(header: &[u8], place: usize) -> u16
    requires { place + 2 ≤ length header.now }
    ensures { result ≡ two header.now place }
{
    BigEndian::read_u16(&header[place..])
}

pub(crate) fn u24_at(header: &[u8], place: usize) -> u32
    requires { place + 3 ≤ length header.now }
    ensures value { result ≡ three header.now place }
    ensures fits { result < 2 ^ 24 }
{
    BigEndian::read_u24(&header[place..])
}

pub(crate) fn u32_at(header: &[u8], place: usize) -> u32
    requires { place + 4 ≤ length header.now }
    ensures { result ≡ four header.now place }
{
    BigEndian::read_u32(&header[place..])
}

pub(crate) fn u48_at(header: &[u8], place: usize) -> u64
    requires { place + 6 ≤ length header.now }
    ensures { result ≡ six header.now place }
{
    BigEndian::read_u48(&header[place..])
}

pub(crate) fn u64_at(header: &[u8], place: usize) -> u64
    requires { place + 8 ≤ length header.now }
    ensures { result ≡ eight header.now place }
{
    BigEndian::read_u64(&header[place..])
}

pub(crate) fn serial_at(header: &[u8], place: usize) -> SerialNumber
    requires { place + 4 ≤ length header.now }
    ensures { result ≡ serial header.now place }
{
    SerialNumber {
        number: u32_at(header, place),
    }
}

pub(crate) fn cdb_at(header: &[u8]) -> [u8; CDB_LENGTH]
    requires { length header.now ≡ 48 }
    ensures { result ≡ take 16 (drop 32 header.now) }
{
    let mut cdb = [0; CDB_LENGTH];
    cdb.copy_from_slice(&header[CDB..BASIC_HEADER_SEGMENT]);
    cdb
}

/// A field of one bit.
pub(crate) fn flag(number: u8, is_set: bool) -> u8
    requires { number < 8 }
    ensures { result ≡ at number is_set }
{
    if is_set { 1 << number } else { 0 }
}

/// ISID, six bytes, and TSIH, two.
pub(crate) fn session_identifier(isid: u64, tsih: u16) -> [u8; 8]
    ensures { result ≡ session_identifier isid tsih }
{
    let [_, _, a, b, c, d, e, f] = isid.to_be_bytes();
    let [g, h] = tsih.to_be_bytes();
    [a, b, c, d, e, f, g, h]
}
