//! Fields of data by their places. A byte past the end reads as 0, since what a server sends may be cut anywhere.
ghost use Rattle.std.specs.Prelude.{◌≡◌, ◌<◌, ◌^◌, take, drop};
ghost use Rattle.scsi_cdb.specs.Bits.{bit, byte, two_bytes, three_bytes, four_bytes};

pub fn byte_at(bytes: &[u8], place: usize) -> u8
    ensures { result ≡ byte bytes.now place }
{
    match bytes.get(place) {
        Some(byte) => *byte,
        None => 0,
    }
}

pub fn bit_at(bytes: &[u8], place: usize, number: u8) -> bool
    requires { number < 8 }
    ensures { result ≡ bit bytes.now place number }
{
    byte_at(bytes, place) >> number & 1 == 1
}

pub fn u16_at(bytes: &[u8], place: usize) -> u16
    requires { place < 2 ^ 32 }
    ensures { result ≡ two_bytes bytes.now place }
{
    let high = u16::from(byte_at(bytes, place));
    let low = u16::from(byte_at(bytes, place + 1));
    high * 0x100 + low
}

pub fn u24_at(bytes: &[u8], place: usize) -> u32
    requires { place < 2 ^ 16 }
    ensures value { result ≡ three_bytes bytes.now place }
    ensures fits { result < 2 ^ 24 }
{
    let high = u32::from(byte_at(bytes, place));
    let low = u32::from(u16_at(bytes, place + 1));
    high * 0x1_0000 + low
}

pub fn u32_at(bytes: &[u8], place: usize) -> u32
    requires { place < 2 ^ 16 }
    ensures { result ≡ four_bytes bytes.now place }
{
    let high = u32::from(u16_at(bytes, place));
    let low = u32::from(u16_at(bytes, place + 2));
    high * 0x1_0000 + low
}

/// The bytes from a place on, as far as they are there.
pub fn behind(bytes: &[u8], place: usize) -> &[u8]
    ensures { result.now ≡ drop place bytes.now }
{
    &bytes[place.min(bytes.len())..]
}

/// The bytes from a place on, at most so many, as far as they are there.
pub fn part(bytes: &[u8], place: usize, size: usize) -> &[u8]
    ensures { result.now ≡ take size (drop place bytes.now) }
{
    let rest = behind(bytes, place);
    &rest[..size.min(rest.len())]
}
