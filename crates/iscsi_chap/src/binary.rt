ghost use Rattle.std.specs.Prelude.{◌≡◌, ◌++◌, OnOk, IfOk, length};
ghost use Rattle.std.specs.Option.{option_map};
ghost use Rattle.iscsi_chap.specs.Binaries.{hexadecimal_bytes, base64_bytes, binary_value, hexadecimal};

use base64::DecodeAllocError;
use base64::engine::general_purpose::STANDARD;
use hex::FromHexError;
use std::alloc::{AllocError, Global};

/// The most bytes of a binary value (RFC 7143, "Challenge Handshake Authentication Protocol (CHAP)").
pub const LONGEST_BINARY: usize = 1024;

/// The bytes of a binary value: in hexadecimal behind `0x` or `0X`, in base64 behind `0b` or `0B` (RFC 7143, "Text Format").
pub fn binary_in(alloc: Global, value: &[u8]) -> Result<Option<Vec<u8>>, AllocError>
    ensures { IfOk result (λ found. option_map (λ bytes. bytes.items) found ≡ binary_value value.now) }
{
    if value.len() < 2 || value[0] != b'0' {
        return Ok(None);
    }
    let digits = &value[2..];
    match value[1] {
        b'x' | b'X' => hexadecimal_in(alloc, digits),
        b'b' | b'B' => base64_in(alloc, digits),
        _ => Ok(None),
    }
}

#[tactic(auto, unfolding(crate::specs::Binaries::hexadecimal_bytes))]
fn hexadecimal_in(alloc: Global, digits: &[u8]) -> Result<Option<Vec<u8>>, AllocError>
    ensures { IfOk result (λ found. option_map (λ bytes. bytes.items) found ≡ hexadecimal_bytes digits.now) }
{
    match hex::decode(alloc, digits) {
        Ok(bytes) => Ok(Some(bytes)),
        Err(FromHexError::OutOfMemory) => Err(AllocError),
        Err(_) => Ok(None),
    }
}

#[tactic(auto, unfolding(crate::specs::Binaries::base64_bytes))]
fn base64_in(alloc: Global, digits: &[u8]) -> Result<Option<Vec<u8>>, AllocError>
    ensures { IfOk result (λ found. option_map (λ bytes. bytes.items) found ≡ base64_bytes digits.now) }
{
    match STANDARD.decode(alloc, digits) {
        Ok(bytes) => Ok(Some(bytes)),
        Err(DecodeAllocError::OutOfMemory) => Err(AllocError),
        Err(DecodeAllocError::DecodeError(_)) => Ok(None),
    }
}

/// Adds a binary value in hexadecimal.
pub fn write_hexadecimal(out: &mut Vec<u8>, bytes: &[u8]) -> Result<(), AllocError>
    ensures { OnOk result (out.new.items ≡ out.old.items ++ hexadecimal bytes.now) }
{
    let text = hex::encode(*out.allocator(), bytes)?;
    out.extend_from_slice(b"0x")?;
    out.extend_from_slice(text.as_bytes())
}
