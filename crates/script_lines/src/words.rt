ghost use Rattle.std.specs.Prelude.{◌≡◌, Ok, Err, MatchResult};
ghost use Rattle.script_lines.specs.Words.{Gives, nexus_in, unit_in, hex_in};

use crate::digits::{decoded, read_pairs};
use crate::line::LineError;
use crate::sixteen::sixteen_digits;
use arrayvec::ArrayVec;
use script_input::LineFault;
use scsi_nexus::{Nexus, TARGET_PORTS};
use std::alloc::{AllocError, Global};
use target_core::MAX_CDB;

/// The nexus of a word `SAS.PORT`: 16 hexadecimal digits, a dot, a port.
#[tactic(auto, unfolding(crate::specs::Words::nexus_in))]
pub fn nexus_of(word: &[u8]) -> Result<Nexus, LineFault>
    ensures { result ≡ nexus_in word.now }
{
    if word.len() != 18 || word[16] != b'.' {
        return Err(LineFault::BadNexus);
    }
    let port = u16::from(word[17].wrapping_sub(b'0'));
    if port == 0 || port > TARGET_PORTS {
        return Err(LineFault::BadNexus);
    }
    let Some(sas) = sixteen_digits(&word[..16]) else {
        return Err(LineFault::BadNexus);
    };
    Ok(Nexus {
        sas: u64::from_be_bytes(sas),
        port,
    })
}

/// The number of a word of decimal digits, 0 to 255 with no leading zero.
#[tactic(auto, unfolding(crate::specs::Words::unit_in))]
pub fn unit_of(word: &[u8]) -> Result<u8, LineFault>
    ensures { result ≡ unit_in word.now }
{
    match word {
        [a @ b'0'..=b'9'] => Ok(*a - b'0'),
        [a @ b'1'..=b'9', b @ b'0'..=b'9'] => Ok((*a - b'0') * 10 + (*b - b'0')),
        [a @ b'1'..=b'9', b @ b'0'..=b'9', c @ b'0'..=b'9'] => {
            let unit = u16::from(*a - b'0') * 100 + u16::from((*b - b'0') * 10 + (*c - b'0'));
            if unit < 256 {
                Ok(unit as u8)
            } else {
                Err(LineFault::BadUnit)
            }
        }
        _ => Err(LineFault::BadUnit),
    }
}

/// The 1 to 16 bytes of a CDB in hexadecimal.
#[tactic(auto, using(crate::proofs::Pairs::refusals), unfolding(crate::specs::Words::hex_in))]
pub fn cdb_of(word: &[u8]) -> Result<ArrayVec<u8, MAX_CDB>, LineFault>
    ensures { MatchResult result (λ cdb. hex_in 16 word.now ≡ Ok cdb.items) (λ fault. hex_in 16 word.now ≡ Err fault) }
{
    let count = word.len() / 2;
    if count == 0 || count > MAX_CDB || word.len() % 2 != 0 {
        return Err(LineFault::BadHex);
    }
    let mut bytes = [0; MAX_CDB];
    if !read_pairs(word, &mut bytes[..count]) {
        return Err(LineFault::BadHex);
    }
    let mut cdb = ArrayVec::from(bytes);
    cdb.truncate(count);
    Ok(cdb)
}

/// The 1 to `limit` bytes of a word in hexadecimal.
#[tactic(auto, using(crate::proofs::Pairs::refusals), unfolding(crate::specs::Words::hex_in))]
pub fn bytes_of(alloc: Global, word: &[u8], limit: usize) -> Result<Vec<u8>, LineError>
    ensures { Gives (λ bytes. bytes.items) result (hex_in limit word.now) }
{
    let count = word.len() / 2;
    if count == 0 || count > limit {
        return Err(LineError::Fault(LineFault::BadHex));
    }
    if word.len() % 2 != 0 {
        return Err(LineError::Fault(LineFault::BadHex));
    }
    match decoded(alloc, word) {
        Ok(Some(bytes)) => Ok(bytes),
        Ok(None) => Err(LineError::Fault(LineFault::BadHex)),
        Err(AllocError) => Err(LineError::NoMemory),
    }
}
