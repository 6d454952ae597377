ghost use Rattle.std.specs.Prelude.{◌≡◌, ◌++◌, OnOk};
ghost use Rattle.iscsi_keys.specs.Texts.{item_bytes};
ghost use Rattle.iscsi_chap.specs.Binaries.{hexadecimal};
ghost use Rattle.iscsi_login.specs.Chaps.{challenge_items, response_items};

use crate::answers::{write_number, write_pair};
use crate::chap_keys::{CHAP_A, CHAP_C, CHAP_I, CHAP_N, CHAP_R};
use iscsi_chap::{Challenge, ChapAlgorithm, Credentials, chap_digest, write_hexadecimal};
use std::alloc::AllocError;

/// Adds a challenge, and by which algorithm it is to be answered.
pub(crate) fn write_challenge(
    out: &mut Vec<u8>,
    algorithm: ChapAlgorithm,
    challenge: Challenge,
) -> Result<(), AllocError>
    ensures { OnOk result (out.new.items ≡ out.old.items ++ challenge_items algorithm challenge) }
{
    write_number(out, CHAP_A, algorithm.number())?;
    write_number(out, CHAP_I, u32::from(challenge.identifier))?;
    write_binary(out, CHAP_C, &challenge.bytes)
}

/// Adds what the target shows of itself.
pub(crate) fn write_response(
    out: &mut Vec<u8>,
    algorithm: ChapAlgorithm,
    target: &Credentials,
    identifier: u8,
    bytes: &[u8],
) -> Result<(), AllocError>
    ensures { OnOk result (out.new.items ≡ out.old.items ++ response_items algorithm target.now identifier bytes.now) }
{
    let digest = chap_digest(algorithm, identifier, target.secret.as_slice(), bytes);
    write_pair(out, CHAP_N, target.user.as_slice())?;
    write_binary(out, CHAP_R, digest.as_bytes())
}

/// Adds a key with a binary value.
fn write_binary(out: &mut Vec<u8>, key: &[u8], bytes: &[u8]) -> Result<(), AllocError>
    ensures { OnOk result (out.new.items ≡ out.old.items ++ item_bytes key.now (hexadecimal bytes.now)) }
{
    out.extend_from_slice(key)?;
    out.push(b'=')?;
    write_hexadecimal(out, bytes)?;
    out.push(0)?;
    Ok(())
}
