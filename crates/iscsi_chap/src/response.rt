ghost use Rattle.std.specs.Prelude.{◌≡◌, IfOk};
ghost use Rattle.iscsi_chap.specs.Responses.{is_response};

use crate::algorithm::ChapAlgorithm;
use crate::binary::binary_in;
use crate::challenge::Challenge;
use crate::digest::chap_digest;
use crate::same::are_same;
use std::alloc::{AllocError, Global};

/// Whether the value is the digest that the secret makes of the challenge.
pub fn is_response(
    alloc: Global,
    algorithm: ChapAlgorithm,
    challenge: Challenge,
    secret: &[u8],
    value: &[u8],
) -> Result<bool, AllocError>
    ensures { IfOk result (λ same. same ≡ is_response algorithm challenge secret.now value.now) }
{
    let Some(bytes) = binary_in(alloc, value)? else {
        return Ok(false);
    };
    let digest = chap_digest(algorithm, challenge.identifier, secret, &challenge.bytes);
    Ok(are_same(bytes.as_slice(), digest.as_bytes()))
}
