ghost use Rattle.std.specs.Prelude.{◌≡◌};
ghost use Rattle.sha2.specs.Sha256.{sha256};
ghost use Rattle.iscsi_chap.specs.Digests.{message};

use sha2::{Digest, Sha256};

/// The SHA-256 of an identifier, a secret and a challenge.
pub(crate) fn sha256_digest(identifier: u8, secret: &[u8], challenge: &[u8]) -> [u8; 32]
    ensures { result ≡ sha256 (message identifier secret.now challenge.now) }
{
    let mut hasher = Sha256::new();
    hasher.update(&[identifier]);
    hasher.update(secret);
    hasher.update(challenge);
    hasher.finalize()
}
