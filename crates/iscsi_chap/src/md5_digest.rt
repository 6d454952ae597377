ghost use Rattle.std.specs.Prelude.{◌≡◌};
ghost use Rattle.md5.specs.Md5.{md5};
ghost use Rattle.iscsi_chap.specs.Digests.{message};

use md5::{Digest, Md5};

/// The MD5 of an identifier, a secret and a challenge.
pub(crate) fn md5_digest(identifier: u8, secret: &[u8], challenge: &[u8]) -> [u8; 16]
    ensures { result ≡ md5 (message identifier secret.now challenge.now) }
{
    let mut hasher = Md5::new();
    hasher.update(&[identifier]);
    hasher.update(secret);
    hasher.update(challenge);
    hasher.finalize()
}
