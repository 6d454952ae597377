ghost use Rattle.std.specs.Prelude.{◌≡◌};
ghost use Rattle.iscsi_chap.specs.Digests.{digest_bytes, chap_digest};

use crate::algorithm::ChapAlgorithm;
use crate::md5_digest::md5_digest;
use crate::sha256_digest::sha256_digest;

/// The answer to a challenge.
#[derive(Clone, Copy)]
pub enum ChapDigest {
    Sha256([u8; 32]),
    Md5([u8; 16]),
}

impl ChapDigest {
    pub fn as_bytes(&self) -> &[u8]
        ensures { result.now ≡ digest_bytes self.now }
    {
        match self {
            ChapDigest::Sha256(bytes) => bytes.as_slice(),
            ChapDigest::Md5(bytes) => bytes.as_slice(),
        }
    }
}

/// The answer to a challenge by who has the secret: the digest of the identifier, the secret and the challenge (RFC 1994,
/// "Challenge and Response").
pub fn chap_digest(
    algorithm: ChapAlgorithm,
    identifier: u8,
    secret: &[u8],
    challenge: &[u8],
) -> ChapDigest
    ensures { digest_bytes result ≡ chap_digest algorithm identifier secret.now challenge.now }
{
    match algorithm {
        ChapAlgorithm::Sha256 => ChapDigest::Sha256(sha256_digest(identifier, secret, challenge)),
        ChapAlgorithm::Md5 => ChapDigest::Md5(md5_digest(identifier, secret, challenge)),
    }
}
