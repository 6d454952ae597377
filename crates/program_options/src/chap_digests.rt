ghost use Rattle.std.specs.Prelude.{◌≡◌};
ghost use Rattle.program_options.specs.ChapDigests.{digests_in};

use crate::option_fault::OptionFault;

/// The digests by which a host may answer a challenge of CHAP.
#[derive(Clone, Copy, Debug, PartialEq, Eq)]
pub enum ChapDigests {
    Sha256,
    Sha256AndMd5,
}

/// The digests of a list of names, in any order. SHA-256 is always among them (profile).
pub fn chap_digests_of(text: &str) -> Result<ChapDigests, OptionFault>
    ensures { result ≡ digests_in text.now }
{
    match text {
        "sha256" => Ok(ChapDigests::Sha256),
        "sha256,md5" | "md5,sha256" => Ok(ChapDigests::Sha256AndMd5),
        _ => Err(OptionFault::BadDigests),
    }
}
