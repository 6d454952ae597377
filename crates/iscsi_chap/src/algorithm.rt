ghost use Rattle.std.specs.Prelude.{◌≡◌};
ghost use Rattle.iscsi_chap.specs.Algorithms.{algorithm_number, is_number, is_offered, takes_md5, chosen_algorithm};

use iscsi_keys::number_in;

/// The digest that answers a challenge.
#[derive(Clone, Copy)]
pub enum ChapAlgorithm {
    Sha256,
    Md5,
}

impl ChapAlgorithm {
    /// Its number (IANA, "PPP Authentication Algorithms").
    pub fn number(self) -> u32
        ensures { result ≡ algorithm_number self }
    {
        match self {
            ChapAlgorithm::Sha256 => 7,
            ChapAlgorithm::Md5 => 5,
        }
    }
}

/// The digests that the target takes.
#[derive(Clone, Copy)]
pub enum ChapDigests {
    Sha256,
    Sha256AndMd5,
}

impl ChapDigests {
    fn takes_md5(self) -> bool
        ensures { result ≡ takes_md5 self }
    {
        match self {
            ChapDigests::Sha256 => false,
            ChapDigests::Sha256AndMd5 => true,
        }
    }
}

/// Of the algorithms in a list of `CHAP_A` the one that the target takes: SHA-256 before MD5, and MD5 only where its digests are
/// taken (RFC 7143, "Challenge Handshake Authentication Protocol (CHAP)", "CHAP Considerations").
pub fn chosen_algorithm(digests: ChapDigests, list: &[u8]) -> Option<ChapAlgorithm>
    ensures { result ≡ chosen_algorithm digests list.now }
{
    if is_offered(list, 7) {
        Some(ChapAlgorithm::Sha256)
    } else if digests.takes_md5() && is_offered(list, 5) {
        Some(ChapAlgorithm::Md5)
    } else {
        None
    }
}

fn is_offered(list: &[u8], number: u32) -> bool
    ensures { result ≡ is_offered list.now number }
{
    list.split(|byte| *byte == b',')
        .any(|element| is_number(element, number))
}

fn is_number(element: &[u8], number: u32) -> bool
    ensures { result ≡ is_number element.now number }
{
    match number_in(element) {
        None => false,
        Some(own) => own == number,
    }
}
