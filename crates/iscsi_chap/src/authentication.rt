use crate::algorithm::ChapDigests;
use crate::entry::ChapSecrets;
use crate::phase::ChapPhase;
use iscsi_keys::Word;

/// By what an initiator shows under CHAP who it is.
#[derive(Drop)]
pub struct ChapAccess {
    pub secrets: ChapSecrets,
    pub digests: ChapDigests,
}

/// What an initiator must show of itself before it is let in.
#[derive(Drop)]
pub enum Authentication {
    /// Its name alone: AuthMethod None.
    None,
    /// That it has a secret of its name: AuthMethod CHAP.
    Chap(ChapAccess),
}

impl Authentication {
    ghost use Rattle.std.specs.Prelude.{◌≡◌};
    ghost use Rattle.iscsi_chap.specs.Authentications.{is_free, proved_by, method_of};

    /// The authentication method that is asked for.
    pub fn method(&self) -> Word
        ensures { result ≡ method_of self.now }
    {
        match self {
            Authentication::None => Word::None,
            Authentication::Chap(_) => Word::Chap,
        }
    }

    /// Whether an initiator that has come so far has no more to show.
    pub fn is_free(&self, phase: ChapPhase) -> bool
        ensures { result ≡ is_free self.now phase }
    {
        match self {
            Authentication::None => true,
            Authentication::Chap(_) => phase.is_passed(),
        }
    }

    /// By which entry of the secrets an initiator that has come so far has shown who it is: its place among them. None where it has
    /// nothing to show.
    pub fn proved_by(&self, phase: ChapPhase) -> Option<usize>
        ensures { result ≡ proved_by self.now phase }
    {
        match self {
            Authentication::None => None,
            Authentication::Chap(_) => phase.passed_by(),
        }
    }
}
