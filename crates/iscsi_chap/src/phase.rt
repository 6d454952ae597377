use crate::algorithm::ChapAlgorithm;

/// How far an initiator has come in authenticating itself by CHAP.
#[derive(Clone, Copy)]
pub enum ChapPhase {
    /// It hasn't offered an algorithm.
    Unasked,
    /// It has the challenge, to be answered by the algorithm.
    Challenged(ChapAlgorithm),
    /// It has shown that it has the secret of the entry at this place of the secrets.
    Passed(usize),
}

impl ChapPhase {
    ghost use Rattle.std.specs.Prelude.{◌≡◌};
    ghost use Rattle.iscsi_chap.specs.Authentications.{is_passed, passed_by};

    pub fn is_passed(self) -> bool
        ensures { result ≡ is_passed self }
    {
        matches!(self, ChapPhase::Passed(_))
    }

    /// The place of the entry by which it has passed.
    pub fn passed_by(self) -> Option<usize>
        ensures { result ≡ passed_by self }
    {
        match self {
            ChapPhase::Unasked | ChapPhase::Challenged(_) => None,
            ChapPhase::Passed(place) => Some(place),
        }
    }
}
