//! What codes of sense data stand for.
ghost use Rattle.std.specs.Prelude.{◌≡◌};
ghost use Rattle.explanations.specs.Senses.{condition_with, key_with};

use scsi_sense::{Condition, Sense, SenseKey};

/// The sense key that has a code, if one has.
#[tactic(auto, using(crate::proofs::CodeLemmas::key_is))]
pub fn key_with(code: u8) -> Option<SenseKey>
    ensures { result ≡ key_with code }
{
    SenseKey::of(code)
}

/// The condition of sense data, if its codes are those of one.
#[tactic(auto, using(crate::proofs::CodeLemmas::condition_is))]
pub fn condition_of(sense: &Sense) -> Option<Condition>
    ensures { result ≡ condition_with sense.now.key sense.now.asc sense.now.ascq }
{
    sense.condition()
}
