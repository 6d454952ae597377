ghost use Rattle.std.specs.Prelude.{◌≡◌, ◌==◌, ◌∷◌, ◌<◌, length, IfSome, []};
ghost use Rattle.std.specs.List.{position};
ghost use Rattle.script_lines.specs.Text.{pieces, pieces_after, IsNotEmpty};
ghost use Rattle.std.specs.Bool.{MatchBool};

use memchr::memchr;

/// The bytes before the first such byte, and those after it where there is one.
pub fn cut(bytes: &[u8], at: u8) -> (&[u8], Option<&[u8]>)
    ensures parts { pieces at bytes.now ≡ result.0.now ∷ pieces_after at result.1 }
    ensures shorter { IfSome result.1 (λ rest. length rest.now < length bytes.now) }
{
    match place_of(bytes, at) {
        None => (bytes, None),
        Some(place) => (&bytes[..place], Some(&bytes[place + 1..])),
    }
}

/// Where the first such byte stands.
#[tactic(auto, using(crate::proofs::Places::first_is_position))]
fn place_of(bytes: &[u8], at: u8) -> Option<usize>
    ensures { result ≡ position (λ b. b == at) bytes.now }
{
    memchr(at, bytes)
}

/// Whether no word is left: what is empty is a word.
pub fn is_end(words: Option<&[u8]>) -> bool
    ensures { MatchBool result (pieces_after 32 words.entry ≡ []) (IsNotEmpty (pieces_after 32 words.entry)) }
{
    words.is_none()
}
