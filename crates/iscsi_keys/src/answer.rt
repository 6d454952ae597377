ghost use Rattle.std.specs.Prelude.{◌≡◌};
ghost use Rattle.iscsi_keys.specs.Answers.{answer_to, kind_for, answer_of_kind, list_answer, number_within};

use crate::key::Key;
use crate::kind::{KeyKind, Range};
use crate::number::number_in;
use crate::parameters::most_first_burst;
use crate::value::{boolean_in, has_word};
use crate::word::Word;
use scsi_cdb::Profile;

/// How a key is answered (RFC 7143, "Text Mode Negotiation").
#[derive(Clone, Copy)]
pub enum KeyAnswer {
    /// Not at all: the initiator has declared it.
    Nothing,
    Number(u32),
    Boolean(bool),
    Word(Word),
    /// The value is out of its range or form, or none of the list's is taken.
    Reject,
    NotUnderstood,
    /// The session has no use for it.
    Irrelevant,
}

/// What the target goes by in a login.
#[derive(Clone, Copy)]
pub struct Terms {
    /// A discovery session has no use for the keys of data transfer.
    pub discovery: bool,
    /// The authentication method that is asked for: `None` or `Chap`.
    pub method: Word,
    /// The profile of the library behind the target.
    pub profile: Profile,
}

/// The answer to a key that was offered with a value, where bursts have so many bytes at most.
pub fn answer_to(terms: Terms, max_burst_length: u32, key: Key, value: &[u8]) -> KeyAnswer
    ensures { result ≡ answer_to terms max_burst_length key value.now }
{
    if terms.discovery && key.is_of_data_transfer() {
        return KeyAnswer::Irrelevant;
    }
    answer_of_kind(
        terms.method,
        kind_for(terms.profile, max_burst_length, key),
        value,
    )
}

/// The key's kind where bursts have so many bytes at most, which a first burst doesn't exceed, in a library of a profile.
fn kind_for(profile: Profile, max_burst_length: u32, key: Key) -> KeyKind
    ensures { result ≡ kind_for profile max_burst_length key }
{
    match (key, key.kind()) {
        (Key::FirstBurstLength, KeyKind::Smaller(range)) => KeyKind::Smaller(Range {
            own: most_first_burst(profile).min(max_burst_length),
            ..range
        }),
        (_, kind) => kind,
    }
}

/// The answer to a value of a key of the kind.
fn answer_of_kind(method: Word, kind: KeyKind, value: &[u8]) -> KeyAnswer
    ensures { result ≡ answer_of_kind method kind value.now }
{
    match kind {
        KeyKind::Declared => KeyAnswer::Nothing,
        KeyKind::DeclaredNumber(range) => match number_within(range, value) {
            None => KeyAnswer::Reject,
            Some(_) => KeyAnswer::Number(range.own),
        },
        KeyKind::List(word) => list_answer(word, value),
        KeyKind::AuthMethod => list_answer(method, value),
        KeyKind::Smaller(range) => match number_within(range, value) {
            None => KeyAnswer::Reject,
            Some(number) => KeyAnswer::Number(number.min(range.own)),
        },
        KeyKind::Larger(range) => match number_within(range, value) {
            None => KeyAnswer::Reject,
            Some(number) => KeyAnswer::Number(number.max(range.own)),
        },
        KeyKind::And(own) => match boolean_in(value) {
            None => KeyAnswer::Reject,
            Some(said) => KeyAnswer::Boolean(said && own),
        },
        KeyKind::Or(own) => match boolean_in(value) {
            None => KeyAnswer::Reject,
            Some(said) => KeyAnswer::Boolean(said || own),
        },
        KeyKind::Obsolete => KeyAnswer::Reject,
    }
}

fn list_answer(word: Word, value: &[u8]) -> KeyAnswer
    ensures { result ≡ list_answer word value.now }
{
    if has_word(value, word) {
        KeyAnswer::Word(word)
    } else {
        KeyAnswer::Reject
    }
}

/// The number of a value, where it is in the range.
fn number_within(range: Range, value: &[u8]) -> Option<u32>
    ensures { result ≡ number_within range value.now }
{
    let number = number_in(value)?;
    if range.least <= number && number <= range.most {
        Some(number)
    } else {
        None
    }
}
