ghost use Rattle.std.specs.Prelude.{◌≡◌, find};
ghost use Rattle.std.specs.Str.{bytes_eq};
ghost use Rattle.iscsi_keys.specs.Keys.{key_name, all_keys};
ghost use Rattle.iscsi_keys.specs.Words.{has_word, word_text, boolean_in};

use crate::key::Key;
use crate::word::Word;

/// The key of a name, where the target knows it.
pub fn key_named(name: &[u8]) -> Option<Key>
    ensures { result ≡ find (λ key. bytes_eq (key_name key) name.now) all_keys }
{
    Key::ALL.iter().find(|key| is_name_of(**key, name)).copied()
}

fn is_name_of(key: Key, name: &[u8]) -> bool
    ensures { result ≡ bytes_eq (key_name key) name.now }
{
    key.name() == name
}

/// Whether one of a list's elements, which commas part, is the word.
pub fn has_word(value: &[u8], word: Word) -> bool
    ensures { result ≡ has_word value.now (word_text word) }
{
    value
        .split(|byte| *byte == b',')
        .any(|element| is_text_of(word, element))
}

fn is_text_of(word: Word, text: &[u8]) -> bool
    ensures { result ≡ bytes_eq text.now (word_text word) }
{
    text == word.text()
}

/// The value `Yes` or `No`.
pub fn boolean_in(value: &[u8]) -> Option<bool>
    ensures { result ≡ boolean_in value.now }
{
    if value == b"Yes".as_slice() {
        Some(true)
    } else if value == b"No".as_slice() {
        Some(false)
    } else {
        None
    }
}
