ghost use Rattle.std.specs.Prelude.{◌≡◌};
ghost use Rattle.std.specs.List.{list_any};
ghost use Rattle.std.specs.Str.{bytes_eq};
ghost use Rattle.iscsi_keys.specs.Texts.{first_item};
ghost use Rattle.iscsi_answers.specs.Repeats.{is_overdone, is_pair};

use arrayvec::ArrayVec;
use iscsi_keys::{TextItem, first_item};

/// How many keys a text has at most: RFC 7143 has about half as many.
const MOST_KEYS: usize = 64;

/// Whether a text has a key twice, which is a protocol error (RFC 7143, "Text Mode Negotiation"), or more than 64 keys, which are refused in
/// the same way: no list of keys is that long, and each key is compared with all before it.
pub fn is_overdone(text: &[u8]) -> bool
    ensures { result ≡ is_overdone text.now }
{
    let mut keys: ArrayVec<&[u8], MOST_KEYS> = ArrayVec::new();
    let mut left = text;
    'items: for _ in 0..MOST_KEYS {
        match first_item(left) {
            TextItem::End => return false,
            TextItem::Invalid(_) => return false,
            TextItem::Pair {
                key,
                value: _,
                rest,
            } => {
                if is_among(keys.as_slice(), key) {
                    return true;
                }
                keys.push(key);
                left = rest;
            }
        }
    }
    has_pair(left)
}

/// Whether a key is one of these.
fn is_among(keys: &[&[u8]], key: &[u8]) -> bool
    ensures { result ≡ list_any (λ k. bytes_eq k.now key.now) keys.now }
{
    keys.iter().any(|other| *other == key)
}

/// Whether a text begins with a key.
fn has_pair(text: &[u8]) -> bool
    ensures { result ≡ is_pair (first_item text.now) }
{
    match first_item(text) {
        TextItem::End => false,
        TextItem::Invalid(_) => false,
        TextItem::Pair { .. } => true,
    }
}
