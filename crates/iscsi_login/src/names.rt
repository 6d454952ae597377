ghost use Rattle.std.specs.Prelude.{◌≡◌, ◌≤◌, length};
ghost use Rattle.std.specs.Option.{option_copied};
ghost use Rattle.iscsi_login.specs.Names.{declared, declared_as, session_type_in};

use iscsi_chap::SessionType;
use iscsi_keys::{Key, TextItem, first_item};

/// The value that a text first gives the key, if it does before its end or a fault of the text.
pub fn declared_value<'a>(text: &'a [u8], key: Key) -> Option<&'a [u8]>
    requires { length text.now ≤ 65536 }
    ensures { option_copied result ≡ declared text.now key }
{
    value_named(text, key.name())
}

/// The value that a text first gives the key of the name.
pub(crate) fn value_named<'a>(text: &'a [u8], wanted: &[u8]) -> Option<&'a [u8]>
    requires { length text.now ≤ 65536 }
    ensures { option_copied result ≡ declared_as text.now wanted.now }
{
    let mut left = text;
    'items: for _ in 0..text.len() + 1 {
        match first_item(left) {
            TextItem::Pair {
                key: name,
                value,
                rest,
            } => {
                if name == wanted {
                    return Some(value);
                }
                left = rest;
            }
            _ => return None,
        }
    }
    None
}

/// The type of a session whose SessionType has the value, or that has none.
pub(crate) fn session_type_in(value: Option<&[u8]>) -> Option<SessionType>
    ensures { result ≡ session_type_in (option_copied value.entry) }
{
    let Some(value) = value else {
        return Some(SessionType::Normal);
    };
    if value == b"Normal".as_slice() {
        Some(SessionType::Normal)
    } else if value == b"Discovery".as_slice() {
        Some(SessionType::Discovery)
    } else {
        None
    }
}
