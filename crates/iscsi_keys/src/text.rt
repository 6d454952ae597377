ghost use Rattle.std.specs.Prelude.{◌≡◌, ◌==◌, ◌<◌, ◌+◌, ◌^◌, ◌++◌, length, vec_len, vec_capacity, IfSome, OnOk, OnErr};
ghost use Rattle.std.specs.List.{list_all, position};
ghost use Rattle.iscsi_keys.specs.Texts.{first_item, item_value, item_bytes, IsShorter};

use crate::fault::TextFault;
use std::alloc::AllocError;

/// What a text begins with: a key with its value, up to a NUL, and the rest behind it (RFC 7143, "Text Format"). NULs alone are its end.
#[derive(Clone, Copy)]
pub enum TextItem<'a> {
    End,
    Pair {
        key: &'a [u8],
        value: &'a [u8],
        rest: &'a [u8],
    },
    Invalid(TextFault),
}

/// What the text begins with. Nothing is copied.
pub fn first_item(text: &[u8]) -> TextItem<'_>
    ensures item { item_value result ≡ first_item text.now }
    ensures shorter { IsShorter (length text.now) result }
{
    if are_nuls(text) {
        return TextItem::End;
    }
    let Some(end) = place_of(text, 0) else {
        return TextItem::Invalid(TextFault::NoNul);
    };
    let item = &text[..end];
    let Some(equals) = place_of(item, b'=') else {
        return TextItem::Invalid(TextFault::NoEquals);
    };
    TextItem::Pair {
        key: &item[..equals],
        value: &item[equals + 1..],
        rest: &text[end + 1..],
    }
}

/// Whether there are NULs alone, or nothing.
fn are_nuls(text: &[u8]) -> bool
    ensures { result ≡ list_all (λ b. b == 0) text.now }
{
    text.iter().all(|byte| *byte == 0)
}

/// Where the first such byte stands.
pub(crate) fn place_of(bytes: &[u8], wanted: u8) -> Option<usize>
    ensures place { result ≡ position (λ b. b == wanted) bytes.now }
    ensures within { IfSome result (λ place. place < length bytes.now) }
{
    bytes.iter().position(|byte| *byte == wanted)
}

/// Adds an item. Where there is room for it no memory is taken; where memory is refused, nothing that counts was added.
pub fn write_item(out: &mut Vec<u8>, key: &[u8], value: &[u8]) -> Result<(), AllocError>
    requires key { length key.now < 2 ^ 32 }
    requires value { length value.now < 2 ^ 32 }
    ensures ok { OnOk result (out.new.items ≡ out.old.items ++ item_bytes key.now value.now) }
    ensures full { OnErr result (vec_capacity out.old < vec_len out.old + length (item_bytes key.now value.now)) }
{
    out.reserve(key.len() + value.len() + 2)?;
    out.extend_from_slice(key)?;
    out.push(b'=')?;
    out.extend_from_slice(value)?;
    out.push(0)?;
    Ok(())
}
