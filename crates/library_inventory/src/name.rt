ghost use Rattle.std.specs.Prelude.{◌≡◌, ◌≤◌, length, IsTrue, Some, IfSome};
ghost use Rattle.std.specs.List.{list_all};
ghost use Rattle.library_inventory.specs.Names.{is_name_byte, is_name, padded, named};

use tape_medium::VolumeTag;

/// The most bytes of a name, as a tag has.
const MOST: usize = 32;

/// Whether a byte may be in a name: a letter, a digit, `_` or `-`, of ASCII.
fn is_name_byte(byte: u8) -> bool
    ensures { result ≡ is_name_byte byte }
{
    matches!(byte, b'A'..=b'Z' | b'a'..=b'z' | b'0'..=b'9' | b'_' | b'-')
}

fn are_name_bytes(bytes: &[u8]) -> bool
    ensures { result ≡ list_all is_name_byte bytes.now }
{
    bytes.iter().all(|byte| is_name_byte(*byte))
}

/// Whether bytes are a name: 1 to 32 letters, digits, `_` and `-`.
fn is_name(bytes: &[u8]) -> bool
    ensures value { result ≡ is_name bytes.now }
    ensures short { IsTrue result → length bytes.now ≤ 32 }
{
    let size = bytes.len();
    if size == 0 {
        return false;
    }
    if size > MOST {
        return false;
    }
    are_name_bytes(bytes)
}

/// Bytes, padded with spaces.
fn padded(bytes: &[u8]) -> VolumeTag
    requires { length bytes.now ≤ 32 }
    ensures { result ≡ padded bytes.now }
{
    let mut tag = [b' '; MOST];
    tag[..bytes.len()].copy_from_slice(bytes);
    VolumeTag(tag)
}

/// The tag with a name of 1 to 32 letters, digits, `_` and `-`, padded with spaces; a name of anything else is none.
pub fn tag_of_name(name: &str) -> Option<VolumeTag>
    ensures { result ≡ named name.now }
{
    let bytes = name.as_bytes();
    if is_name(bytes) {
        Some(padded(bytes))
    } else {
        None
    }
}

/// The name of a tag, if it has one.
pub fn name_of_tag(tag: &VolumeTag) -> Option<&str>
    ensures { IfSome result (λ name. named name.now ≡ Some tag.now) }
{
    let size = tag.0.iter().position(|byte| *byte == b' ').unwrap_or(MOST);
    let bytes = tag.0.get(..size)?;
    let name = match std::str::from_utf8(bytes) {
        Ok(name) => name,
        Err(_) => return None,
    };
    match tag_of_name(name) {
        Some(same) if same == *tag => Some(name),
        _ => None,
    }
}
