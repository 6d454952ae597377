ghost use Rattle.std.specs.Prelude.{◌≡◌};
ghost use Rattle.std.specs.List.{list_all};
ghost use Rattle.std.specs.Char.{is_ascii_hexdigit};
ghost use Rattle.iscsi_keys.specs.IscsiNames.{fits, has_form, identifies, is_identifier, is_iscsi_name, is_name_byte, is_qualified, is_same_name};

/// The most bytes of an iSCSI name (RFC 7143, "iSCSI Names").
pub const LONGEST_NAME: usize = 223;

/// Whether text is an iSCSI name, in letters of either case: of type `iqn.`, `eui.` or `naa.` (RFC 7143, "iSCSI Names"), of ASCII alone
/// (profile).
pub fn is_iscsi_name(name: &[u8]) -> bool
    ensures { result ≡ is_iscsi_name name.now }
{
    name.len() <= LONGEST_NAME && (is_qualified(name) || is_identifier(name))
}

/// Whether both are the same name, whichever case their letters have.
pub fn is_same_name(one: &[u8], other: &[u8]) -> bool
    ensures { result ≡ is_same_name one.now other.now }
{
    one.eq_ignore_ascii_case(other)
}

fn is_qualified(name: &[u8]) -> bool
    ensures { result ≡ is_qualified name.now }
{
    if name.len() <= 12 {
        return false;
    }
    let (head, rest) = name.split_at(12);
    has_form(head, b"iqn.0000-00.") && are_name_bytes(rest)
}

/// Whether each byte is as its place in a form, in which 0 stands for any digit, and a small letter for itself in either case.
fn has_form(text: &[u8], form: &[u8]) -> bool
    ensures { result ≡ has_form text.now form.now }
{
    let mut left = text;
    for place in form {
        match left.split_first() {
            Some((byte, behind)) if fits(*place, *byte) => left = behind,
            _ => return false,
        }
    }
    left.is_empty()
}

fn fits(place: u8, byte: u8) -> bool
    ensures { result ≡ fits place byte }
{
    if place == b'0' {
        byte.is_ascii_digit()
    } else {
        place == byte.to_ascii_lowercase()
    }
}

fn are_name_bytes(bytes: &[u8]) -> bool
    ensures { result ≡ list_all is_name_byte bytes.now }
{
    bytes.iter().all(|byte| is_name_byte(*byte))
}

fn is_name_byte(byte: u8) -> bool
    ensures { result ≡ is_name_byte byte }
{
    byte.is_ascii_alphanumeric() || byte == b'-' || byte == b'.' || byte == b':' || byte == b'_'
}

fn is_identifier(name: &[u8]) -> bool
    ensures { result ≡ is_identifier name.now }
{
    match name.split_at_checked(4) {
        Some((kind, digits)) => identifies(kind, digits),
        None => false,
    }
}

/// Whether a type and digits are an identifier: of EUI-64 format, or of NAA format, which has twice as many digits too.
fn identifies(kind: &[u8], digits: &[u8]) -> bool
    ensures { result ≡ identifies kind.now digits.now }
{
    let is_naa = has_form(kind, b"naa.");
    let has_size = digits.len() == 16 && (has_form(kind, b"eui.") || is_naa)
        || digits.len() == 32 && is_naa;
    has_size && are_hexadecimal(digits)
}

fn are_hexadecimal(digits: &[u8]) -> bool
    ensures { result ≡ list_all is_ascii_hexdigit digits.now }
{
    digits.iter().all(|digit| digit.is_ascii_hexdigit())
}
