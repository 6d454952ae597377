ghost use Rattle.std.specs.Prelude.{◌≡◌, ◌↔◌, true};
ghost use Rattle.std.specs.List.{list_all};
ghost use Rattle.program_options.specs.ToldAddresses.{IsBehindBracket, IsBracketed, IsIpv6, IsToldAddress, is_host_byte, is_host_name, is_named, is_port, is_port_behind};

use crate::sign::place_of;
use crate::sizes::number_in;
use std::net::Ipv6Addr;

/// The most bytes of a host name (RFC 1035, "Size limits", without the length and the root that no text has).
const LONGEST_HOST_NAME: usize = 253;

/// The greatest port.
const LAST_PORT: u64 = 65_535;

/// Whether a text is an address that can be sent to initiators: a host name, an IPv4 address or an IPv6 address in brackets, and after a
/// colon a port (RFC 7143, "TargetAddress").
pub(crate) fn is_told_address(text: &[u8]) -> bool
    ensures { (result ≡ true) ↔ IsToldAddress text.now }
{
    // The text of an IPv4 address is that of a host name, too.
    is_named(text) || is_bracketed(text)
}

/// Whether a text is a host name with a port.
fn is_named(text: &[u8]) -> bool
    ensures { result ≡ is_named text.now }
{
    match place_of(text, b':') {
        Some(place) => is_host_name(&text[..place]) && is_port(&text[place + 1..]),
        None => false,
    }
}

fn is_host_name(name: &[u8]) -> bool
    ensures { result ≡ is_host_name name.now }
{
    if name.is_empty() || name.len() > LONGEST_HOST_NAME {
        return false;
    }
    let first = name[0];
    let last = name[name.len() - 1];
    are_host_bytes(name) && first.is_ascii_alphanumeric() && last.is_ascii_alphanumeric()
}

fn are_host_bytes(name: &[u8]) -> bool
    ensures { result ≡ list_all is_host_byte name.now }
{
    name.iter().all(|byte| is_host_byte(*byte))
}

fn is_host_byte(byte: u8) -> bool
    ensures { result ≡ is_host_byte byte }
{
    byte.is_ascii_alphanumeric() || byte == b'-' || byte == b'.'
}

/// Whether digits are a port, which isn't 0.
fn is_port(digits: &[u8]) -> bool
    ensures { result ≡ is_port digits.now }
{
    match number_in(digits) {
        Some(number) => number <= LAST_PORT,
        None => false,
    }
}

/// Whether a text is an IPv6 address in brackets with a port.
fn is_bracketed(text: &[u8]) -> bool
    ensures { (result ≡ true) ↔ IsBracketed text.now }
{
    match text.split_first() {
        Some((b'[', rest)) => is_behind_bracket(rest),
        _ => false,
    }
}

/// The same, where the first bracket has been read.
fn is_behind_bracket(rest: &[u8]) -> bool
    ensures { (result ≡ true) ↔ IsBehindBracket rest.now }
{
    match place_of(rest, b']') {
        Some(place) => is_ipv6(&rest[..place]) && is_port_behind(&rest[place + 1..]),
        None => false,
    }
}

fn is_ipv6(text: &[u8]) -> bool
    ensures { (result ≡ true) ↔ IsIpv6 text.now }
{
    match Ipv6Addr::parse_ascii(text) {
        Ok(_) => true,
        Err(_) => false,
    }
}

/// Whether a text is a colon with a port.
fn is_port_behind(text: &[u8]) -> bool
    ensures { result ≡ is_port_behind text.now }
{
    match text.split_first() {
        Some((b':', digits)) => is_port(digits),
        _ => false,
    }
}
