ghost use Rattle.std.specs.Prelude.{◌≡◌, ◌<◌, ◌≤◌, fold, Some, IfSome};
ghost use Rattle.iscsi_keys.specs.Numbers.{digit_in, with_digit, number_in, digits_in};

/// The number that a value spells in decimal, or in hexadecimal behind `0x` or `0X`, where it has 32 bits (RFC 7143, "Text
/// Format").
pub fn number_in(value: &[u8]) -> Option<u32>
    ensures { result ≡ number_in value.now }
{
    if value.len() >= 2 && value[0] == b'0' && (value[1] == b'x' || value[1] == b'X') {
        digits_in(16, &value[2..])
    } else {
        digits_in(10, value)
    }
}

/// The number of these digits, of which there is one at least.
fn digits_in(base: u32, digits: &[u8]) -> Option<u32>
    requires { base ≤ 16 }
    ensures { result ≡ digits_in base digits.now }
{
    if digits.is_empty() {
        None
    } else {
        digits
            .iter()
            .fold(Some(0), |number, digit| with_digit(base, number, *digit))
    }
}

/// The number with one more digit, where there is one still.
fn with_digit(base: u32, number: Option<u32>, digit: u8) -> Option<u32>
    requires { base ≤ 16 }
    ensures { result ≡ with_digit base number digit }
{
    let number = number?;
    let digit = digit_in(digit)?;
    if digit >= base {
        return None;
    }
    number.checked_mul(base)?.checked_add(digit)
}

/// The value of a digit of either base.
fn digit_in(digit: u8) -> Option<u32>
    ensures value { result ≡ digit_in digit }
    ensures most { IfSome result (λ value. value < 16) }
{
    match digit {
        b'0'..=b'9' => Some(u32::from(digit - b'0')),
        b'a'..=b'f' => Some(u32::from(digit - b'a') + 10),
        b'A'..=b'F' => Some(u32::from(digit - b'A') + 10),
        _ => None,
    }
}
