use crate::layout::{LIBRARY_NUMBER_LENGTH, UPPER_DIGITS};
use hex::FromHex;
use std::fmt;

/// The number of a library, which its units share (profile).
#[derive(Clone, Copy, Debug, PartialEq, Eq)]
pub struct LibraryNumber {
    pub number: u32,
}

impl LibraryNumber {
    ghost use Rattle.std.specs.Prelude.{◌≡◌};
    ghost use Rattle.inquiry_data.specs.Identity.{library_digits, library_number_in};

    /// The number in a text of 8 hexadecimal digits, of either case; none in any other text.
    pub fn parse(text: &str) -> Option<LibraryNumber>
        ensures { result ≡ library_number_in text.now }
    {
        // Four bytes are read of 8 digits and of no other number of them.
        match <[u8; 4] as FromHex>::from_hex(text) {
            Ok(bytes) => Some(LibraryNumber {
                number: u32::from_be_bytes(bytes),
            }),
            Err(_) => None,
        }
    }

    /// Its 8 hexadecimal digits of upper case, as ASCII.
    #[tactic(auto, unfolding(hex::specs::Hex::encode_with))]
    pub fn digits(self) -> [u8; LIBRARY_NUMBER_LENGTH]
        ensures { result ≡ library_digits self }
    {
        let [b3, b2, b1, b0] = self.number.to_be_bytes();
        [
            upper_digit(b3 / 16),
            upper_digit(b3 % 16),
            upper_digit(b2 / 16),
            upper_digit(b2 % 16),
            upper_digit(b1 / 16),
            upper_digit(b1 % 16),
            upper_digit(b0 / 16),
            upper_digit(b0 % 16),
        ]
    }
}

/// 8 hexadecimal digits of upper case.
impl fmt::Display for LibraryNumber {
    ghost use Rattle.std.specs.Prelude.{Some};
    ghost use Rattle.inquiry_data.specs.Identity.{library_digits};

    ghost output = { λ library. Some (library_digits library) };

    fn fmt<W: fmt::Write>(&self, f: &mut fmt::Formatter<W>) -> fmt::Result {
        match str::from_utf8(&self.digits()) {
            Ok(text) => f.write_str(text),
            Err(_) => Err(fmt::Error),
        }
    }
}

ghost use Rattle.std.specs.Prelude.{◌≡◌, ◌<◌, slice_index};
ghost use Rattle.hex.specs.Hex.{upper_digits};

/// The digit of a value below 16.
fn upper_digit(value: u8) -> u8
    requires { value < 16 }
    ensures { result ≡ slice_index upper_digits value }
{
    UPPER_DIGITS[usize::from(value)]
}
