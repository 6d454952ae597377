use crate::layout::{CHANGER_LUN, SERIAL_NUMBER_LENGTH};
use crate::library_number::LibraryNumber;

/// A logical unit of a library.
#[derive(Clone, Copy, Debug, PartialEq, Eq)]
pub struct UnitIdentity {
    pub library_number: LibraryNumber,
    /// The logical unit number.
    pub lun: u8,
}

impl UnitIdentity {
    ghost use Rattle.std.specs.Prelude.{◌≡◌};
    ghost use Rattle.inquiry_data.specs.Identity.{serial_number, changer_of};

    /// The unit's serial number, as ASCII: the library's number in 8 hexadecimal digits of upper case, then the last two decimal digits of
    /// the logical unit number, which below 100 are the whole number (profile).
    pub fn serial_number(self) -> [u8; SERIAL_NUMBER_LENGTH]
        ensures { result ≡ serial_number self }
    {
        let [d7, d6, d5, d4, d3, d2, d1, d0] = self.library_number.digits();
        [
            d7,
            d6,
            d5,
            d4,
            d3,
            d2,
            d1,
            d0,
            b'0' + self.lun / 10 % 10,
            b'0' + self.lun % 10,
        ]
    }

    /// The changer of the unit's library.
    pub fn changer(self) -> UnitIdentity
        ensures { result ≡ changer_of self }
    {
        UnitIdentity {
            library_number: self.library_number,
            lun: CHANGER_LUN,
        }
    }
}
