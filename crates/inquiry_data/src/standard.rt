//! Standard INQUIRY data (SPC-4, "Standard INQUIRY data").
ghost use Rattle.std.specs.Prelude.{◌≡◌};
ghost use Rattle.inquiry_data.specs.Standard.{peripheral_device_type, standard_inquiry};

use crate::layout::{MEDIA_CHANGER, SEQUENTIAL_ACCESS_DEVICE, STANDARD_INQUIRY_LENGTH};
use scsi_cdb::Kind;

/// PERIPHERAL DEVICE TYPE, of a unit that is connected.
pub(crate) fn peripheral_device_type(kind: Kind) -> u8
    ensures { result ≡ peripheral_device_type kind }
{
    match kind {
        Kind::Drive => SEQUENTIAL_ACCESS_DEVICE,
        Kind::Changer => MEDIA_CHANGER,
    }
}

/// The standard INQUIRY data of units of a kind, 96 bytes (SPC-4, "Standard INQUIRY data").
pub fn standard_inquiry(kind: Kind) -> &'static [u8; STANDARD_INQUIRY_LENGTH]
    ensures { result.now ≡ standard_inquiry kind }
{
    match kind {
        Kind::Drive => {
            b"\x01\x80\x06\x02\x5b\x00\x10\x02VTLIB   TAPE DRIVE      0001\
              \x00\x00\x00\x00\x00\x00\x00\x00\x00\x00\x00\x00\x00\x00\x00\x00\x00\x00\x00\x00\x00\x00\
              \x00\xa0\x04\x60\x05\x20\x09\x60\
              \x00\x00\x00\x00\x00\x00\x00\x00\x00\x00\x00\x00\x00\x00\x00\x00\x00\x00\x00\x00\x00\x00\x00\x00\x00\x00\x00\x00\x00\x00"
        }
        Kind::Changer => {
            b"\x08\x80\x06\x02\x5b\x00\x10\x02VTLIB   MEDIUM CHANGER  0001\
              \x00\x00\x00\x00\x00\x00\x00\x00\x00\x00\x00\x00\x00\x00\x00\x00\x00\x00\x00\x01\x00\x00\
              \x00\xa0\x04\x60\x04\x80\x09\x60\
              \x00\x00\x00\x00\x00\x00\x00\x00\x00\x00\x00\x00\x00\x00\x00\x00\x00\x00\x00\x00\x00\x00\x00\x00\x00\x00\x00\x00\x00\x00"
        }
    }
}
