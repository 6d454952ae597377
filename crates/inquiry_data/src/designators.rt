//! Designation descriptors (SPC-4, "Device Identification VPD page").
ghost use Rattle.std.specs.Prelude.{◌≡◌, ◌∷◌, ◌++◌};
ghost use Rattle.inquiry_data.specs.Standard.{vendor_identification, product_identification};
ghost use Rattle.inquiry_data.specs.Designators.{ascii, t10_vendor_id_of_unit, naa_designation, t10_vendor_id_designation, relative_port_designation, device_identifier};

use crate::layout::*;
use crate::unit_identity::UnitIdentity;
use scsi_cdb::Kind;

/// The unit by an NAA designator that is locally assigned.
pub(crate) fn naa_designation(identity: UnitIdentity) -> [u8; NAA_DESIGNATION_LENGTH]
    ensures { result ≡ naa_designation identity }
{
    let [b3, b2, b1, b0] = identity.library_number.number.to_be_bytes();
    [
        BINARY,
        NAA_OF_UNIT,
        0x00,
        0x08,
        NAA_LOCALLY_ASSIGNED,
        b'V',
        b'T',
        b3,
        b2,
        b1,
        b0,
        identity.lun,
    ]
}

/// What precedes the serial number in the designation descriptor of a unit of the kind.
fn t10_vendor_id_start(kind: Kind) -> &'static [u8; T10_VENDOR_ID_START_LENGTH]
    ensures { result.now ≡ ascii ∷ t10_vendor_id_of_unit ∷ 0x00 ∷ 0x22 ∷ (vendor_identification ++ product_identification kind) }
{
    match kind {
        Kind::Drive => b"\x02\x01\x00\x22VTLIB   TAPE DRIVE      ",
        Kind::Changer => b"\x02\x01\x00\x22VTLIB   MEDIUM CHANGER  ",
    }
}

/// The unit by its vendor, product and serial number.
#[tactic(auto, unfolding(hex::specs::Hex::encode_with))]
pub(crate) fn t10_vendor_id_designation(
    kind: Kind,
    identity: UnitIdentity,
) -> [u8; DEVICE_IDENTIFIER_LENGTH]
    ensures { result ≡ t10_vendor_id_designation kind identity }
{
    let mut descriptor = [0; DEVICE_IDENTIFIER_LENGTH];
    descriptor[..T10_VENDOR_ID_START_LENGTH].copy_from_slice(t10_vendor_id_start(kind));
    descriptor[T10_VENDOR_ID_START_LENGTH..].copy_from_slice(&identity.serial_number());
    descriptor
}

/// The target port that a command came by.
pub(crate) fn relative_port_designation(target_port: u16) -> [u8; RELATIVE_PORT_DESIGNATION_LENGTH]
    ensures { result ≡ relative_port_designation target_port }
{
    let [b1, b0] = target_port.to_be_bytes();
    [
        BINARY,
        RELATIVE_PORT_OF_TARGET_PORT,
        0x00,
        0x04,
        0x00,
        0x00,
        b1,
        b0,
    ]
}

/// The device identifier of a drive in READ ELEMENT STATUS with DVCID (SMC-3, "READ ELEMENT STATUS command"): a designation descriptor of
/// 38 bytes that the drive's Device Identification page has too.
pub fn device_identifier(identity: UnitIdentity) -> [u8; DEVICE_IDENTIFIER_LENGTH]
    ensures { result ≡ device_identifier identity }
{
    t10_vendor_id_designation(Kind::Drive, identity)
}
