ghost use Rattle.std.specs.Prelude.{◌≡◌};
ghost use Rattle.iscsi_pdu.specs.Luns.{unit_of};

const PERIPHERAL: u8 = 0x00;

const FLAT_SPACE: u8 = 0x40;

/// The logical unit that a LUN of eight bytes names by the peripheral device addressing method or by flat space addressing
/// (SAM-5, "Single level LUN structure"); `None` for any other, which names no unit here.
pub fn unit_of(lun: u64) -> Option<u8>
    ensures { result ≡ unit_of lun }
{
    match lun.to_be_bytes() {
        [PERIPHERAL | FLAT_SPACE, number, 0, 0, 0, 0, 0, 0] => Some(number),
        _ => None,
    }
}
