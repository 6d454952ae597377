ghost use Rattle.std.specs.Prelude.{◌≡◌};
ghost use Rattle.scsi_cdb.specs.Kinds.{kind_at};

/// The kinds of logical unit of the target (SPC-4, peripheral device types 01h and 08h).
#[derive(Clone, Copy, PartialEq, Eq)]
pub enum Kind {
    /// A sequential-access device.
    Drive,
    /// A medium changer.
    Changer,
}

/// The kind of the unit of a logical unit number: a changer is number 0, and all others are drives (profile).
pub fn kind_at(lun: u8) -> Kind
    ensures { result ≡ kind_at lun }
{
    if lun == 0 { Kind::Changer } else { Kind::Drive }
}
