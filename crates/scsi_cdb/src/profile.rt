ghost use Rattle.std.specs.Prelude.{◌≡◌};
ghost use Rattle.scsi_cdb.specs.Kinds.{commands_at};

use crate::kind::{Kind, kind_at};

/// Which commands the units of a library have, and how they answer them.
#[derive(Clone, Copy, PartialEq, Eq)]
pub enum Profile {
    /// The least that hosts need to share tapes under persistent reservations.
    Spec,
    /// What programs of unmodified hosts ask for, besides.
    Hosts,
}

/// The commands of a unit: by the profile of its library, and by its kind.
#[derive(Clone, Copy, PartialEq, Eq)]
pub struct CommandSet {
    pub profile: Profile,
    pub kind: Kind,
}

/// The commands of the unit of a logical unit number, in a library of a profile.
pub fn commands_at(profile: Profile, lun: u8) -> CommandSet
    ensures { result ≡ commands_at profile lun }
{
    CommandSet {
        profile,
        kind: kind_at(lun),
    }
}
