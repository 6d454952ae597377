ghost use Rattle.std.specs.Prelude.{◌≡◌};
ghost use Rattle.logical_unit.specs.ActKinds.{act_kind_of};

use audit_log::Act;
use scsi_cdb::Class;

/// What an entry keeps of an act: its kind, and of a command the class. It takes no memory; the parameters of a PERSISTENT
/// RESERVE OUT are in the record alone.
#[derive(Clone, Copy, PartialEq, Eq)]
pub enum ActKind {
    Command(Class),
    /// Bytes that decode to no command of the unit.
    Invalid,
    /// An I_T nexus loss.
    Loss,
    /// A reset of the unit.
    Reset,
    /// A volume came in, or was taken out.
    Medium,
}

/// The kind of an act.
pub fn act_kind_of(act: &Act) -> ActKind
    ensures { result ≡ act_kind_of act.now }
{
    match act {
        Act::Command(class) => ActKind::Command(*class),
        Act::ReserveOut(params) => ActKind::Command(params.act().class()),
        Act::Invalid => ActKind::Invalid,
        Act::Loss => ActKind::Loss,
        Act::Reset => ActKind::Reset,
        Act::MediumIn | Act::MediumOut => ActKind::Medium,
    }
}
