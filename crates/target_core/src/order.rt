ghost use Rattle.std.specs.Prelude.{◌≡◌, ◌<◌, ◌≤◌, ◌+◌, length, drop};
ghost use Rattle.scsi_cdb.specs.declared.kind.Kind.TheVariants.{Changer};
ghost use Rattle.device_server.specs.Marks.{marks};
ghost use Rattle.device_server.specs.View.{kind_of, drives_of};
ghost use Rattle.logical_unit.specs.UnitView.{units_of};
ghost use Rattle.target_core.specs.Faults.{are_drives, is_drive_of, same_profile, same_mark, agree, fault_of};

use device_server::DeviceServer;
use logical_unit::LogicalUnit;
use scsi_cdb::{CommandSet, Kind, Profile};
use tape_medium::{FIRST_DATA_TRANSFER, VolumeTag};
use thiserror::Error;

/// How many units a target has at most: a changer and four drives.
const UNITS: usize = 5;

/// Why units make no target, in the order of the tests.
#[derive(Clone, Copy, Debug, Error)]
pub enum CoreFault {
    /// There are fewer than two, or more than five: a target has a changer and one to four drives.
    #[error("a target has a changer and one to four drives")]
    Count,
    /// They aren't a changer and then drives of its profile, numbered by place, each made with this count of units.
    #[error("the units are not a changer and then drives by place")]
    Order,
    /// The changer has fewer or more data transfer elements than there are drives, or one of them doesn't have the tag of the
    /// volume in that drive's bay.
    #[error("the changer's data transfer elements are not as the drives")]
    Disagree,
}

/// Why these units make no target, if they make none.
pub(crate) fn fault_of<D: DeviceServer>(units: &[LogicalUnit<D>]) -> Option<CoreFault>
    ensures { result ≡ fault_of (units_of units.now) }
{
    let [changer, drives @ ..] = units else {
        return Some(CoreFault::Count);
    };
    if drives.is_empty() || drives.len() >= UNITS {
        return Some(CoreFault::Count);
    }
    let count = drives.len() as u8 + 1;
    if changer.kind() != Kind::Changer || changer.lun() != 0 || changer.units() != count {
        return Some(CoreFault::Order);
    }
    if !are_drives(changer.commands().profile, drives, 1, count) {
        return Some(CoreFault::Order);
    }
    if !agree(changer, drives, 0) {
        return Some(CoreFault::Disagree);
    }
    None
}

/// Whether a mark at the changer is the tag of what is in a drive's bay.
fn is_same_mark(mark: Option<VolumeTag>, held: Option<VolumeTag>) -> bool
    ensures { result ≡ same_mark mark held }
{
    match (mark, held) {
        (None, None) => true,
        (Some(mark), Some(held)) => mark.0 == held.0,
        (None, Some(_)) | (Some(_), None) => false,
    }
}

/// Whether the changer's data transfer elements from a number on are as these drives, and no more are there.
fn agree<D: DeviceServer>(changer: &LogicalUnit<D>, drives: &[LogicalUnit<D>], from: u16) -> bool
    requires few { from + length drives.now < 256 }
    requires kind { kind_of changer.now.unit.device ≡ Changer }
    requires within { from ≤ drives_of changer.now.unit.device }
    ensures { result ≡ agree (drop from (marks changer.now.unit.device)) (units_of drives.now) }
{
    match drives {
        [] => from == changer.drives(),
        [drive, rest @ ..] => {
            from < changer.drives()
                && is_same_mark(changer.held(FIRST_DATA_TRANSFER + from), drive.held(0))
                && agree(changer, rest, from + 1)
        }
    }
}

fn same_profile(one: Profile, two: Profile) -> bool
    ensures { result ≡ same_profile one two }
{
    match (one, two) {
        (Profile::Spec, Profile::Spec) | (Profile::Hosts, Profile::Hosts) => true,
        (Profile::Spec, Profile::Hosts) | (Profile::Hosts, Profile::Spec) => false,
    }
}

/// Whether commands are those of drives of a profile.
fn is_drive_of(profile: Profile, commands: CommandSet) -> bool
    ensures { result ≡ is_drive_of profile commands }
{
    match commands.kind {
        Kind::Drive => same_profile(profile, commands.profile),
        Kind::Changer => false,
    }
}

/// Whether units are drives of a profile, numbered by place, each made with this count of units.
fn are_drives<D: DeviceServer>(
    profile: Profile,
    units: &[LogicalUnit<D>],
    from: u8,
    count: u8,
) -> bool
    requires { from + length units.now < 256 }
    ensures { result ≡ are_drives profile (units_of units.now) from count }
{
    match units {
        [] => true,
        [unit, rest @ ..] => {
            is_drive_of(profile, unit.commands())
                && unit.lun() == from
                && unit.units() == count
                && are_drives(profile, rest, from + 1, count)
        }
    }
}
