ghost use Rattle.std.specs.Prelude.{◌≡◌};
ghost use Rattle.permission_chart.specs.Classes.{every_class};
ghost use Rattle.permission_chart.specs.Names.{IsClassNamed};

use permit_tables::class_text;
use scsi_cdb::{Class, Profile};

/// How many classes both profiles have, the first of [`CLASSES`].
const SHARED_CLASSES: usize = 31;

/// Each class of command, in the order of [`Class`]. Those that only the hosts' profile has come last.
const CLASSES: [Class; 40] = [
    Class::TestUnitReady,
    Class::RequestSense,
    Class::Inquiry,
    Class::ReportLuns,
    Class::PersistentReserveIn,
    Class::AllowRemoval,
    Class::ReadBlockLimits,
    Class::ReadPosition,
    Class::ReadElementStatusCurdata,
    Class::ModeSense,
    Class::Read,
    Class::Space,
    Class::Locate,
    Class::Rewind,
    Class::ReadElementStatus,
    Class::ModeSelect,
    Class::PreventRemoval,
    Class::Write,
    Class::WriteFilemarks,
    Class::Erase,
    Class::LoadUnload,
    Class::MoveMedium,
    Class::InitializeElementStatus,
    Class::Register,
    Class::RegisterAndIgnoreExistingKey,
    Class::Clear,
    Class::Preempt,
    Class::PreemptAndAbort,
    Class::Release,
    Class::Reserve,
    Class::RegisterAndMove,
    Class::SendDiagnostic,
    Class::LogSelect,
    Class::LogSense,
    Class::ModeSelect10,
    Class::ModeSense10,
    Class::ReportSupportedOperationCodes,
    Class::ReportSupportedTaskManagementFunctions,
    Class::PositionToElement,
    Class::ExchangeMedium,
];

/// Each class of a profile's commands, in the order of [`Class`].
pub(crate) fn classes_of(profile: Profile) -> &'static [Class]
    ensures { result.now ≡ every_class profile }
{
    match profile {
        Profile::Spec => &CLASSES[..SHARED_CLASSES],
        Profile::Hosts => &CLASSES,
    }
}

/// The class of a profile's commands that has this name (`class_text`), in either case of letters, if one has.
pub fn class_named(profile: Profile, name: &str) -> Option<Class>
    ensures { IsClassNamed profile name.now result }
{
    for &class in classes_of(profile) {
        if name.eq_ignore_ascii_case(class_text(class)) {
            return Some(class);
        }
    }
    None
}
