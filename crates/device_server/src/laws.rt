//! Worked rows that the definitions compute to, and laws of every step. Each function has an empty body: its clause is the row or the law.

ghost use Rattle.tape_medium.specs.declared.volume.VolumeTag.{VolumeTag};
ghost use Rattle.device_server.specs.Rows.{ReadsOfOtherLength, SuppressedLengths, SpacesBothWays, PositionsRead, ModesOfADrive, RefusedFields, RefusedLists, FixedTransfers, RefusedWrites, VolumesOfADrive, BayOfADrive};
ghost use Rattle.device_server.specs.ChangerRows.{StatusOfAChanger, ModesOfAChanger, MovesOfAChanger, MovesOfADrive, PlacesOfAChanger, PlacesOfTwoDrives, SlotsOfAChanger, MovesByMarks};
ghost use Rattle.device_server.specs.Ends.{EndsItsOwnWay, SpecTellsOfModes, StaysTheSameDevice, StaysTheSameByReset, StaysTheSameByJourneys, StaysTheSameByExchanges};
ghost use Rattle.device_server.specs.Marks.{CommandsKeepMarks, ResetsKeepMarks, JourneysKeepMarks, ExchangesKeepMarks, DrivesGive, DrivesGet, ChangersGive, ChangersGet, MarksOne, EachIsMarked};
ghost use Rattle.device_server.specs.MarkRows.{MarksOfADrive, MarksOfAChanger};
ghost use Rattle.device_server.specs.Volumes.{DrivesKeepTheirVolume, DrivesKeepTheirTape, ChangersStay, MovesCarryOne, ExchangesCarryTwo, ResetsKeepVolumes, TakesOne, PutsOne, MarksMoveNothing, JourneysMoveNothing, ExchangesThatAreNotedMoveNothing};
ghost use Rattle.device_server.specs.VolumeRows.{VolumeOfADrive, SameVolumes, VolumesOfAChanger};

/// Reads of one block that ask for more or fewer bytes than it has, and reads at a filemark and at the end of data.
#[tactic(auto, unfolding(crate::specs::View::profile_of))]
pub fn reads_of_other_length()
    ensures told { (tag : VolumeTag) → ReadsOfOtherLength tag }
    ensures suppressed { (tag : VolumeTag) → SuppressedLengths tag }
{}

/// Transfers in blocks of the mode's length.
#[tactic(auto, unfolding(crate::specs::View::profile_of))]
pub fn fixed_transfers()
    ensures { (tag : VolumeTag) → FixedTransfers tag }
{}

/// Writes past the capacity and on a protected volume.
#[tactic(auto, unfolding(crate::specs::View::profile_of))]
pub fn refused_writes()
    ensures { (tag : VolumeTag) → RefusedWrites tag }
{}

/// SPACE and LOCATE over a block and a filemark, and READ POSITION.
#[tactic(auto, unfolding(crate::specs::View::profile_of))]
pub fn positions()
    ensures spaces { (tag : VolumeTag) → SpacesBothWays tag }
    ensures told { (tag : VolumeTag) → PositionsRead tag }
{}

/// MODE SELECT, MODE SENSE and a reset.
#[tactic(auto, unfolding(crate::specs::View::profile_of))]
pub fn modes()
    ensures { (tag : VolumeTag) → ModesOfADrive tag }
{}

/// Fields that are refused, and some that aren't.
pub fn refused_fields()
    ensures cdbs { RefusedFields }
    ensures lists { RefusedLists }
{}

/// Volumes that go in and out, and are loaded and unloaded.
#[tactic(auto, unfolding(crate::specs::View::profile_of))]
pub fn volumes()
    ensures { (tag : VolumeTag) → VolumesOfADrive tag }
{}

/// Volumes that are put and taken where no host asks, at elements and in a bay, and moves by the marks of drives.
#[tactic(auto, unfolding(crate::specs::View::profile_of))]
pub fn places()
    ensures bay { (tag : VolumeTag) → BayOfADrive tag }
    ensures elements { (a : VolumeTag) → PlacesOfTwoDrives a }
    ensures slots { (a b : VolumeTag) → SlotsOfAChanger a b }
    ensures moves { (a b : VolumeTag) → MovesByMarks a b }
{}

/// READ ELEMENT STATUS, and the commands that a changer is always ready for.
#[tactic(auto, unfolding(crate::specs::View::profile_of))]
pub fn status_of_a_changer()
    ensures { (a : VolumeTag) → StatusOfAChanger a }
{}

/// MODE SENSE of a changer.
#[tactic(auto, unfolding(crate::specs::View::profile_of))]
pub fn modes_of_a_changer()
    ensures { (a : VolumeTag) → ModesOfAChanger a }
{}

/// MOVE MEDIUM between storage and import/export elements, and of a drive.
#[tactic(auto, unfolding(crate::specs::View::profile_of))]
pub fn moves_of_a_changer()
    ensures elements { (a b : VolumeTag) → MovesOfAChanger a b }
    ensures drives { (a b : VolumeTag) → MovesOfADrive a b }
{}

/// The places of a changer.
#[tactic(auto, unfolding(crate::specs::View::profile_of))]
pub fn places_of_a_changer()
    ensures { (a b : VolumeTag) → PlacesOfAChanger a b }
{}

/// Law: a device ends each command GOOD without sense data or by CHECK CONDITION with it, and only one that is GOOD tells other nexuses
/// something. In the default profile that is a MODE SELECT that changed the mode parameters. In the hosts' profile it is also a LOG SELECT
/// that reset counters, and a LOAD UNLOAD that made a volume ready.
pub fn ends_its_own_way()
    ensures ends { EndsItsOwnWay }
    ensures spec { SpecTellsOfModes }
{}

/// Law: a device stays of its kind, profile and identity, with as many data transfer elements, whatever it carries out, through a reset and
/// whatever is carried to and fro.
pub fn stays_the_same_device()
    ensures performed { StaysTheSameDevice }
    ensures reset { StaysTheSameByReset }
    ensures journey { StaysTheSameByJourneys }
    ensures exchange { StaysTheSameByExchanges }
{}

/// The marks of drives and changers: the tag of what is in a bay, and the tags noted at data transfer elements.
#[tactic(auto, unfolding(crate::specs::View::profile_of))]
pub fn marks_of_devices()
    ensures drives { (tag : VolumeTag) → MarksOfADrive tag }
    ensures changers { (a b : VolumeTag) → MarksOfAChanger a b }
{}

/// Law: no command, no reset and no journey that is noted changes what a changer notes of its drives, or takes the volume out of a drive.
pub fn marks_stay()
    ensures performed { CommandsKeepMarks }
    ensures reset { ResetsKeepMarks }
    ensures journey { JourneysKeepMarks }
    ensures exchange { ExchangesKeepMarks }
{}

/// Law: a volume that goes out of a drive or into it is the one that its mark tells, before or after. In and out of a changer's own
/// elements no mark changes. Each data transfer element takes a mark, and a mark that is set is the only one that changes.
pub fn marks_follow_volumes()
    ensures out_of_drive { DrivesGive }
    ensures into_drive { DrivesGet }
    ensures out_of_changer { ChangersGive }
    ensures into_changer { ChangersGet }
    ensures marked { MarksOne }
    ensures each { EachIsMarked }
{}

/// The volumes of drives and changers, each at its place, and what of a volume is the same.
#[tactic(auto, unfolding(crate::specs::View::profile_of))]
pub fn volumes_of_devices()
    ensures drives { (tag : VolumeTag) → VolumeOfADrive tag }
    ensures same { (tag : VolumeTag) → SameVolumes tag }
    ensures changers { (a b : VolumeTag) → VolumesOfAChanger a b }
{}

/// Law: each volume stays where it is through commands and resets, but by a MOVE MEDIUM that is GOOD, which carries just one, and an
/// EXCHANGE MEDIUM that is GOOD, which carries two. What is on a tape changes only by a WRITE, WRITE FILEMARKS or ERASE that is
/// carried out: that is GOOD, or ends at early warning.
pub fn volumes_stay_in_place()
    ensures drives { DrivesKeepTheirVolume }
    ensures tapes { DrivesKeepTheirTape }
    ensures changers { ChangersStay }
    ensures moves { MovesCarryOne }
    ensures exchanges { ExchangesCarryTwo }
    ensures reset { ResetsKeepVolumes }
{}

/// Law: what is taken out of a device is gone from its place, what is put in has come to its place, and nothing else has moved.
pub fn volumes_go_in_and_out()
    ensures takes { TakesOne }
    ensures puts { PutsOne }
    ensures marks { MarksMoveNothing }
    ensures journeys { JourneysMoveNothing }
    ensures exchanges { ExchangesThatAreNotedMoveNothing }
{}

ghost use Rattle.device_server.specs.FailureRows.{FailuresOfAChanger};
ghost use Rattle.device_server.specs.Failures.{DrivesNeverFail, ChangersFailForDrives};

/// Which sense data tells of an internal target failure, and the moves that a changer leaves to drives.
pub fn failures_of_a_changer()
    ensures { (a b : VolumeTag) → FailuresOfAChanger a b }
{}

/// Law: no drive ends a command by 44h/00h, and a changer just a MOVE MEDIUM or an EXCHANGE MEDIUM that its map and marks don't refuse
/// and that takes a volume out of a drive or into one.
pub fn fails_only_for_drives()
    ensures drives { DrivesNeverFail }
    ensures changers { ChangersFailForDrives }
{}

ghost use Rattle.device_server.specs.Settled.{SettlingChangesNothingElse, StaysTheSameWhenSettled};
ghost use Rattle.device_server.specs.SettledRows.{SettledDevices};

/// Law: settling a volume changes nothing else of a device, and a device of which nothing else changed is of its kind, profile and
/// identity still, with as many data transfer elements. What it does to a drive's volume and to a changer's.
pub fn settling_changes_nothing_else()
    ensures changes { SettlingChangesNothingElse }
    ensures same { StaysTheSameWhenSettled }
    ensures rows { (tag : VolumeTag) → SettledDevices tag }
{}

ghost use Rattle.device_server.specs.HostRows.{ReadinessForHosts, PositionsForHosts, ModesForHosts, CountersForHosts, LogsForHosts, CommandsForHosts, TransfersForHosts, ZonesOfVolumes, EarlyWarnings};
ghost use Rattle.device_server.specs.HostChangerRows.{JourneysForHosts, ExchangesForHosts, IdentitiesForHosts, AnswersOfAHostsChanger};

/// A drive of the hosts' profile: volumes that are ejected, held and loaded, and positions.
#[tactic(auto, unfolding(crate::specs::View::profile_of))]
pub fn readiness_for_hosts()
    ensures readiness { (tag : VolumeTag) → ReadinessForHosts tag }
    ensures positions { (tag : VolumeTag) → PositionsForHosts tag }
{}

/// Its modes.
#[tactic(auto, unfolding(crate::specs::View::profile_of, mode_pages::specs::DriveData::pages_shown, mode_pages::specs::Select::pages_taken))]
pub fn modes_for_hosts()
    ensures { (tag : VolumeTag) → ModesForHosts tag }
{}

/// Its counters, log pages and lists of commands.
#[tactic(auto, unfolding(crate::specs::View::profile_of, log_pages::specs::Parameters::parameters_from, log_pages::specs::Pages::tape_alert_flags, supported_commands::specs::Commands::table))]
pub fn logs_for_hosts()
    ensures counters { (tag : VolumeTag) → CountersForHosts tag }
    ensures logs { (tag : VolumeTag) → LogsForHosts tag }
    ensures commands { CommandsForHosts }
{}

/// How much it moves by one command, where its tapes warn of their end, and which writes are warned.
#[tactic(auto, unfolding(crate::specs::View::profile_of))]
pub fn early_warnings()
    ensures transfers { (tag : VolumeTag) → TransfersForHosts tag }
    ensures zones { ZonesOfVolumes }
    ensures warnings { (tag : VolumeTag) → EarlyWarnings tag }
{}

/// A changer of the hosts' profile: from where volumes came, and which drives there are.
#[tactic(auto, unfolding(crate::specs::View::profile_of, hex::specs::Hex::encode_with))]
pub fn journeys_for_hosts()
    ensures journeys { (a : VolumeTag) → JourneysForHosts a }
    ensures exchanges { (a b : VolumeTag) → ExchangesForHosts a b }
    ensures identities { (a : VolumeTag) → IdentitiesForHosts a }
{}

/// Its modes, log pages and lists of commands.
#[tactic(auto, unfolding(crate::specs::View::profile_of, mode_pages::specs::ChangerData::pages_shown, supported_commands::specs::Commands::table))]
pub fn answers_of_a_hosts_changer()
    ensures { (a : VolumeTag) → AnswersOfAHostsChanger a }
{}

ghost use Rattle.device_server.specs.ByProfile.{FieldsOfSpec, DrivesOfSpec, DrivesOfSpecNeverWarn, ChangersOfSpec, IdentitiesAreOfHosts, FieldsDecideHostCommands, FieldsDecideModeSelect, FieldsDecideModeSense, ModeSelectTellsChanges};

/// Law: a device without an identity is of the default profile. What fields refuse there, and the steps of its drives and changers, are the
/// definitions that know of no other profile. Such a drive never warns of the end of its tape.
pub fn default_profile_is_as_it_was()
    ensures fields { FieldsOfSpec }
    ensures drives { DrivesOfSpec }
    ensures warnings { DrivesOfSpecNeverWarn }
    ensures changers { ChangersOfSpec }
    ensures identities { IdentitiesAreOfHosts }
{}

/// Law: a drive of the hosts' profile carries out each command that this profile alone has, each MODE SELECT and each MODE SENSE, unless
/// fields refuse it. A MODE SELECT tells the others just where it changed a value.
pub fn fields_decide_for_hosts()
    ensures commands { FieldsDecideHostCommands }
    ensures mode_select { FieldsDecideModeSelect }
    ensures mode_sense { FieldsDecideModeSense }
    ensures told { ModeSelectTellsChanges }
{}
