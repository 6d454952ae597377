//! Worked rows that the definitions compute to, and laws of every call. Each function has an empty body: its clause is the row or the law.

ghost use Rattle.tape_medium.specs.Rows.{ReadsOfOtherLength, SpacesBothWays, OverflowKeepsTape, UnchangedBeforeThePosition, ElementStatusOfOneDrive, MovesOfOneDrive, VolumesOfAChanger, StatusOfAPort, ElementsOfTwoDrives, TapesBySizes, LimitsOfProfiles};
ghost use Rattle.tape_medium.specs.Changes.{UnchangedStayInFront};
ghost use Rattle.tape_medium.specs.Volumes.{TakesOne, AddsOne, KeepsAll, NotesMoveNothing};
ghost use Rattle.tape_medium.specs.declared.volume.VolumeTag.{VolumeTag};

/// Reads that ask for more or fewer bytes than a block has, and reads at a filemark and at the end of data.
pub fn reads_of_other_length()
    ensures { ReadsOfOtherLength }
{}

/// Spacing over a block and a filemark, in both directions.
pub fn spaces_both_ways()
    ensures { SpacesBothWays }
{}

/// A write past the capacity leaves the tape, and what lies after the position doesn't count.
pub fn overflow_keeps_tape()
    ensures { OverflowKeepsTape }
{}

/// The longest blocks and the most objects of each profile, and one byte and one object more.
pub fn limits_of_profiles()
    ensures { LimitsOfProfiles }
{}

/// Law: whatever is done to a tape since it was settled, the objects that it tells to be unchanged are the first of those that it had
/// then. A write, an erasure and a move of the position, and what they leave unchanged of three objects.
pub fn unchanged_objects_stay_in_front()
    ensures stay { UnchangedStayInFront }
    ensures row { UnchangedBeforeThePosition }
{}

/// The parameter data of READ ELEMENT STATUS, and the moves, of a changer with one drive and two storage elements.
pub fn element_status()
    ensures status { ElementStatusOfOneDrive }
    ensures moves { (tag : VolumeTag) → MovesOfOneDrive tag }
    ensures port { (tag : VolumeTag) → StatusOfAPort tag }
{}

/// Elements where no host asks, and tapes by counts and sizes that no host sends.
pub fn asked_by_no_host()
    ensures elements { (tag : VolumeTag) → ElementsOfTwoDrives tag }
    ensures tapes { TapesBySizes }
{}

/// Law: no volume is lost and none comes from nowhere. Taking out takes just one out of a changer's elements, putting in adds just one, a
/// move leaves the same ones in other places, and a tag that is noted moves none.
pub fn volumes_stay()
    ensures takes { TakesOne }
    ensures adds { AddsOne }
    ensures moves { KeepsAll }
    ensures notes { NotesMoveNothing }
    ensures row { (a b : VolumeTag) → VolumesOfAChanger a b }
{}
