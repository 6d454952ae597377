ghost use Rattle.target_laws.specs.Failures.{NeverFails};

/// In no run of a target does a reply tell of an internal target failure, 44h/00h: its marks agree
/// with its drives.
pub fn never_fails()
    ensures { NeverFails }
{}

ghost use Rattle.target_laws.specs.Volumes.{VolumesStay};

/// In every run of a target each event leaves every volume where it stands, the same volume, but
/// where a MOVE MEDIUM that is GOOD carried one: that has left its source and stands at its
/// destination, and no other has moved; or an EXCHANGE MEDIUM two. Where a tape stands is changed by its drive alone, and what is
/// on it by a WRITE, WRITE FILEMARKS or ERASE of its drive that is carried out.
pub fn volumes_stay()
    ensures { VolumesStay }
{}

ghost use Rattle.std.specs.Global.{Global};
ghost use Rattle.target_laws.specs.LibraryRows.{sent, sent_out, IsSent, PlacesOfATarget, MovedRun, OtherEvents, NotKept, OtherCartridges, FailedRun};

/// The places of a target; a run in which a volume is moved into a drive, written on and moved out
/// again; what keeps no volumes and no cartridges; and units that fail since their marks aren't true.
pub fn worked_moves()
    ensures places { PlacesOfATarget }
    ensures sent { (heap : Global) → IsSent sent }
    ensures run { MovedRun }
    ensures events { OtherEvents }
    ensures not_kept { NotKept }
    ensures other_cartridges { OtherCartridges }
    ensures sent_out { (heap : Global) → IsSent sent_out }
    ensures failure { FailedRun }
{}

ghost use Rattle.target_laws.specs.Cartridges.{CartridgesStay};

/// After every run of a target there are the cartridges that were there before it, each as often, in
/// the changer's elements and the drives together: none is lost, doubled or made.
pub fn cartridges_stay()
    ensures { CartridgesStay }
{}
