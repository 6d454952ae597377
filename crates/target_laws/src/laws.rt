ghost use Rattle.target_laws.specs.Headline.{Headline};
ghost use Rattle.target_laws.specs.BusyRows.{WhenBusy};
ghost use Rattle.target_laws.specs.HeadlineRows.{FourAreAsked, AreDecided, NotRefused, NotDecided, NotServed};
ghost use Rattle.target_laws.specs.CarriedRows.{VolumeGoes, VolumeDoesNotGo, MoveIsNotServed, MoveStops, NoDriveMoves};
ghost use Rattle.target_laws.specs.ExchangeRows.{VolumesCross, VolumesDoNotCross, VolumesNotExchanged, ExchangeStops};
ghost use Rattle.target_laws.specs.Rows.{sent, IsSent, WorkedRun, BusyRuns, LossesAndResets, UnitsOfATarget, MarksOfATarget, MarksByTag};
ghost use Rattle.std.specs.Global.{Global};
ghost use Rattle.tape_medium.specs.declared.volume.VolumeTag.{VolumeTag};
ghost use Rattle.target_core.specs.Laws.{AcceptedHistory, RunsJoin};

/// In every run the registrations, the reservation and the generation of a unit are those of its
/// accepted history: the PERSISTENT RESERVE OUT commands to it that ended GOOD, oldest first, taken
/// one after another from what stood at first.
pub fn accepted_history()
    ensures { AcceptedHistory }
{}

/// A run of some events and then a run of others is a run of all of them.
pub fn runs_one_after_another()
    ensures { RunsJoin }
{}

/// In every run each command to a unit that is there is answered BUSY, with nothing changed, as it
/// must be where no slot or no number is left, or is decided by what the accepted acts before it left
/// at that unit, by the permission table and the rules on keys: of the commands that come to the check
/// RESERVATION CONFLICT meets exactly those that they don't allow, and changes nothing but the contact
/// and the record. A MOVE MEDIUM that names drives ends as they decide: one volume goes from its source
/// to its destination, or none can; and an EXCHANGE MEDIUM by its steps.
pub fn headline()
    ensures { Headline }
{}

/// A run in which a command is denied, one allowed, and one barred by a rule on keys; runs that must be
/// answered BUSY; losses and resets.
pub fn worked_run()
    ensures sent { (heap : Global) → IsSent sent }
    ensures run { WorkedRun }
    ensures busy { BusyRuns }
    ensures events { (tag : VolumeTag) → LossesAndResets tag }
{}

/// Commands and losses that may be BUSY, and some that never are.
pub fn when_busy()
    ensures { WhenBusy }
{}

/// What the headline says of four commands where A holds Exclusive Access: one of A's is allowed, one of
/// B's denied, one barred by a rule on keys, and one shows what stands. Their run is one that it speaks
/// of; each is decided so, and isn't where the reply, the device, what is kept or a record is another.
pub fn worked_headline()
    ensures asked { FourAreAsked }
    ensures decided { (tag : VolumeTag) → AreDecided tag }
    ensures not_refused { (tag : VolumeTag) → NotRefused tag }
    ensures not_decided { (tag : VolumeTag) → NotDecided tag }
    ensures not_served { (tag : VolumeTag) → NotServed tag }
{}

/// What it says of a move with a drive: which volume goes, from which element to which, and that the
/// changer's other elements stay; what isn't such a move; and what is reported where none can go.
pub fn worked_carrying()
    ensures goes { VolumeGoes }
    ensures does_not_go { VolumeDoesNotGo }
    ensures not_served { MoveIsNotServed }
    ensures stops { MoveStops }
    ensures no_drive { NoDriveMoves }
{}

/// What it says of an exchange with a drive: which volumes go, from which elements to which, and that no
/// other moves; what isn't such an exchange; and what is reported where none can go.
pub fn worked_exchange()
    ensures cross { VolumesCross }
    ensures do_not_cross { VolumesDoNotCross }
    ensures not_exchanged { VolumesNotExchanged }
    ensures stops { ExchangeStops }
{}

/// Units that make a target, and why others don't.
#[tactic(auto, unfolding(device_server::specs::View::profile_of))]
pub fn worked_units()
    ensures units { UnitsOfATarget }
    ensures marks { (tag : VolumeTag) → MarksOfATarget tag }
    ensures tags { MarksByTag }
{}
