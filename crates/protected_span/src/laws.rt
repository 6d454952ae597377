ghost use Rattle.protected_span.specs.Contents.{OutsiderChangesNothing};
ghost use Rattle.protected_span.specs.Reached.{PowerOnIsReached, DrainedIsReached, RunsReach, AllAreReached};
ghost use Rattle.protected_span.specs.Rows.{WorkedSpan, StruckOut, ConditionsAreNeeded, ConditionsSay, MayNot, Contents};
ghost use Rattle.protected_span.specs.StruckRows.{WorkedRuns, WorkedGroupRuns, NoSteps, SameReplies, ToldAlike, EndingAlike};
ghost use Rattle.arrayvec.specs.ArrayVec.{ArrayVec};
ghost use Rattle.std.specs.Global.{Vec};
ghost use Rattle.std.specs.Prelude.{ℕ};
ghost use Rattle.tape_medium.specs.declared.volume.VolumeTag.{VolumeTag};
ghost use Rattle.protected_span.specs.Span.{HolderSpan, GroupSpan, RegistersItself, SpansAreRuns, SpansServe};

/// While a nexus holds Exclusive Access on a unit, and sends there no PREEMPT, no REGISTER AND MOVE and
/// no REGISTER but of itself, the other nexuses' commands to the unit can be struck out of the run: each
/// of its commands is answered with the same status, sense and data (PERSISTENT RESERVE IN: status and
/// sense), each event at another unit by the very same reply; the unit's device is the same at the end,
/// and each other unit, whole. The numbers of the unit's own records may differ.
pub fn holder_span()
    ensures { HolderSpan }
{}

/// The same of a group that shares Exclusive Access, while the registered nexuses are those inside: the
/// commands of all others can be struck out, and PERSISTENT RESERVE IN too is answered the same.
pub fn group_span()
    ensures { GroupSpan }
{}

/// What is left of a span can be served without a BUSY: struck commands only free slots and numbers.
pub fn spans_serve()
    ensures { SpansServe }
{}

/// A span is a run of the target, moves among its events.
pub fn spans_are_runs()
    ensures { SpansAreRuns }
{}

/// A command of a nexus to which the permission table closes the changing classes leaves what is in the
/// unit: of a drive the volume (tag, protection, objects, capacity), whether it is loaded and the block
/// length, of a changer its elements; in the hosts' profile also which unit it is, whether its volume is
/// held, the compression, and from where volumes came. The position may move, and counters may grow.
/// Every other unit it leaves whole.
pub fn outsider_changes_nothing()
    ensures { OutsiderChangesNothing }
{}

/// A unit is at power on, after each event of each run, and once its records are handed out, as the laws
/// of spans ask it to be: its registrations and its reservation are what some PERSISTENT RESERVE OUT
/// commands leave from power on, and its slots ascend and are no more than 128. So are all units that a
/// target can have: those at power on, and what events and drained records, in any order, make of them.
pub fn units_are_reached()
    ensures power_on { PowerOnIsReached }
    ensures drained { DrainedIsReached }
    ensures runs { RunsReach }
    ensures all { AllAreReached }
{}

/// A span with its commands struck out, step by step; what each condition of a span rules out, and
/// that the conditions say so; who may not change what is in a unit, and what counts as the same.
pub fn span_rows()
    ensures worked { (tag : VolumeTag) → WorkedSpan tag }
    ensures struck { (cdb : ArrayVec ℕ) (bytes : Vec ℕ) → StruckOut cdb bytes }
    ensures needed { (tag : VolumeTag) → ConditionsAreNeeded tag }
    ensures conditions { (tag : VolumeTag) → ConditionsSay tag }
    ensures may_not { MayNot }
    ensures contents { (tag : VolumeTag) → Contents tag }
{}

/// A run of a changer and a drive that is a span, of A and of a group, with its struck run; beside it what
/// is no step of a span, and replies, answers and endings that aren't alike.
pub fn struck_rows()
    ensures holder { (tag : VolumeTag) (bytes : Vec ℕ) → WorkedRuns tag bytes }
    ensures group { (tag : VolumeTag) (bytes : Vec ℕ) → WorkedGroupRuns tag bytes }
    ensures steps { (tag : VolumeTag) (bytes : Vec ℕ) → NoSteps tag bytes }
    ensures replies { SameReplies }
    ensures told { (bytes : Vec ℕ) → ToldAlike bytes }
    ensures ending { (tag : VolumeTag) → EndingAlike tag }
{}

/// A REGISTER list with neither SPEC_I_PT nor ALL_TG_PT names its sender alone, as a span's holder may
/// send it.
pub fn registers_itself()
    ensures { RegistersItself }
{}
