ghost use Rattle.unit_laws.specs.Check.{ReservationCheck};
ghost use Rattle.logical_unit.specs.History.{KeepsHistory, AnswersNoBusy};
ghost use Rattle.logical_unit.specs.Legal.{ConflictsAtTheCheck, TrailHistory};

/// A command that comes to the reservation check is carried out by its own rules exactly if its cell
/// of the permission table and the rules on keys allow it; else it ends in RESERVATION CONFLICT, and
/// the device, the registrations, the reservation and the generation stay as they were.
pub fn reservation_check()
    ensures { ReservationCheck }
{}

/// A command changes the registrations, the reservation and the generation exactly as an accepted
/// PERSISTENT RESERVE OUT does; every other command, and a refused one, leaves them.
pub fn accepted_commands()
    ensures { KeepsHistory }
{}

/// What judgement answers is never BUSY itself: a command is BUSY only where it isn't judged.
pub fn judged_is_not_busy()
    ensures { AnswersNoBusy }
{}

/// In a legal trail a record has RESERVATION CONFLICT exactly if the reservation check decided it.
pub fn conflicts_at_the_check()
    ensures { ConflictsAtTheCheck }
{}

/// In a legal trail the registrations, the reservation and the generation now are those of the base and
/// of the accepted history that the records show.
pub fn trail_shows_history()
    ensures { TrailHistory }
{}

ghost use Rattle.logical_unit.specs.Audit.{ShowsReservations, TrailsReplay};
ghost use Rattle.unit_laws.specs.AuditRows.{AuditLines};

/// In a legal trail the reservation in each line of `audit` is the one that the records before it leave of
/// what was kept before the first, and what a record accepted is allowed and not refused where it stands;
/// worked lines.
pub fn audit_shows_reservations()
    ensures lines { ShowsReservations }
    ensures replay { TrailsReplay }
    ensures rows { AuditLines }
{}

ghost use Rattle.logical_unit.specs.Move.{OneStays, TwoStay};

/// A MOVE MEDIUM leaves the changer and each drive that it names the same unit: of the same kind and size, with
/// its number, and with its registrations, its reservation and its generation.
pub fn moves_keep_units()
    ensures one { OneStays }
    ensures two { TwoStay }
{}

ghost use Rattle.tape_medium.specs.declared.volume.VolumeTag.{VolumeTag};
ghost use Rattle.unit_laws.specs.NumberRows.{NumbersRunOut};
ghost use Rattle.unit_laws.specs.Rows.{AtTheCheck, Unloading, Sensing, FirstContact, Preventing, RefusedMedia, RefusedAsDue, IllegalRecords, LegalRecords};

/// A command that the reservation check allows, one that it denies, and one that breaks a rule on keys.
pub fn decided_at_the_check()
    ensures { (tag : VolumeTag) → AtTheCheck tag }
{}

ghost use Rattle.unit_laws.specs.CheckRows.{BarredWrite, BarredRegister, AllowedWrite};

/// The answers to B's WRITE, to its REGISTER with a wrong key and to A's WRITE, each beside answers that
/// the reservation check doesn't give.
pub fn answers_at_the_check()
    ensures write { (tag : VolumeTag) → BarredWrite tag }
    ensures register { (tag : VolumeTag) → BarredRegister tag }
    ensures allowed { (tag : VolumeTag) → AllowedWrite tag }
{}

/// LOAD UNLOAD where removal is prevented, and PREVENT ALLOW MEDIUM REMOVAL by each of its values.
pub fn preventions()
    ensures unloading { (tag : VolumeTag) → Unloading tag }
    ensures preventing { (tag : VolumeTag) → Preventing tag }
{}

/// What REQUEST SENSE clears, and what a first contact leaves.
pub fn attentions()
    ensures sensing { (tag : VolumeTag) → Sensing tag }
    ensures contact { (tag : VolumeTag) → FirstContact tag }
{}

ghost use Rattle.unit_laws.specs.AttentionRows.{SenseOfAttentions, RaisedByEvents, RaisedByModeSelect, RaisedByReservations, PreventionsEnd};

/// The sense data of each attention, and whom a contact, a loss, a reset, a volume, a MODE SELECT and a
/// PERSISTENT RESERVE OUT tell of which.
pub fn told_attentions()
    ensures senses { (tag : VolumeTag) → SenseOfAttentions tag }
    ensures events { (tag : VolumeTag) → RaisedByEvents tag }
    ensures mode { (tag : VolumeTag) → RaisedByModeSelect tag }
    ensures reservations { (tag : VolumeTag) → RaisedByReservations tag }
{}

/// What ends a prevention of removal, and what doesn't.
pub fn preventions_end()
    ensures { (tag : VolumeTag) → PreventionsEnd tag }
{}

/// Volumes that aren't taken out, or put in.
pub fn refused_media()
    ensures faults { (tag : VolumeTag) → RefusedMedia tag }
    ensures due { (tag : VolumeTag) → RefusedAsDue tag }
    ensures ends { (tag : VolumeTag) → NumbersRunOut tag }
{}

/// Records that stand in a legal trail, and records that don't.
pub fn legal_and_illegal_records()
    ensures legal { LegalRecords }
    ensures illegal { IllegalRecords }
{}

ghost use Rattle.unit_laws.specs.TrailRows.{ConflictRecords, ReportsFirst, ReportsLater, ReportsAndConflicts, InvalidRecords, ModeRecords, RoomForSenders, MediumRecords, Trails};

/// Records of a legal trail, each beside neighbours that none has: conflicts, reports of attentions, bytes
/// that decode to no command, changed mode parameters, the sender that finds no slot, volumes; and whole trails.
pub fn records_of_legal_trails()
    ensures conflicts { ConflictRecords }
    ensures first { ReportsFirst }
    ensures later { ReportsLater }
    ensures both { ReportsAndConflicts }
    ensures invalid { InvalidRecords }
    ensures mode { ModeRecords }
    ensures room { RoomForSenders }
    ensures volumes { MediumRecords }
    ensures trails { Trails }
{}

ghost use Rattle.unit_laws.specs.MoveRows.{NamedDrives, IntoADrive, OutOfAReservedDrive, CarriedOrNot, MemoryOfCommands, RefusedMoves, AtAHeldChanger, BetweenDrives, NumbersOfRecords};

/// The drives that a MOVE MEDIUM names.
pub fn named_drives()
    ensures { NamedDrives }
{}

/// A MOVE MEDIUM into a drive, out of one whatever its reservation, and from one into another.
pub fn carried_volumes()
    ensures into { IntoADrive }
    ensures out { OutOfAReservedDrive }
    ensures between { BetweenDrives }
{}

/// Which moves with a drive carry a volume, and which of the device's commands takes no memory.
pub fn carried_or_not()
    ensures moves { CarriedOrNot }
    ensures memory { MemoryOfCommands }
{}

/// Moves that are refused for what is at the drive or at the changer, with no volume moved.
pub fn refused_moves()
    ensures drives { RefusedMoves }
    ensures changer { AtAHeldChanger }
{}

/// The numbers of the records that a move leaves.
pub fn numbers_of_records()
    ensures { NumbersOfRecords }
{}

ghost use Rattle.unit_laws.specs.ExchangeRows.{NamedByExchanges, GivenEnds, ThroughADrive, SwappedWithADrive, OutOfADrive, IntoADriveBehind, RefusedExchanges, BetweenTwoDrives};

/// The drive that an EXCHANGE MEDIUM names, and where the volume ends that a drive gives.
pub fn ends_of_exchanges()
    ensures names { NamedByExchanges }
    ensures ends { GivenEnds }
{}

/// An EXCHANGE MEDIUM with a drive at each of its places, whatever the drive's reservation.
pub fn exchanged_volumes()
    ensures through { ThroughADrive }
    ensures swapped { SwappedWithADrive }
    ensures out { OutOfADrive }
    ensures into { IntoADriveBehind }
{}

/// Exchanges that are refused for what is at the drive or at the changer, with no volume moved.
pub fn refused_exchanges()
    ensures drive { RefusedExchanges }
    ensures two_drives { BetweenTwoDrives }
{}

ghost use Rattle.unit_laws.specs.CallRows.{ActKindRows, AtOnceRows, CountRows};

/// Worked rows: what an entry keeps of an act, and the numbers of records by unit.
pub fn numbers_of_calls()
    ensures kinds { ActKindRows }
    ensures numbers { CountRows }
{}

/// Worked rows: which commands' replies needn't wait for the medium.
#[tactic(auto, unfolding(scsi_cdb::specs::Commands::command_of))]
pub fn commands_at_once()
    ensures { AtOnceRows }
{}
