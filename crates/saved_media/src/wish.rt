ghost use Rattle.std.specs.Prelude.{◌≡◌};
ghost use Rattle.saved_media.specs.Wishes.{wish_of};

use scsi_cdb::Class;

/// What is to be kept of a command that was carried out.
#[derive(Clone, Copy)]
pub(crate) enum Wish {
    Nothing,
    /// Objects were written, which are copied in the background.
    Behind,
    /// All of the volume in the drive, before the reply goes out.
    Volume,
    /// The same, but the reply doesn't wait for it.
    VolumeBehind,
    /// All of the volume that was moved, of an exchange the one that a drive gave, and where the volumes are, before the reply goes out.
    Move,
}

/// WRITE(6) is copied in the background (SSC-4, "WRITE(6) command"). WRITE FILEMARKS(6), also of none, ERASE(6), LOAD UNLOAD, MOVE MEDIUM and
/// EXCHANGE MEDIUM are kept before they are answered: a host takes what is before them for written (SSC-4, "WRITE FILEMARKS(6) command", and
/// profile). With IMMED a WRITE FILEMARKS(6) is kept as soon, but not waited for. No other changes a tape, or where a volume is.
pub(crate) fn wish_of(class: Class, is_immediate: bool) -> Wish
    ensures { result ≡ wish_of class is_immediate }
{
    match class {
        Class::Write => Wish::Behind,
        Class::WriteFilemarks if is_immediate => Wish::VolumeBehind,
        Class::WriteFilemarks | Class::Erase | Class::LoadUnload => Wish::Volume,
        Class::MoveMedium | Class::ExchangeMedium => Wish::Move,
        Class::TestUnitReady
        | Class::RequestSense
        | Class::Inquiry
        | Class::ReportLuns
        | Class::PersistentReserveIn
        | Class::AllowRemoval
        | Class::ReadBlockLimits
        | Class::ReadPosition
        | Class::ReadElementStatusCurdata
        | Class::ModeSense
        | Class::Read
        | Class::Space
        | Class::Locate
        | Class::Rewind
        | Class::ReadElementStatus
        | Class::ModeSelect
        | Class::PreventRemoval
        | Class::InitializeElementStatus
        | Class::Register
        | Class::RegisterAndIgnoreExistingKey
        | Class::Clear
        | Class::Preempt
        | Class::PreemptAndAbort
        | Class::Release
        | Class::Reserve
        | Class::RegisterAndMove
        | Class::SendDiagnostic
        | Class::LogSelect
        | Class::LogSense
        | Class::ModeSelect10
        | Class::ModeSense10
        | Class::ReportSupportedOperationCodes
        | Class::ReportSupportedTaskManagementFunctions
        | Class::PositionToElement => Wish::Nothing,
    }
}
