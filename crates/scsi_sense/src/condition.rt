ghost use Rattle.std.specs.Prelude.{◌≡◌, ℕ, Some};

use std::fmt;

/// What a command may have to report, by sense key and additional sense code with its qualifier
/// (SPC-4, "Sense key and additional sense code definitions").
#[derive(Clone, Copy)]
pub enum Condition {
    /// NO SENSE, 00h/00h.
    NoAdditionalSenseInformation,
    /// NO SENSE, 00h/01h.
    FilemarkDetected,
    /// NO SENSE, 00h/02h: END-OF-PARTITION/MEDIUM DETECTED, by a write that was carried out and ended at early warning.
    EarlyWarning,
    /// NO SENSE, 00h/04h: BEGINNING-OF-PARTITION/MEDIUM DETECTED.
    BeginningOfMediumDetected,
    /// NOT READY, 04h/02h: LOGICAL UNIT NOT READY, INITIALIZING COMMAND REQUIRED.
    InitializingCommandRequired,
    /// NOT READY, 3Ah/00h.
    MediumNotPresent,
    /// HARDWARE ERROR, 44h/00h.
    InternalTargetFailure,
    /// ILLEGAL REQUEST, 1Ah/00h.
    ParameterListLengthError,
    /// ILLEGAL REQUEST, 20h/00h.
    InvalidCommandOperationCode,
    /// ILLEGAL REQUEST, 21h/01h.
    InvalidElementAddress,
    /// ILLEGAL REQUEST, 24h/00h.
    InvalidFieldInCdb,
    /// ILLEGAL REQUEST, 25h/00h.
    LogicalUnitNotSupported,
    /// ILLEGAL REQUEST, 26h/00h.
    InvalidFieldInParameterList,
    /// ILLEGAL REQUEST, 26h/04h.
    InvalidReleaseOfPersistentReservation,
    /// ILLEGAL REQUEST, 39h/00h.
    SavingParametersNotSupported,
    /// ILLEGAL REQUEST, 3Bh/0Dh.
    MediumDestinationElementFull,
    /// ILLEGAL REQUEST, 3Bh/0Eh.
    MediumSourceElementEmpty,
    /// ILLEGAL REQUEST, 53h/02h.
    MediumRemovalPrevented,
    /// ILLEGAL REQUEST, 55h/04h.
    InsufficientRegistrationResources,
    /// UNIT ATTENTION, 28h/00h: NOT READY TO READY CHANGE, MEDIUM MAY HAVE CHANGED.
    NotReadyToReadyChange,
    /// UNIT ATTENTION, 29h/00h: POWER ON, RESET, OR BUS DEVICE RESET OCCURRED.
    PowerOnOrResetOccurred,
    /// UNIT ATTENTION, 29h/03h.
    BusDeviceResetFunctionOccurred,
    /// UNIT ATTENTION, 29h/07h: I_T NEXUS LOSS OCCURRED.
    NexusLossOccurred,
    /// UNIT ATTENTION, 2Ah/01h.
    ModeParametersChanged,
    /// UNIT ATTENTION, 2Ah/02h.
    LogParametersChanged,
    /// UNIT ATTENTION, 2Ah/03h.
    ReservationsPreempted,
    /// UNIT ATTENTION, 2Ah/04h.
    ReservationsReleased,
    /// UNIT ATTENTION, 2Ah/05h.
    RegistrationsPreempted,
    /// DATA PROTECT, 27h/00h.
    WriteProtected,
    /// BLANK CHECK, 00h/05h.
    EndOfDataDetected,
    /// VOLUME OVERFLOW, 00h/02h: END-OF-PARTITION/MEDIUM DETECTED.
    EndOfMediumDetected,
}

impl Condition {
    ghost use Rattle.scsi_sense.specs.Text.{condition_name};

    /// The condition in the standard's words (SPC-4, "Additional sense code and additional sense
    /// code qualifier").
    pub fn text(self) -> &'static str
        ensures { result.now ≡ condition_name self }
    {
        match self {
            Condition::NoAdditionalSenseInformation => "NO ADDITIONAL SENSE INFORMATION",
            Condition::FilemarkDetected => "FILEMARK DETECTED",
            Condition::EarlyWarning => "END-OF-PARTITION/MEDIUM DETECTED",
            Condition::BeginningOfMediumDetected => "BEGINNING-OF-PARTITION/MEDIUM DETECTED",
            Condition::InitializingCommandRequired =>
                "LOGICAL UNIT NOT READY, INITIALIZING COMMAND REQUIRED",
            Condition::MediumNotPresent => "MEDIUM NOT PRESENT",
            Condition::InternalTargetFailure => "INTERNAL TARGET FAILURE",
            Condition::ParameterListLengthError => "PARAMETER LIST LENGTH ERROR",
            Condition::InvalidCommandOperationCode => "INVALID COMMAND OPERATION CODE",
            Condition::InvalidElementAddress => "INVALID ELEMENT ADDRESS",
            Condition::InvalidFieldInCdb => "INVALID FIELD IN CDB",
            Condition::LogicalUnitNotSupported => "LOGICAL UNIT NOT SUPPORTED",
            Condition::InvalidFieldInParameterList => "INVALID FIELD IN PARAMETER LIST",
            Condition::InvalidReleaseOfPersistentReservation =>
                "INVALID RELEASE OF PERSISTENT RESERVATION",
            Condition::SavingParametersNotSupported => "SAVING PARAMETERS NOT SUPPORTED",
            Condition::MediumDestinationElementFull => "MEDIUM DESTINATION ELEMENT FULL",
            Condition::MediumSourceElementEmpty => "MEDIUM SOURCE ELEMENT EMPTY",
            Condition::MediumRemovalPrevented => "MEDIUM REMOVAL PREVENTED",
            Condition::InsufficientRegistrationResources => "INSUFFICIENT REGISTRATION RESOURCES",
            Condition::NotReadyToReadyChange =>
                "NOT READY TO READY CHANGE, MEDIUM MAY HAVE CHANGED",
            Condition::PowerOnOrResetOccurred => "POWER ON, RESET, OR BUS DEVICE RESET OCCURRED",
            Condition::BusDeviceResetFunctionOccurred => "BUS DEVICE RESET FUNCTION OCCURRED",
            Condition::NexusLossOccurred => "I_T NEXUS LOSS OCCURRED",
            Condition::ModeParametersChanged => "MODE PARAMETERS CHANGED",
            Condition::LogParametersChanged => "LOG PARAMETERS CHANGED",
            Condition::ReservationsPreempted => "RESERVATIONS PREEMPTED",
            Condition::ReservationsReleased => "RESERVATIONS RELEASED",
            Condition::RegistrationsPreempted => "REGISTRATIONS PREEMPTED",
            Condition::WriteProtected => "WRITE PROTECTED",
            Condition::EndOfDataDetected => "END-OF-DATA DETECTED",
            Condition::EndOfMediumDetected => "END-OF-PARTITION/MEDIUM DETECTED",
        }
    }
}

impl fmt::Display for Condition {
    ghost use Rattle.scsi_sense.specs.Text.{condition_name};

    ghost output = { λ condition. Some (condition_name condition) };

    fn fmt<W: fmt::Write>(&self, f: &mut fmt::Formatter<W>) -> fmt::Result {
        f.write_str(self.text())
    }
}
