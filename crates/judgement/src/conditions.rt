ghost use Rattle.std.specs.Prelude.{◌≡◌};
ghost use Rattle.judgement.specs.Conditions.{condition_of_fault, condition_of_attention, condition_of_refusal};

use permit_tables::PrFault;
use scsi_cdb::CdbFault;
use scsi_sense::Condition;
use unit_attention::Kind;

/// What is reported of a CDB that decodes to no command of the unit.
pub fn condition_of_fault(fault: CdbFault) -> Condition
    ensures { result ≡ condition_of_fault fault }
{
    match fault {
        CdbFault::Opcode => Condition::InvalidCommandOperationCode,
        CdbFault::ShortCdb | CdbFault::ServiceAction | CdbFault::Naca =>
            Condition::InvalidFieldInCdb,
    }
}

/// What is reported of a pending unit attention.
pub fn condition_of_attention(kind: Kind) -> Condition
    ensures { result ≡ condition_of_attention kind }
{
    match kind {
        Kind::PowerOn => Condition::PowerOnOrResetOccurred,
        Kind::BusDeviceReset => Condition::BusDeviceResetFunctionOccurred,
        Kind::NexusLoss => Condition::NexusLossOccurred,
        Kind::MediumChanged => Condition::NotReadyToReadyChange,
        Kind::ModeParametersChanged => Condition::ModeParametersChanged,
        Kind::LogParametersChanged => Condition::LogParametersChanged,
        Kind::ReservationsPreempted => Condition::ReservationsPreempted,
        Kind::ReservationsReleased => Condition::ReservationsReleased,
        Kind::RegistrationsPreempted => Condition::RegistrationsPreempted,
    }
}

/// What is reported of a PERSISTENT RESERVE OUT command that is refused.
pub fn condition_of_refusal(fault: PrFault) -> Condition
    ensures { result ≡ condition_of_refusal fault }
{
    match fault {
        PrFault::InvalidField => Condition::InvalidFieldInCdb,
        PrFault::InvalidParam => Condition::InvalidFieldInParameterList,
        PrFault::InvalidRelease => Condition::InvalidReleaseOfPersistentReservation,
        PrFault::NoRegistrationRoom => Condition::InsufficientRegistrationResources,
    }
}
