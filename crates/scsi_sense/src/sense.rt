ghost use Rattle.std.specs.Prelude.{◌≡◌, ◌<◌, ◌↔◌, IsTrue};
ghost use Rattle.scsi_sense.specs.Bits.{bit, flag};

use crate::condition::Condition;
use crate::fault::SenseFault;
use crate::layout::*;
use byteorder::{BigEndian, ByteOrder};

/// What CHECK CONDITION and REQUEST SENSE report (SPC-4, "Fixed format sense data").
#[derive(Clone, Copy)]
pub struct Sense {
    /// INFORMATION is defined.
    pub valid: bool,
    pub filemark: bool,
    /// EOM, end of medium.
    pub eom: bool,
    /// ILI, incorrect length indicator.
    pub ili: bool,
    /// SENSE KEY: 4 bits.
    pub key: u8,
    pub information: u32,
    /// ADDITIONAL SENSE CODE.
    pub asc: u8,
    /// ADDITIONAL SENSE CODE QUALIFIER.
    pub ascq: u8,
}

impl Sense {
    ghost use Rattle.scsi_sense.specs.FixedSense.{fixed_sense, decoded_sense};
    ghost use Rattle.scsi_sense.specs.Conditions.{reports, sense_for, IsConditionOf};
    ghost use Rattle.scsi_sense.specs.declared.condition.Condition.TheVariants.{NoAdditionalSenseInformation};

    /// The sense data of a condition, with VALID, FILEMARK, EOM and ILI off and INFORMATION 0.
    pub fn of(condition: Condition) -> Sense
        ensures { result ≡ sense_for condition }
    {
        match condition {
            Condition::NoAdditionalSenseInformation => Sense::with(NO_SENSE, 0x00, 0x00),
            Condition::FilemarkDetected => Sense::with(NO_SENSE, 0x00, 0x01),
            Condition::EarlyWarning => Sense::with(NO_SENSE, 0x00, 0x02),
            Condition::BeginningOfMediumDetected => Sense::with(NO_SENSE, 0x00, 0x04),
            Condition::InitializingCommandRequired => Sense::with(NOT_READY, 0x04, 0x02),
            Condition::MediumNotPresent => Sense::with(NOT_READY, 0x3A, 0x00),
            Condition::InternalTargetFailure => Sense::with(HARDWARE_ERROR, 0x44, 0x00),
            Condition::ParameterListLengthError => Sense::with(ILLEGAL_REQUEST, 0x1A, 0x00),
            Condition::InvalidCommandOperationCode => Sense::with(ILLEGAL_REQUEST, 0x20, 0x00),
            Condition::InvalidElementAddress => Sense::with(ILLEGAL_REQUEST, 0x21, 0x01),
            Condition::InvalidFieldInCdb => Sense::with(ILLEGAL_REQUEST, 0x24, 0x00),
            Condition::LogicalUnitNotSupported => Sense::with(ILLEGAL_REQUEST, 0x25, 0x00),
            Condition::InvalidFieldInParameterList => Sense::with(ILLEGAL_REQUEST, 0x26, 0x00),
            Condition::InvalidReleaseOfPersistentReservation => {
                Sense::with(ILLEGAL_REQUEST, 0x26, 0x04)
            }
            Condition::SavingParametersNotSupported => Sense::with(ILLEGAL_REQUEST, 0x39, 0x00),
            Condition::MediumDestinationElementFull => Sense::with(ILLEGAL_REQUEST, 0x3B, 0x0D),
            Condition::MediumSourceElementEmpty => Sense::with(ILLEGAL_REQUEST, 0x3B, 0x0E),
            Condition::MediumRemovalPrevented => Sense::with(ILLEGAL_REQUEST, 0x53, 0x02),
            Condition::InsufficientRegistrationResources => {
                Sense::with(ILLEGAL_REQUEST, 0x55, 0x04)
            }
            Condition::NotReadyToReadyChange => Sense::with(UNIT_ATTENTION, 0x28, 0x00),
            Condition::PowerOnOrResetOccurred => Sense::with(UNIT_ATTENTION, 0x29, 0x00),
            Condition::BusDeviceResetFunctionOccurred => Sense::with(UNIT_ATTENTION, 0x29, 0x03),
            Condition::NexusLossOccurred => Sense::with(UNIT_ATTENTION, 0x29, 0x07),
            Condition::ModeParametersChanged => Sense::with(UNIT_ATTENTION, 0x2A, 0x01),
            Condition::LogParametersChanged => Sense::with(UNIT_ATTENTION, 0x2A, 0x02),
            Condition::ReservationsPreempted => Sense::with(UNIT_ATTENTION, 0x2A, 0x03),
            Condition::ReservationsReleased => Sense::with(UNIT_ATTENTION, 0x2A, 0x04),
            Condition::RegistrationsPreempted => Sense::with(UNIT_ATTENTION, 0x2A, 0x05),
            Condition::WriteProtected => Sense::with(DATA_PROTECT, 0x27, 0x00),
            Condition::EndOfDataDetected => Sense::with(BLANK_CHECK, 0x00, 0x05),
            Condition::EndOfMediumDetected => Sense::with(VOLUME_OVERFLOW, 0x00, 0x02),
        }
    }

    /// The sense data where there is nothing to report.
    pub fn none() -> Sense
        ensures { result ≡ sense_for NoAdditionalSenseInformation }
    {
        Sense::of(Condition::NoAdditionalSenseInformation)
    }

    /// The condition that has the sense key, the additional sense code and its qualifier of the
    /// sense data, if one has. The other fields play no part.
    pub fn condition(&self) -> Option<Condition>
        ensures { IsConditionOf self.now result }
    {
        match (self.key, self.asc, self.ascq) {
            (NO_SENSE, 0x00, 0x00) => Some(Condition::NoAdditionalSenseInformation),
            (NO_SENSE, 0x00, 0x01) => Some(Condition::FilemarkDetected),
            (NO_SENSE, 0x00, 0x02) => Some(Condition::EarlyWarning),
            (NO_SENSE, 0x00, 0x04) => Some(Condition::BeginningOfMediumDetected),
            (NOT_READY, 0x04, 0x02) => Some(Condition::InitializingCommandRequired),
            (NOT_READY, 0x3A, 0x00) => Some(Condition::MediumNotPresent),
            (HARDWARE_ERROR, 0x44, 0x00) => Some(Condition::InternalTargetFailure),
            (ILLEGAL_REQUEST, 0x1A, 0x00) => Some(Condition::ParameterListLengthError),
            (ILLEGAL_REQUEST, 0x20, 0x00) => Some(Condition::InvalidCommandOperationCode),
            (ILLEGAL_REQUEST, 0x21, 0x01) => Some(Condition::InvalidElementAddress),
            (ILLEGAL_REQUEST, 0x24, 0x00) => Some(Condition::InvalidFieldInCdb),
            (ILLEGAL_REQUEST, 0x25, 0x00) => Some(Condition::LogicalUnitNotSupported),
            (ILLEGAL_REQUEST, 0x26, 0x00) => Some(Condition::InvalidFieldInParameterList),
            (ILLEGAL_REQUEST, 0x26, 0x04) => Some(Condition::InvalidReleaseOfPersistentReservation),
            (ILLEGAL_REQUEST, 0x39, 0x00) => Some(Condition::SavingParametersNotSupported),
            (ILLEGAL_REQUEST, 0x3B, 0x0D) => Some(Condition::MediumDestinationElementFull),
            (ILLEGAL_REQUEST, 0x3B, 0x0E) => Some(Condition::MediumSourceElementEmpty),
            (ILLEGAL_REQUEST, 0x53, 0x02) => Some(Condition::MediumRemovalPrevented),
            (ILLEGAL_REQUEST, 0x55, 0x04) => Some(Condition::InsufficientRegistrationResources),
            (UNIT_ATTENTION, 0x28, 0x00) => Some(Condition::NotReadyToReadyChange),
            (UNIT_ATTENTION, 0x29, 0x00) => Some(Condition::PowerOnOrResetOccurred),
            (UNIT_ATTENTION, 0x29, 0x03) => Some(Condition::BusDeviceResetFunctionOccurred),
            (UNIT_ATTENTION, 0x29, 0x07) => Some(Condition::NexusLossOccurred),
            (UNIT_ATTENTION, 0x2A, 0x01) => Some(Condition::ModeParametersChanged),
            (UNIT_ATTENTION, 0x2A, 0x02) => Some(Condition::LogParametersChanged),
            (UNIT_ATTENTION, 0x2A, 0x03) => Some(Condition::ReservationsPreempted),
            (UNIT_ATTENTION, 0x2A, 0x04) => Some(Condition::ReservationsReleased),
            (UNIT_ATTENTION, 0x2A, 0x05) => Some(Condition::RegistrationsPreempted),
            (DATA_PROTECT, 0x27, 0x00) => Some(Condition::WriteProtected),
            (BLANK_CHECK, 0x00, 0x05) => Some(Condition::EndOfDataDetected),
            (VOLUME_OVERFLOW, 0x00, 0x02) => Some(Condition::EndOfMediumDetected),
            _ => None,
        }
    }

    /// The 18 bytes. Of the key only the low four bits are written, and INFORMATION only with
    /// VALID.
    pub fn to_bytes(&self) -> [u8; SENSE_LENGTH]
        ensures { result ≡ fixed_sense self.now }
    {
        let marks = flag_at(FILEMARK_BIT, self.filemark)
            + flag_at(EOM_BIT, self.eom)
            + flag_at(ILI_BIT, self.ili);
        let mut bytes = [0; SENSE_LENGTH];
        bytes[RESPONSE_CODE] = flag_at(VALID_BIT, self.valid) + CURRENT_FIXED;
        bytes[MARKS_AND_KEY] = marks + (self.key & SENSE_KEY_BITS);
        if self.valid {
            BigEndian::write_u32(&mut bytes[INFORMATION..], self.information);
        }
        bytes[ADDITIONAL_SENSE_LENGTH] = BYTES_THAT_FOLLOW;
        bytes[ADDITIONAL_SENSE_CODE] = self.asc;
        bytes[ADDITIONAL_SENSE_CODE_QUALIFIER] = self.ascq;
        bytes
    }

    /// The sense that the bytes decode to, with or without VALID. What follows the 18 bytes, and each
    /// bit that is no field, is ignored.
    pub fn from_bytes(bytes: &[u8]) -> Result<Sense, SenseFault>
        ensures { result ≡ decoded_sense bytes.now }
    {
        if bytes.len() < SENSE_LENGTH {
            return Err(SenseFault::Short);
        }
        if bytes[RESPONSE_CODE] & RESPONSE_CODE_BITS != CURRENT_FIXED {
            return Err(SenseFault::NotFixed);
        }
        Ok(Sense {
            valid: is_set(bytes[RESPONSE_CODE], VALID_BIT),
            filemark: is_set(bytes[MARKS_AND_KEY], FILEMARK_BIT),
            eom: is_set(bytes[MARKS_AND_KEY], EOM_BIT),
            ili: is_set(bytes[MARKS_AND_KEY], ILI_BIT),
            key: bytes[MARKS_AND_KEY] & SENSE_KEY_BITS,
            information: BigEndian::read_u32(&bytes[INFORMATION..]),
            asc: bytes[ADDITIONAL_SENSE_CODE],
            ascq: bytes[ADDITIONAL_SENSE_CODE_QUALIFIER],
        })
    }

    /// Whether it is the same sense data, field by field.
    pub fn is(&self, other: &Sense) -> bool
        ensures { IsTrue result ↔ (self.now ≡ other.now) }
    {
        if self.valid != other.valid {
            return false;
        }
        if self.filemark != other.filemark {
            return false;
        }
        if self.eom != other.eom {
            return false;
        }
        if self.ili != other.ili {
            return false;
        }
        if self.key != other.key {
            return false;
        }
        if self.information != other.information {
            return false;
        }
        if self.asc != other.asc {
            return false;
        }
        self.ascq == other.ascq
    }

    fn with(key: u8, asc: u8, ascq: u8) -> Sense
        ensures { result ≡ reports key asc ascq }
    {
        Sense {
            valid: false,
            filemark: false,
            eom: false,
            ili: false,
            key,
            information: 0,
            asc,
            ascq,
        }
    }
}

fn is_set(byte: u8, number: u8) -> bool
    requires { number < 8 }
    ensures { result ≡ bit byte number }
{
    byte >> number & 1 == 1
}

/// A field of one bit.
fn flag_at(number: u8, is_set: bool) -> u8
    requires { number < 8 }
    ensures { result ≡ flag number is_set }
{
    if is_set { 1 << number } else { 0 }
}
