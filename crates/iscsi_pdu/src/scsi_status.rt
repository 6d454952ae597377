ghost use Rattle.std.specs.Prelude.{◌≡◌};

/// The status of a command (RFC 7143, "Status"; SAM-5, "Status codes").
#[derive(Clone, Copy)]
pub enum ScsiStatus {
    Good,
    CheckCondition,
    ConditionMet,
    Busy,
    ReservationConflict,
    TaskSetFull,
    AcaActive,
    TaskAborted,
    /// Any other code.
    Reserved,
}

impl ScsiStatus {
    ghost use Rattle.iscsi_pdu.specs.Codes.{scsi_status_code, scsi_status_of};

    /// What the code stands for.
    pub fn of(code: u8) -> ScsiStatus
        ensures { result ≡ scsi_status_of code }
    {
        match code {
            0x00 => ScsiStatus::Good,
            0x02 => ScsiStatus::CheckCondition,
            0x04 => ScsiStatus::ConditionMet,
            0x08 => ScsiStatus::Busy,
            0x18 => ScsiStatus::ReservationConflict,
            0x28 => ScsiStatus::TaskSetFull,
            0x30 => ScsiStatus::AcaActive,
            0x40 => ScsiStatus::TaskAborted,
            _ => ScsiStatus::Reserved,
        }
    }

    /// Its code; of `Reserved` one that stands for nothing.
    pub fn code(self) -> u8
        ensures { result ≡ scsi_status_code self }
    {
        match self {
            ScsiStatus::Good => 0x00,
            ScsiStatus::CheckCondition => 0x02,
            ScsiStatus::ConditionMet => 0x04,
            ScsiStatus::Busy => 0x08,
            ScsiStatus::ReservationConflict => 0x18,
            ScsiStatus::TaskSetFull => 0x28,
            ScsiStatus::AcaActive => 0x30,
            ScsiStatus::TaskAborted => 0x40,
            ScsiStatus::Reserved => 0xFF,
        }
    }
}
