ghost use Rattle.std.specs.Prelude.{◌≡◌};

/// Why a PDU was rejected (RFC 7143, "Reason" of the Reject PDU).
#[derive(Clone, Copy)]
pub enum RejectReason {
    DataDigestError,
    SnackReject,
    ProtocolError,
    CommandNotSupported,
    TooManyImmediateCommands,
    TaskInProgress,
    InvalidDataAck,
    InvalidPduField,
    /// No target transfer tag can be made.
    OutOfResources,
    WaitingForLogout,
    /// Any other code.
    Reserved,
}

impl RejectReason {
    ghost use Rattle.iscsi_pdu.specs.Codes.{reject_reason_code, reject_reason_of};

    /// What the code stands for.
    pub fn of(code: u8) -> RejectReason
        ensures { result ≡ reject_reason_of code }
    {
        match code {
            0x02 => RejectReason::DataDigestError,
            0x03 => RejectReason::SnackReject,
            0x04 => RejectReason::ProtocolError,
            0x05 => RejectReason::CommandNotSupported,
            0x06 => RejectReason::TooManyImmediateCommands,
            0x07 => RejectReason::TaskInProgress,
            0x08 => RejectReason::InvalidDataAck,
            0x09 => RejectReason::InvalidPduField,
            0x0A => RejectReason::OutOfResources,
            0x0C => RejectReason::WaitingForLogout,
            _ => RejectReason::Reserved,
        }
    }

    /// Its code; of `Reserved` one that stands for nothing.
    pub fn code(self) -> u8
        ensures { result ≡ reject_reason_code self }
    {
        match self {
            RejectReason::DataDigestError => 0x02,
            RejectReason::SnackReject => 0x03,
            RejectReason::ProtocolError => 0x04,
            RejectReason::CommandNotSupported => 0x05,
            RejectReason::TooManyImmediateCommands => 0x06,
            RejectReason::TaskInProgress => 0x07,
            RejectReason::InvalidDataAck => 0x08,
            RejectReason::InvalidPduField => 0x09,
            RejectReason::OutOfResources => 0x0A,
            RejectReason::WaitingForLogout => 0x0C,
            RejectReason::Reserved => 0x01,
        }
    }
}
