ghost use Rattle.std.specs.Prelude.{◌≡◌, ◌≤◌};

/// Why an initiator logs out (RFC 7143, "Reason Code" of the Logout Request).
#[derive(Clone, Copy)]
pub enum LogoutReason {
    CloseTheSession,
    CloseTheConnection,
    RemoveTheConnectionForRecovery,
    /// Any other code.
    Reserved,
}

impl LogoutReason {
    ghost use Rattle.iscsi_pdu.specs.Codes.{logout_reason_code, logout_reason_of};

    /// What the code stands for.
    pub fn of(code: u8) -> LogoutReason
        ensures { result ≡ logout_reason_of code }
    {
        match code {
            0x00 => LogoutReason::CloseTheSession,
            0x01 => LogoutReason::CloseTheConnection,
            0x02 => LogoutReason::RemoveTheConnectionForRecovery,
            _ => LogoutReason::Reserved,
        }
    }

    /// Its code; of `Reserved` one that stands for nothing.
    pub fn code(self) -> u8
        ensures code { result ≡ logout_reason_code self }
        ensures most { result ≤ 3 }
    {
        match self {
            LogoutReason::CloseTheSession => 0x00,
            LogoutReason::CloseTheConnection => 0x01,
            LogoutReason::RemoveTheConnectionForRecovery => 0x02,
            LogoutReason::Reserved => 0x03,
        }
    }
}

/// How a logout was answered (RFC 7143, "Response" of the Logout Response).
#[derive(Clone, Copy, PartialEq, Eq)]
pub enum LogoutResult {
    /// The connection or session is closed.
    Closed,
    CidNotFound,
    ConnectionRecoveryNotSupported,
    CleanupFailed,
    /// Any other code.
    Reserved,
}

impl LogoutResult {
    ghost use Rattle.iscsi_pdu.specs.Codes.{logout_result_code, logout_result_of};

    /// What the code stands for.
    pub fn of(code: u8) -> LogoutResult
        ensures { result ≡ logout_result_of code }
    {
        match code {
            0x00 => LogoutResult::Closed,
            0x01 => LogoutResult::CidNotFound,
            0x02 => LogoutResult::ConnectionRecoveryNotSupported,
            0x03 => LogoutResult::CleanupFailed,
            _ => LogoutResult::Reserved,
        }
    }

    /// Its code; of `Reserved` one that stands for nothing.
    pub fn code(self) -> u8
        ensures { result ≡ logout_result_code self }
    {
        match self {
            LogoutResult::Closed => 0x00,
            LogoutResult::CidNotFound => 0x01,
            LogoutResult::ConnectionRecoveryNotSupported => 0x02,
            LogoutResult::CleanupFailed => 0x03,
            LogoutResult::Reserved => 0x04,
        }
    }
}
