ghost use Rattle.std.specs.Prelude.{◌≡◌};

/// How a login request was answered: Status-Class, then Status-Detail (RFC 7143, "Status-Class and Status-Detail").
#[derive(Clone, Copy, Debug, PartialEq, Eq)]
pub enum LoginStatus {
    Success,
    TargetMovedTemporarily,
    TargetMovedPermanently,
    InitiatorError,
    AuthenticationFailure,
    AuthorizationFailure,
    NotFound,
    TargetRemoved,
    UnsupportedVersion,
    TooManyConnections,
    MissingParameter,
    CannotIncludeInSession,
    SessionTypeNotSupported,
    SessionDoesNotExist,
    InvalidDuringLogin,
    TargetError,
    ServiceUnavailable,
    OutOfResources,
    /// Any other code.
    Reserved,
}

impl LoginStatus {
    ghost use Rattle.iscsi_pdu.specs.Codes.{login_status_code, login_status_of};

    /// What the code stands for.
    pub fn of(code: u16) -> LoginStatus
        ensures { result ≡ login_status_of code }
    {
        match code {
            0x0000 => LoginStatus::Success,
            0x0101 => LoginStatus::TargetMovedTemporarily,
            0x0102 => LoginStatus::TargetMovedPermanently,
            0x0200 => LoginStatus::InitiatorError,
            0x0201 => LoginStatus::AuthenticationFailure,
            0x0202 => LoginStatus::AuthorizationFailure,
            0x0203 => LoginStatus::NotFound,
            0x0204 => LoginStatus::TargetRemoved,
            0x0205 => LoginStatus::UnsupportedVersion,
            0x0206 => LoginStatus::TooManyConnections,
            0x0207 => LoginStatus::MissingParameter,
            0x0208 => LoginStatus::CannotIncludeInSession,
            0x0209 => LoginStatus::SessionTypeNotSupported,
            0x020A => LoginStatus::SessionDoesNotExist,
            0x020B => LoginStatus::InvalidDuringLogin,
            0x0300 => LoginStatus::TargetError,
            0x0301 => LoginStatus::ServiceUnavailable,
            0x0302 => LoginStatus::OutOfResources,
            _ => LoginStatus::Reserved,
        }
    }

    /// Its code; of `Reserved` one that stands for nothing.
    pub fn code(self) -> u16
        ensures { result ≡ login_status_code self }
    {
        match self {
            LoginStatus::Success => 0x0000,
            LoginStatus::TargetMovedTemporarily => 0x0101,
            LoginStatus::TargetMovedPermanently => 0x0102,
            LoginStatus::InitiatorError => 0x0200,
            LoginStatus::AuthenticationFailure => 0x0201,
            LoginStatus::AuthorizationFailure => 0x0202,
            LoginStatus::NotFound => 0x0203,
            LoginStatus::TargetRemoved => 0x0204,
            LoginStatus::UnsupportedVersion => 0x0205,
            LoginStatus::TooManyConnections => 0x0206,
            LoginStatus::MissingParameter => 0x0207,
            LoginStatus::CannotIncludeInSession => 0x0208,
            LoginStatus::SessionTypeNotSupported => 0x0209,
            LoginStatus::SessionDoesNotExist => 0x020A,
            LoginStatus::InvalidDuringLogin => 0x020B,
            LoginStatus::TargetError => 0x0300,
            LoginStatus::ServiceUnavailable => 0x0301,
            LoginStatus::OutOfResources => 0x0302,
            LoginStatus::Reserved => 0xFFFF,
        }
    }
}
