ghost use Rattle.std.specs.Prelude.{◌≡◌};
ghost use Rattle.server.specs.IscsiFaults.{iscsi_words, refusal_words};

use iscsi_pdu::LoginStatus;
use iscsi_session::IscsiFault;

/// What is reported of the fault of a session of iSCSI.
pub(crate) fn iscsi_words(fault: IscsiFault) -> &'static str
    ensures { result.now ≡ iscsi_words fault }
{
    match fault {
        IscsiFault::Refused(status) => refusal_words(status),
        IscsiFault::BadPdu(_) => "bad PDU",
        IscsiFault::TooMuchData => "too much data waits",
        IscsiFault::Silent => "nothing came in time",
        IscsiFault::Read => "a read failed",
        IscsiFault::Write => "a write failed",
        IscsiFault::NoMemory => "want of memory",
    }
}

/// What is reported of a login that was refused with a status (RFC 7143, "Login Response").
fn refusal_words(status: LoginStatus) -> &'static str
    ensures { result.now ≡ refusal_words status }
{
    match status {
        LoginStatus::InitiatorError => "login refused: bad request or key",
        LoginStatus::AuthenticationFailure => "login refused: authentication failed",
        LoginStatus::AuthorizationFailure => "login refused: its name is not let in",
        LoginStatus::NotFound => "login refused: no such target",
        LoginStatus::UnsupportedVersion => "login refused: no such version",
        LoginStatus::TooManyConnections | LoginStatus::CannotIncludeInSession => {
            "login refused: a session with a second connection"
        }
        LoginStatus::MissingParameter => "login refused: a key is missing",
        LoginStatus::SessionTypeNotSupported => "login refused: no such type of session",
        LoginStatus::SessionDoesNotExist => "login refused: no such session",
        LoginStatus::InvalidDuringLogin => "login refused: another PDU came",
        LoginStatus::TargetError => "login refused: fault of the target",
        LoginStatus::ServiceUnavailable => "login refused: the server ends",
        LoginStatus::OutOfResources => "login refused: already connected, or no room",
        LoginStatus::Success
        | LoginStatus::TargetMovedTemporarily
        | LoginStatus::TargetMovedPermanently
        | LoginStatus::TargetRemoved
        | LoginStatus::Reserved => "login refused",
    }
}
