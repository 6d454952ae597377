use crate::login::{FullFeature, LoginEnd};
use iscsi_pdu::LoginStatus;

/// How far a request has brought a login.
#[derive(Clone, Copy)]
pub enum LoginProgress {
    /// It was answered, and another is awaited.
    Answered,
    /// It awaits the last response, with which this session begins.
    Begins(FullFeature),
    /// The login is refused, and the connection ends.
    Refused(LoginStatus),
}

impl LoginProgress {
    ghost use Rattle.std.specs.Prelude.{◌≡◌};
    ghost use Rattle.iscsi_login.specs.Exchanges.{end_progress};

    /// Of a login that has ended.
    pub(crate) fn at(end: LoginEnd) -> LoginProgress
        ensures { result ≡ end_progress end }
    {
        match end {
            LoginEnd::FullFeature(begun) => LoginProgress::Begins(begun),
            LoginEnd::Refused(status) => LoginProgress::Refused(status),
        }
    }
}
