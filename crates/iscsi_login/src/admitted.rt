ghost use Rattle.std.specs.Prelude.{◌≡◌, ◌≤◌, length};
ghost use Rattle.std.specs.Option.{option_copied};
ghost use Rattle.iscsi_login.specs.Admissions.{entry_of, target_fault, says_the_same, is_initiator_again, is_target_again, is_type_again, names_free, admitted_by, offered_by, terms_of};

use crate::names::{declared_value, session_type_in};
use crate::offers::negotiated_by;
use crate::target::LoginTarget;
use iscsi_chap::{Admission, SessionType};
use iscsi_keys::{Key, Negotiation, Terms, is_same_name};
use iscsi_pdu::LoginStatus;

/// A login whose initiator was let in by its name.
#[derive(Clone, Copy)]
pub struct Admitted {
    pub admission: Admission,
    pub session_type: SessionType,
    pub negotiation: Negotiation,
}

/// What a login has come to once it has the text too, or how it is refused: the first text says who wants a session of whom, and
/// a later one nothing else of it.
pub(crate) fn admitted_by(
    admitted: Option<Admitted>,
    target: &LoginTarget,
    text: &[u8],
) -> Result<Admitted, LoginStatus>
    requires { length text.now ≤ 65536 }
    ensures { result ≡ admitted_by admitted target.now text.now }
{
    match admitted {
        None => offered_by(entry_of(target, text)?, text),
        Some(admitted) => {
            if !says_the_same(target, admitted, text) {
                return Err(LoginStatus::InitiatorError);
            }
            offered_by(names_free(admitted), text)
        }
    }
}

/// Who wants a session of whom, by the first text of a login, before any other key is looked at; or how that is refused.
pub(crate) fn entry_of(target: &LoginTarget, text: &[u8]) -> Result<Admitted, LoginStatus>
    requires { length text.now ≤ 65536 }
    ensures { result ≡ entry_of target.now text.now }
{
    let Some(session_type) = session_type_in(declared_value(text, Key::SessionType)) else {
        return Err(LoginStatus::SessionTypeNotSupported);
    };
    let Some(name) = declared_value(text, Key::InitiatorName) else {
        return Err(LoginStatus::MissingParameter);
    };
    let Some(admission) = target.access.admit(name) else {
        return Err(LoginStatus::AuthorizationFailure);
    };
    match target_fault(target, session_type, declared_value(text, Key::TargetName)) {
        Some(status) => Err(status),
        None => Ok(Admitted {
            admission,
            session_type,
            negotiation: Negotiation::new(terms_of(target, session_type)),
        }),
    }
}

/// Why the session can't be one of the target, by the name that it is asked for under.
fn target_fault(
    target: &LoginTarget,
    session_type: SessionType,
    wanted: Option<&[u8]>,
) -> Option<LoginStatus>
    ensures { result ≡ target_fault target.now session_type (option_copied wanted.entry) }
{
    match (wanted, session_type) {
        (None, SessionType::Normal) => Some(LoginStatus::MissingParameter),
        (None, SessionType::Discovery) => None,
        (Some(name), _) => {
            if is_same_name(name, target.name.as_slice()) {
                None
            } else {
                Some(LoginStatus::NotFound)
            }
        }
    }
}

fn terms_of(target: &LoginTarget, session_type: SessionType) -> Terms
    ensures { result ≡ terms_of target.now session_type }
{
    Terms {
        discovery: matches!(session_type, SessionType::Discovery),
        method: target.authentication.method(),
        profile: target.profile,
    }
}

/// Whether what a later text says of names and the type of session, if it does, is what the first has said.
fn says_the_same(target: &LoginTarget, admitted: Admitted, text: &[u8]) -> bool
    requires { length text.now ≤ 65536 }
    ensures { result ≡ says_the_same target.now admitted text.now }
{
    is_initiator_again(
        target,
        admitted.admission,
        declared_value(text, Key::InitiatorName),
    ) && is_target_again(target, declared_value(text, Key::TargetName))
        && is_type_again(
            admitted.session_type,
            declared_value(text, Key::SessionType),
        )
}

/// Whether a name that is said again is let in as the same.
fn is_initiator_again(target: &LoginTarget, admission: Admission, again: Option<&[u8]>) -> bool
    ensures { result ≡ is_initiator_again target.now admission (option_copied again.entry) }
{
    let Some(name) = again else {
        return true;
    };
    match (target.access.admit(name), admission) {
        (Some(Admission::Listed(sas)), Admission::Listed(own)) => sas == own,
        (Some(Admission::Other(sas)), Admission::Other(own)) => sas == own,
        _ => false,
    }
}

fn is_target_again(target: &LoginTarget, again: Option<&[u8]>) -> bool
    ensures { result ≡ is_target_again target.now (option_copied again.entry) }
{
    match again {
        None => true,
        Some(name) => is_same_name(name, target.name.as_slice()),
    }
}

fn is_type_again(session_type: SessionType, again: Option<&[u8]>) -> bool
    ensures { result ≡ is_type_again session_type (option_copied again.entry) }
{
    let Some(value) = again else {
        return true;
    };
    matches!(
        (session_type_in(Some(value)), session_type),
        (Some(SessionType::Normal), SessionType::Normal)
            | (Some(SessionType::Discovery), SessionType::Discovery)
    )
}

/// The login whose names may be said once more.
fn names_free(admitted: Admitted) -> Admitted
    ensures { result ≡ names_free admitted }
{
    let mut admitted = admitted;
    admitted.negotiation.offered[Key::InitiatorName.place()] = false;
    admitted.negotiation.offered[Key::InitiatorAlias.place()] = false;
    admitted.negotiation.offered[Key::TargetName.place()] = false;
    admitted.negotiation.offered[Key::SessionType.place()] = false;
    admitted
}

/// The login once the keys of the text were offered, or how it is refused.
fn offered_by(admitted: Admitted, text: &[u8]) -> Result<Admitted, LoginStatus>
    requires { length text.now ≤ 65536 }
    ensures { result ≡ offered_by admitted text.now }
{
    let negotiation = negotiated_by(admitted.negotiation, text)?;
    Ok(Admitted {
        negotiation,
        ..admitted
    })
}
