//! Logins that name a session that lives (RFC 7143, "Session Reinstatement, Closure, and Timeout" and "Connection Reinstatement").
ghost use Rattle.std.specs.Prelude.{◌≡◌, Some, None};
ghost use Rattle.iscsi_pdu.specs.declared.login_status.LoginStatus.TheVariants.{SessionDoesNotExist, TooManyConnections};
ghost use Rattle.iscsi_session.specs.Claims.{claim, claim_beside, row_session};
ghost use Rattle.iscsi_session.specs.declared.claiming.Claim.TheVariants.{New, PlaceOf, Refused};

use iscsi_login::FullFeature;
use iscsi_pdu::LoginStatus;

/// What a session is known by beside its nexus, which stands for the initiator's name and the portal group.
#[derive(Clone, Copy, PartialEq, Eq)]
pub struct SessionIdentity {
    /// The initiator's part of the session identifier, six bytes.
    pub isid: u64,
    /// The target's part, not 0.
    pub tsih: u16,
    /// The identifier of its one connection.
    pub cid: u16,
}

/// What a login asks for.
#[derive(Clone, Copy)]
pub enum Claim {
    /// A session of its own. It has none where something else lives as its nexus.
    New,
    /// The place of a session that lives, which ends before.
    PlaceOf(SessionIdentity),
    /// What it can't have.
    Refused(LoginStatus),
}

/// What a login asks for, by the session that lives as its nexus, if there is one: with TSIH 0 or that of a session with its ISID,
/// the place of that session.
pub fn claim_of(begun: &FullFeature, living: Option<SessionIdentity>) -> Claim
    ensures { result ≡ claim begun.now.isid begun.now.tsih begun.now.cid living }
{
    match living {
        Some(session) if begun.isid == session.isid => claim_beside(begun, session),
        Some(_) | None => {
            if begun.tsih == 0 {
                Claim::New
            } else {
                Claim::Refused(LoginStatus::SessionDoesNotExist)
            }
        }
    }
}

/// The same, beside a session of its ISID.
fn claim_beside(begun: &FullFeature, session: SessionIdentity) -> Claim
    ensures { result ≡ claim_beside begun.now.tsih begun.now.cid session }
{
    if begun.tsih == 0 {
        Claim::PlaceOf(session)
    } else if begun.tsih != session.tsih {
        Claim::Refused(LoginStatus::SessionDoesNotExist)
    } else if begun.cid != session.cid {
        Claim::Refused(LoginStatus::TooManyConnections)
    } else {
        Claim::PlaceOf(session)
    }
}

/// Worked rows: logins beside the session 3 of ISID A, connection 1, and without one.
pub fn claim_rows()
    ensures new_session { claim 0xA 0 1 None ≡ New }
    ensures no_session { claim 0xA 3 1 None ≡ Refused SessionDoesNotExist }
    ensures again { claim 0xA 0 1 (Some row_session) ≡ PlaceOf row_session }
    ensures again_by_another_connection { claim 0xA 0 2 (Some row_session) ≡ PlaceOf row_session }
    ensures same_connection { claim 0xA 3 1 (Some row_session) ≡ PlaceOf row_session }
    ensures second_connection { claim 0xA 3 2 (Some row_session) ≡ Refused TooManyConnections }
    ensures other_session { claim 0xA 4 1 (Some row_session) ≡ Refused SessionDoesNotExist }
    ensures other_isid { claim 0xB 0 1 (Some row_session) ≡ New }
    ensures session_of_other_isid { claim 0xB 3 1 (Some row_session) ≡ Refused SessionDoesNotExist }
{}
