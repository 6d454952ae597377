ghost use Rattle.std.specs.Prelude.{◌≡◌};
ghost use Rattle.iscsi_login.specs.Stages.{is_awaited, leads_to};

use iscsi_pdu::Stage;

/// Whether a login may pass from the one stage to the other (RFC 7143, "Login Phase").
pub(crate) fn leads_to(current: Stage, next: Stage) -> bool
    ensures { result ≡ leads_to current next }
{
    matches!(
        (current, next),
        (
            Stage::SecurityNegotiation,
            Stage::LoginOperationalNegotiation | Stage::FullFeaturePhase
        ) | (Stage::LoginOperationalNegotiation, Stage::FullFeaturePhase)
    )
}

/// Whether a request may be of the stage, where the login has come to the awaited one, or to none yet.
pub(crate) fn is_awaited(awaited: Option<Stage>, current: Stage) -> bool
    ensures { result ≡ is_awaited awaited current }
{
    match awaited {
        None => matches!(
            current,
            Stage::SecurityNegotiation | Stage::LoginOperationalNegotiation
        ),
        Some(stage) => stage.code() == current.code(),
    }
}
