ghost use Rattle.std.specs.Prelude.{◌≡◌, ◌≤◌, ◌++◌, length, OnOk, IfOk};
ghost use Rattle.iscsi_login.specs.Authentications.{shown_by, may_go_on, is_agreed, may_wait};
ghost use Rattle.iscsi_login.specs.Chaps.{phase_after, answer_in};

use crate::chap::{ChapState, ChapVerdict, chap_turn};
use crate::login::Login;
use crate::target::LoginTarget;
use iscsi_chap::{Authentication, ChapPhase};
use iscsi_keys::Key;
use iscsi_pdu::{LoginRequest, Stage};
use std::alloc::AllocError;

/// What a text shows of its initiator, and adds the answer to that. `stays` is the login with the text, where it stays in its
/// stage.
pub(crate) fn shown_by(
    target: &LoginTarget,
    host: &[u8],
    chap: ChapState,
    stays: Login,
    request: &LoginRequest,
    text: &[u8],
    out: &mut Vec<u8>,
) -> Result<ChapVerdict, AllocError>
    requires { length text.now ≤ 65536 }
    ensures phase { IfOk result (λ shown. shown ≡ phase_after (shown_by target.now.authentication host.now chap stays request.now text.now)) }
    ensures out { OnOk result (out.new.items ≡ out.old.items ++ answer_in (shown_by target.now.authentication host.now chap stays request.now text.now)) }
{
    match &target.authentication {
        Authentication::None => Ok(Ok(chap.phase)),
        Authentication::Chap(access) => {
            if request.continues {
                return Ok(Ok(chap.phase));
            }
            let agreed = is_agreed(stays);
            chap_turn(access, host, chap.challenge, agreed, chap.phase, text, out)
        }
    }
}

/// Whether an initiator that has come so far may go on with the request.
pub(crate) fn may_go_on(
    target: &LoginTarget,
    stays: Login,
    request: &LoginRequest,
    phase: ChapPhase,
) -> bool
    ensures { result ≡ may_go_on target.now.authentication stays request.now phase }
{
    match &target.authentication {
        Authentication::None => true,
        Authentication::Chap(_) => {
            request.continues || phase.is_passed() || may_wait(request, is_agreed(stays))
        }
    }
}

/// Whether an authentication method is agreed.
fn is_agreed(login: Login) -> bool
    ensures { result ≡ is_agreed login }
{
    let Login::Open(open) = login else {
        return false;
    };
    match open.admitted {
        None => false,
        Some(admitted) => admitted.negotiation.offered[Key::AuthMethod.place()],
    }
}

/// Whether an initiator that isn't authenticated yet may send the request.
fn may_wait(request: &LoginRequest, agreed: bool) -> bool
    ensures { result ≡ may_wait request.now agreed }
{
    matches!(request.current_stage, Stage::SecurityNegotiation) && (agreed || !request.transit)
}
