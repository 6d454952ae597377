ghost use Rattle.std.specs.Prelude.{◌≡◌, ◌≤◌, ◌++◌, length, OnOk, IfOk};
ghost use Rattle.iscsi_login.specs.AnswerTexts.{answer_text};
ghost use Rattle.iscsi_login.specs.Authentications.{after_authentication};
ghost use Rattle.iscsi_login.specs.Turns.{held, judgement, judgement_on, turn_by, turn_when};

use crate::authentication::{may_go_on, shown_by};
use crate::chap::{ChapState, ChapVerdict};
use crate::login::{Login, LoginEnd};
use crate::target::LoginTarget;
use iscsi_chap::ChapPhase;
use iscsi_pdu::{LoginRequest, LoginStatus};
use std::alloc::AllocError;

/// The most bytes of a data segment during login (RFC 7143, "MaxRecvDataSegmentLength": the default, which counts until full
/// feature).
const LONGEST_PIECE: u32 = 8192;

/// What a request makes of a login.
#[derive(Clone, Copy)]
pub(crate) enum Turn {
    /// The login is refused.
    Refuses(LoginStatus),
    /// The rest of the answer fits one response, with which the login comes to this.
    Goes(Login),
    /// It doesn't, or the initiator isn't authenticated yet, so T is held back: the login comes to this, and as much as fits goes
    /// out.
    Stays(Login),
}

impl Login {
    ghost use Rattle.iscsi_login.specs.Turns.{limit_of};

    /// The most bytes that a response may carry.
    pub(crate) fn piece_limit(self) -> usize
        ensures value { result ≡ limit_of self }
        ensures most { result ≤ 8192 }
    {
        match self {
            Login::Open(open) => match open.admitted {
                None => LONGEST_PIECE as usize,
                Some(admitted) => LONGEST_PIECE.min(
                    admitted.negotiation.parameters.max_send_data_segment_length,
                ) as usize,
            },
            Login::Ended(LoginEnd::FullFeature(begun)) => {
                LONGEST_PIECE.min(begun.parameters.max_send_data_segment_length) as usize
            }
            Login::Ended(LoginEnd::Refused(_)) => 0,
        }
    }
}

/// What a request makes of a login, and of its CHAP.
#[derive(Clone, Copy)]
pub(crate) struct Judged {
    pub(crate) turn: Turn,
    pub(crate) phase: ChapPhase,
}

/// What a login comes to by a request with its T, and without.
#[derive(Clone, Copy)]
struct Ways {
    next: Login,
    stays: Login,
}

/// Judges a request whose text is whole, and adds the answer to what is still unsent.
pub(crate) fn answer_request(
    login: Login,
    host: &[u8],
    chap: ChapState,
    target: &LoginTarget,
    request: &LoginRequest,
    text: &[u8],
    unsent: &mut Vec<u8>,
) -> Result<Judged, AllocError>
    requires { length text.now ≤ 65536 }
    ensures text { OnOk result (unsent.new.items ≡ unsent.old.items ++ answer_text login target.now request.now text.now ++ (judgement login host.now chap target.now request.now text.now).answer) }
    ensures turn { IfOk result (λ judged. judged.turn ≡ (judgement login host.now chap target.now request.now text.now).turn (length unsent.new.items)) }
    ensures phase { IfOk result (λ judged. judged.phase ≡ (judgement login host.now chap target.now request.now text.now).phase) }
{
    let ways = Ways {
        next: login.after(target, request, text),
        stays: login.after(target, &held(request), text),
    };
    login.write_text(ways.next, target, request, text, unsent)?;
    match ways.next {
        Login::Ended(LoginEnd::Refused(status)) => Ok(Judged {
            turn: Turn::Refuses(status),
            phase: chap.phase,
        }),
        Login::Ended(LoginEnd::FullFeature(_)) => {
            judge_initiator(ways, host, chap, target, request, text, unsent)
        }
        Login::Open(_) => judge_initiator(ways, host, chap, target, request, text, unsent),
    }
}

/// Judges a request by what its text shows of the initiator.
fn judge_initiator(
    ways: Ways,
    host: &[u8],
    chap: ChapState,
    target: &LoginTarget,
    request: &LoginRequest,
    text: &[u8],
    unsent: &mut Vec<u8>,
) -> Result<Judged, AllocError>
    requires { length text.now ≤ 65536 }
    ensures text { OnOk result (unsent.new.items ≡ unsent.old.items ++ (judgement_on target.now.authentication host.now chap ways.next ways.stays request.now text.now).answer) }
    ensures turn { IfOk result (λ judged. judged.turn ≡ (judgement_on target.now.authentication host.now chap ways.next ways.stays request.now text.now).turn (length unsent.new.items)) }
    ensures phase { IfOk result (λ judged. judged.phase ≡ (judgement_on target.now.authentication host.now chap ways.next ways.stays request.now text.now).phase) }
{
    let shown = shown_by(target, host, chap, ways.stays, request, text, unsent)?;
    let verdict = after_authentication(target, ways.stays, request, shown);
    let count = unsent.as_slice().len();
    Ok(Judged {
        turn: turn_by(target, verdict, ways, count),
        phase: verdict.unwrap_or(chap.phase),
    })
}

/// The phase that the initiator has come to, where it may go on.
fn after_authentication(
    target: &LoginTarget,
    stays: Login,
    request: &LoginRequest,
    shown: ChapVerdict,
) -> ChapVerdict
    ensures { result ≡ after_authentication target.now.authentication stays request.now shown }
{
    let phase = shown?;
    if may_go_on(target, stays, request, phase) {
        Ok(phase)
    } else {
        Err(LoginStatus::AuthenticationFailure)
    }
}

/// What a request makes of a login whose initiator has come so far.
fn turn_by(target: &LoginTarget, verdict: ChapVerdict, ways: Ways, count: usize) -> Turn
    ensures { result ≡ turn_by target.now.authentication verdict ways.next ways.stays count }
{
    match verdict {
        Err(status) => Turn::Refuses(status),
        Ok(phase) => turn_when(
            target.authentication.is_free(phase),
            ways.next.with_proof(target.authentication.proved_by(phase)),
            ways.stays,
            count,
        ),
    }
}

/// The request with T held back.
fn held(request: &LoginRequest) -> LoginRequest
    ensures { result ≡ held request.now }
{
    LoginRequest {
        transit: false,
        ..*request
    }
}

/// What a request makes of a login that comes to the one with its T, and to the other where T is held back.
fn turn_when(is_free: bool, next: Login, stays: Login, count: usize) -> Turn
    ensures { result ≡ turn_when is_free next stays count }
{
    if !is_free {
        return Turn::Stays(stays);
    }
    if let Login::Ended(LoginEnd::Refused(status)) = next {
        return Turn::Refuses(status);
    }
    if count <= next.piece_limit() {
        Turn::Goes(next)
    } else {
        Turn::Stays(stays)
    }
}
