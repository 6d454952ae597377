ghost use Rattle.std.specs.Prelude.{◌≡◌, ◌≤◌, ◌++◌, length, OnOk, IfOk};
ghost use Rattle.std.specs.Option.{option_map};
ghost use Rattle.iscsi_login.specs.ChapKeys.{identifier_key, challenge_key};
ghost use Rattle.iscsi_login.specs.Names.{declared_as};
ghost use Rattle.iscsi_login.specs.Chaps.{chap_turn, asked, answered, proven, shown, shown_as, says_challenge, says_response, says_any, is_own, identifier_in, phase_after, answer_in};

use crate::chap_answers::{write_challenge, write_response};
use crate::chap_keys::{CHAP_A, CHAP_C, CHAP_I, CHAP_N, CHAP_R};
use crate::names::value_named;
use iscsi_chap::{
    Challenge, ChapAccess, ChapAlgorithm, ChapDigests, ChapEntry, ChapPhase, ChapSecrets,
    Credentials, LONGEST_BINARY, binary_in, chosen_algorithm, is_response,
};
use iscsi_keys::number_in;
use iscsi_pdu::LoginStatus;
use std::alloc::AllocError;

/// What CHAP goes by in a login.
#[derive(Clone, Copy)]
pub struct ChapState {
    /// What the target asks the initiator to answer, where it can ask.
    pub challenge: Option<Challenge>,
    pub phase: ChapPhase,
}

/// The phase that a text comes to, or why the login is refused.
pub(crate) type ChapVerdict = Result<ChapPhase, LoginStatus>;

/// Takes the keys of CHAP in a text, and adds the answer to them. `is_agreed` says whether CHAP is the method agreed upon.
#[tactic(auto, unfolding(crate::specs::Chaps::chap_turn))]
pub(crate) fn chap_turn(
    access: &ChapAccess,
    host: &[u8],
    challenge: Option<Challenge>,
    is_agreed: bool,
    phase: ChapPhase,
    text: &[u8],
    out: &mut Vec<u8>,
) -> Result<ChapVerdict, AllocError>
    requires { length text.now ≤ 65536 }
    ensures phase { IfOk result (λ verdict. verdict ≡ phase_after (chap_turn access.now host.now challenge is_agreed phase text.now)) }
    ensures out { OnOk result (out.new.items ≡ out.old.items ++ answer_in (chap_turn access.now host.now challenge is_agreed phase text.now)) }
{
    match phase {
        ChapPhase::Unasked => asked(access.digests, challenge, is_agreed, text, out),
        ChapPhase::Challenged(algorithm) => {
            answered(&access.secrets, host, challenge, algorithm, text, out)
        }
        ChapPhase::Passed(place) => Ok(if says_any(text) {
            Err(LoginStatus::InitiatorError)
        } else {
            Ok(ChapPhase::Passed(place))
        }),
    }
}

/// Challenges an initiator that has offered an algorithm.
fn asked(
    digests: ChapDigests,
    challenge: Option<Challenge>,
    is_agreed: bool,
    text: &[u8],
    out: &mut Vec<u8>,
) -> Result<ChapVerdict, AllocError>
    requires { length text.now ≤ 65536 }
    ensures phase { IfOk result (λ verdict. verdict ≡ phase_after (asked digests challenge is_agreed text.now)) }
    ensures out { OnOk result (out.new.items ≡ out.old.items ++ answer_in (asked digests challenge is_agreed text.now)) }
{
    if says_response(text) {
        return Ok(Err(LoginStatus::AuthenticationFailure));
    }
    let Some(list) = value_named(text, CHAP_A) else {
        return Ok(Ok(ChapPhase::Unasked));
    };
    if !is_agreed {
        return Ok(Err(LoginStatus::AuthenticationFailure));
    }
    let Some(algorithm) = chosen_algorithm(digests, list) else {
        return Ok(Err(LoginStatus::AuthenticationFailure));
    };
    let Some(challenge) = challenge else {
        return Ok(Err(LoginStatus::TargetError));
    };
    write_challenge(out, algorithm, challenge)?;
    Ok(Ok(ChapPhase::Challenged(algorithm)))
}

/// Takes the response to the challenge.
fn answered(
    secrets: &ChapSecrets,
    host: &[u8],
    challenge: Option<Challenge>,
    algorithm: ChapAlgorithm,
    text: &[u8],
    out: &mut Vec<u8>,
) -> Result<ChapVerdict, AllocError>
    requires { length text.now ≤ 65536 }
    ensures phase { IfOk result (λ verdict. verdict ≡ phase_after (answered secrets.now.entries.items host.now challenge algorithm text.now)) }
    ensures out { OnOk result (out.new.items ≡ out.old.items ++ answer_in (answered secrets.now.entries.items host.now challenge algorithm text.now)) }
{
    let Some(challenge) = challenge else {
        return Ok(Err(LoginStatus::TargetError));
    };
    if value_named(text, CHAP_A).is_some() {
        return Ok(Err(LoginStatus::InitiatorError));
    }
    match (value_named(text, CHAP_N), value_named(text, CHAP_R)) {
        (None, None) => Ok(if says_challenge(text) {
            Err(LoginStatus::AuthenticationFailure)
        } else {
            Ok(ChapPhase::Challenged(algorithm))
        }),
        (Some(user), Some(response)) => proven(
            secrets,
            secrets.entry(host, user),
            challenge,
            algorithm,
            response,
            text,
            out,
        ),
        _ => Ok(Err(LoginStatus::AuthenticationFailure)),
    }
}

/// Judges the response of who is to have the secret of the entry at its place, if there is one. If there is none, the response is judged by
/// another secret all the same: an unknown user is refused by the work that a wrong response takes.
fn proven(
    secrets: &ChapSecrets,
    found: Option<(usize, &ChapEntry)>,
    challenge: Challenge,
    algorithm: ChapAlgorithm,
    response: &[u8],
    text: &[u8],
    out: &mut Vec<u8>,
) -> Result<ChapVerdict, AllocError>
    requires { length text.now ≤ 65536 }
    ensures phase { IfOk result (λ verdict. verdict ≡ phase_after (proven algorithm challenge (option_map (λ found. (found.0, found.1.now)) found.entry) response.now text.now)) }
    ensures out { OnOk result (out.new.items ≡ out.old.items ++ answer_in (proven algorithm challenge (option_map (λ found. (found.0, found.1.now)) found.entry) response.now text.now)) }
{
    let secret = secrets.secret_for(found);
    let is_shown = is_response(*out.allocator(), algorithm, challenge, secret, response)?;
    let Some((place, entry)) = found else {
        return Ok(Err(LoginStatus::AuthenticationFailure));
    };
    if !is_shown {
        return Ok(Err(LoginStatus::AuthenticationFailure));
    }
    shown(place, &entry.target, challenge, algorithm, text, out)
}

/// Lets the initiator pass by the entry at the place, once the target has proved itself where it is to.
fn shown(
    place: usize,
    target: &Option<Credentials>,
    challenge: Challenge,
    algorithm: ChapAlgorithm,
    text: &[u8],
    out: &mut Vec<u8>,
) -> Result<ChapVerdict, AllocError>
    requires { length text.now ≤ 65536 }
    ensures phase { IfOk result (λ verdict. verdict ≡ phase_after (shown place algorithm challenge target.now (declared_as text.now identifier_key) (declared_as text.now challenge_key))) }
    ensures out { OnOk result (out.new.items ≡ out.old.items ++ answer_in (shown place algorithm challenge target.now (declared_as text.now identifier_key) (declared_as text.now challenge_key))) }
{
    match (value_named(text, CHAP_I), value_named(text, CHAP_C)) {
        (None, None) => Ok(Ok(ChapPhase::Passed(place))),
        (Some(identifier), Some(value)) => {
            let bytes = binary_in(*out.allocator(), value)?;
            shown_as(
                place,
                target,
                challenge,
                algorithm,
                identifier_in(identifier),
                bytes,
                out,
            )
        }
        _ => Ok(Err(LoginStatus::AuthenticationFailure)),
    }
}

/// Answers the initiator's own challenge.
fn shown_as(
    place: usize,
    target: &Option<Credentials>,
    challenge: Challenge,
    algorithm: ChapAlgorithm,
    identifier: Option<u8>,
    bytes: Option<Vec<u8>>,
    out: &mut Vec<u8>,
) -> Result<ChapVerdict, AllocError>
    ensures phase { IfOk result (λ verdict. verdict ≡ phase_after (shown_as place algorithm challenge target.now identifier (option_map (λ own. own.items) bytes))) }
    ensures out { OnOk result (out.new.items ≡ out.old.items ++ answer_in (shown_as place algorithm challenge target.now identifier (option_map (λ own. own.items) bytes))) }
{
    let (Some(target), Some(identifier), Some(bytes)) = (target, identifier, bytes) else {
        return Ok(Err(LoginStatus::AuthenticationFailure));
    };
    if !is_own(challenge, bytes.as_slice()) {
        return Ok(Err(LoginStatus::AuthenticationFailure));
    }
    write_response(out, algorithm, target, identifier, bytes.as_slice())?;
    Ok(Ok(ChapPhase::Passed(place)))
}

/// Whether the bytes are a challenge of the initiator's own.
fn is_own(challenge: Challenge, bytes: &[u8]) -> bool
    ensures { result ≡ is_own challenge bytes.now }
{
    !bytes.is_empty() && bytes.len() <= LONGEST_BINARY && bytes != challenge.bytes.as_slice()
}

/// The identifier of a challenge, one byte.
fn identifier_in(value: &[u8]) -> Option<u8>
    ensures { result ≡ identifier_in value.now }
{
    let number = number_in(value)?;
    if number < 256 {
        Some(number as u8)
    } else {
        None
    }
}

fn says_challenge(text: &[u8]) -> bool
    requires { length text.now ≤ 65536 }
    ensures { result ≡ says_challenge text.now }
{
    value_named(text, CHAP_I).is_some() || value_named(text, CHAP_C).is_some()
}

fn says_response(text: &[u8]) -> bool
    requires { length text.now ≤ 65536 }
    ensures { result ≡ says_response text.now }
{
    value_named(text, CHAP_N).is_some()
        || value_named(text, CHAP_R).is_some()
        || says_challenge(text)
}

fn says_any(text: &[u8]) -> bool
    requires { length text.now ≤ 65536 }
    ensures { result ≡ says_any text.now }
{
    value_named(text, CHAP_A).is_some() || says_response(text)
}
