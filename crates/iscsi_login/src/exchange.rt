ghost use Rattle.std.specs.Prelude.{◌≡◌, ◌≤◌, ◌++◌, length, OnOk, OnErr, IfOk};
ghost use Rattle.iscsi_login.specs.Exchanges.{started, response, responded, refused_with, refusal, accepted, last_response, is_out_of_turn, heard, noted, judged, turn_in, moved_on, gone, told, turn_progress, taken, answer_to, progress_of, taken_open, told_open, progress_open, HasFailed, IsRefused};

use crate::chap::ChapState;
use crate::login::{Login, LoginEnd, LoginStep, OpenLogin};
use crate::progress::LoginProgress;
use crate::responding::{name_in, pass, window_end, write_response};
use crate::target::LoginTarget;
use crate::turn::{Turn, answer_request};
use iscsi_chap::{Challenge, ChapPhase};
use iscsi_pdu::{LoginRequest, LoginResponse, LoginStatus, SerialNumber};
use std::alloc::{AllocError, Global};
use std::marker::Model;

/// The most bytes of a login's text, all its pieces together.
const LONGEST_TEXT: usize = 65_536;

/// The login of a connection, from its first request to full feature or a refusal. It gathers texts from requests with C, cuts
/// answers into pieces, and numbers its responses.
///
/// ```text
/// match exchange.take(&target, &request, payload, &mut out)? {
///     LoginProgress::Answered => {}
///     LoginProgress::Begins(session) => exchange.accept(tsih, &mut out)?,
///     LoginProgress::Refused(status) => return Ok(()),
/// }
/// ```
#[derive(Drop)]
pub struct LoginExchange {
    login: Login,
    name: Vec<u8>,
    gathered: Vec<u8>,
    unsent: Vec<u8>,
    last: Option<LoginRequest>,
    stat_sn: SerialNumber,
    chap: ChapState,
}

impl Model for LoginExchange {
    ghost use Rattle.iscsi_login.specs.Exchanges.{ExchangeValue};

    ghost Value = { ExchangeValue };

    ghost view = { λ e. record { login = e.login; name = e.name.items; gathered = e.gathered.items; unsent = e.unsent.items; last = e.last; stat_sn = e.stat_sn; chap = e.chap } };
}

impl LoginExchange {
    /// Before the first request of an initiator that has come to the portal group. Without a challenge no initiator can
    /// authenticate itself by CHAP.
    pub fn new(alloc: Global, portal_group: u16, challenge: Option<Challenge>) -> LoginExchange
        ensures { result ≡ started portal_group challenge }
    {
        LoginExchange {
            login: Login::new(portal_group),
            name: Vec::new(alloc),
            gathered: Vec::new(alloc),
            unsent: Vec::new(alloc),
            last: None,
            stat_sn: SerialNumber { number: 0 },
            chap: ChapState {
                challenge,
                phase: ChapPhase::Unasked,
            },
        }
    }

    /// Takes a request with its data segment, and adds the response, but for the last one, which `accept` or `refuse` adds. A
    /// text of more than 65,536 bytes is refused. Where memory is refused so is the login, and part of a response may have been
    /// added: the connection ends.
    #[tactic(auto, unfolding(crate::specs::Exchanges::taken, crate::specs::Exchanges::answer_to, crate::specs::Exchanges::progress_of))]
    pub fn take(
        &mut self,
        target: &LoginTarget,
        request: &LoginRequest,
        payload: &[u8],
        out: &mut Vec<u8>,
    ) -> Result<LoginProgress, AllocError>
        ensures progress { IfOk result (λ p. p ≡ progress_of self.old target.now request.now payload.now) }
        ensures state { OnOk result (self.new ≡ taken self.old target.now request.now payload.now) }
        ensures out { OnOk result (out.new.items ≡ out.old.items ++ answer_to self.old target.now request.now payload.now) }
        ensures no_memory { OnErr result (HasFailed self.new) }
    {
        if let Login::Ended(end) = self.login {
            return Ok(LoginProgress::at(end));
        }
        let taken = self.take_open(target, request, payload, out);
        if taken.is_err() {
            self.login = Login::Ended(LoginEnd::Refused(LoginStatus::OutOfResources));
        }
        taken
    }

    /// Adds the last response, with which full feature begins under the number of its session, where a request awaits it, and
    /// nothing elsewhere. Where memory is refused the exchange stays as it was.
    #[tactic(auto, unfolding(crate::specs::Exchanges::accepted, crate::specs::Exchanges::last_response))]
    pub fn accept(&mut self, tsih: u16, out: &mut Vec<u8>) -> Result<(), AllocError>
        ensures state { OnOk result (self.new ≡ accepted self.old) }
        ensures out { OnOk result (out.new.items ≡ out.old.items ++ last_response self.old tsih) }
        ensures no_memory { OnErr result (self.new ≡ self.old) }
    {
        let (Login::Ended(LoginEnd::FullFeature(begun)), Some(request)) = (self.login, self.last)
        else {
            return Ok(());
        };
        let step = LoginStep::Ends(LoginEnd::FullFeature(begun));
        self.respond(step, &request, tsih, out)?;
        self.last = None;
        Ok(())
    }

    /// Refuses the login in answer to the request that came last, whether it awaits the last response or was answered. Nothing
    /// is added before the first request, nor where the login was accepted or refused already. Where memory is refused the
    /// login is refused nonetheless.
    #[tactic(auto, unfolding(crate::specs::Exchanges::refused_with, crate::specs::Exchanges::refusal))]
    pub fn refuse(&mut self, status: LoginStatus, out: &mut Vec<u8>) -> Result<(), AllocError>
        ensures state { OnOk result (self.new ≡ refused_with self.old status) }
        ensures out { OnOk result (out.new.items ≡ out.old.items ++ refusal self.old status) }
        ensures no_memory { OnErr result (IsRefused self.new status) }
    {
        let last = self.last;
        self.login = Login::Ended(LoginEnd::Refused(status));
        self.gathered.clear();
        self.unsent.clear();
        self.last = None;
        match last {
            None => Ok(()),
            Some(request) => {
                let step = LoginStep::Ends(LoginEnd::Refused(status));
                self.respond(step, &request, 0, out)
            }
        }
    }

    /// StatSN of the next response: behind the last one that of full feature's first.
    pub fn next_stat_sn(&self) -> SerialNumber
        ensures { result ≡ self.now.stat_sn }
    {
        self.stat_sn
    }

    /// The name that the initiator has given, empty before. It is let in only where the login begins a session.
    pub fn initiator_name(&self) -> &[u8]
        ensures { result.now ≡ self.now.name }
    {
        self.name.as_slice()
    }

    /// Takes a request of a login that is open.
    fn take_open(
        &mut self,
        target: &LoginTarget,
        request: &LoginRequest,
        payload: &[u8],
        out: &mut Vec<u8>,
    ) -> Result<LoginProgress, AllocError>
        ensures progress { IfOk result (λ p. p ≡ progress_open self.old target.now request.now payload.now) }
        ensures state { OnOk result (self.new ≡ taken_open self.old target.now request.now payload.now) }
        ensures out { OnOk result (out.new.items ≡ out.old.items ++ told_open self.old target.now request.now payload.now) }
    {
        let out_of_turn = self.is_out_of_turn(request, payload);
        self.last = Some(*request);
        if out_of_turn {
            self.refuse(LoginStatus::InitiatorError, out)?;
            return Ok(LoginProgress::Refused(LoginStatus::InitiatorError));
        }
        self.gathered.extend_from_slice(payload)?;
        self.note_name(request)?;
        let turn = self.answer_request(target, request)?;
        self.answer(turn, request, out)
    }

    /// Whether the request isn't one that may come now: a text that is too long, or one while a piece of an answer is to be asked
    /// for.
    fn is_out_of_turn(&self, request: &LoginRequest, payload: &[u8]) -> bool
        ensures { result ≡ is_out_of_turn self.now request.now payload.now }
    {
        self.gathered.as_slice().len() + payload.len() > LONGEST_TEXT
            || !self.unsent.as_slice().is_empty() && (request.continues || !payload.is_empty())
    }

    /// Notes the name of the initiator, as the first text gives it.
    fn note_name(&mut self, request: &LoginRequest) -> Result<(), AllocError>
        requires { length self.old.gathered ≤ 65536 }
        ensures { OnOk result (self.new ≡ noted self.old request.now) }
    {
        if request.continues {
            return Ok(());
        }
        let Login::Open(OpenLogin { admitted: None, .. }) = self.login else {
            return Ok(());
        };
        self.name = name_in(*self.name.allocator(), self.gathered.as_slice())?;
        Ok(())
    }

    /// Judges the request, and adds its answer to what is unsent.
    fn answer_request(
        &mut self,
        target: &LoginTarget,
        request: &LoginRequest,
    ) -> Result<Turn, AllocError>
        requires { length self.old.gathered ≤ 65536 }
        ensures state { OnOk result (self.new ≡ judged self.old target.now request.now) }
        ensures turn { IfOk result (λ turn. turn ≡ turn_in self.old target.now request.now) }
    {
        let judged = answer_request(
            self.login,
            self.name.as_slice(),
            self.chap,
            target,
            request,
            self.gathered.as_slice(),
            &mut self.unsent,
        )?;
        self.chap.phase = judged.phase;
        Ok(judged.turn)
    }

    /// Brings the login to what the request makes of it, and responds.
    fn answer(
        &mut self,
        turn: Turn,
        request: &LoginRequest,
        out: &mut Vec<u8>,
    ) -> Result<LoginProgress, AllocError>
        ensures progress { IfOk result (λ p. p ≡ turn_progress turn) }
        ensures state { OnOk result (self.new ≡ gone turn self.old request.now) }
        ensures out { OnOk result (out.new.items ≡ out.old.items ++ told turn self.old request.now) }
    {
        match turn {
            Turn::Refuses(status) => {
                self.refuse(status, out)?;
                Ok(LoginProgress::Refused(status))
            }
            Turn::Goes(Login::Ended(end)) => {
                self.move_on(request, Login::Ended(end));
                Ok(LoginProgress::at(end))
            }
            Turn::Goes(Login::Open(next)) => {
                let next = Login::Open(next);
                self.move_on(request, next);
                self.respond(next.answer_to(request), request, 0, out)?;
                Ok(LoginProgress::Answered)
            }
            Turn::Stays(next) => {
                self.move_on(request, next);
                self.respond(LoginStep::Continues { next_stage: None }, request, 0, out)?;
                Ok(LoginProgress::Answered)
            }
        }
    }

    /// Comes to the login. The text goes on only behind a request with C.
    fn move_on(&mut self, request: &LoginRequest, next: Login)
        ensures { self.new ≡ moved_on self.old request.now next }
    {
        self.login = next;
        if !request.continues {
            self.gathered.clear();
        }
    }

    /// Adds one response with as much of what is unsent as it may carry.
    fn respond(
        &mut self,
        step: LoginStep,
        request: &LoginRequest,
        tsih: u16,
        out: &mut Vec<u8>,
    ) -> Result<(), AllocError>
        ensures state { OnOk result (self.new ≡ responded self.old) }
        ensures out { OnOk result (out.new.items ≡ out.old.items ++ response self.old step request.now tsih) }
        ensures no_memory { OnErr result (self.new ≡ self.old) }
    {
        let count = self.unsent.len().min(self.login.piece_limit());
        let header = LoginResponse {
            continues: count < self.unsent.len(),
            ..step.response(request, tsih, self.stat_sn, window_end(request.cmd_sn))
        };
        write_response(out, header, &self.unsent.as_slice()[..count])?;
        pass(&mut self.unsent, count);
        self.stat_sn = self.stat_sn.next();
        Ok(())
    }
}
