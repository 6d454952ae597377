ghost use Rattle.std.specs.Prelude.{◌≡◌, ◌≤◌, ◌++◌, length, OnOk, OnErr, IfOk};

use crate::admitted::{Admitted, admitted_by};
use crate::answers::write_answers;
use crate::identity::LoginIdentity;
use crate::stages::{is_awaited, leads_to};
use crate::target::LoginTarget;
use iscsi_chap::{Admission, SessionType};
use iscsi_keys::SessionParameters;
use iscsi_pdu::{LoginRequest, LoginStatus, SerialNumber, Stage};
use scsi_cdb::Profile;
use std::alloc::AllocError;

/// A login phase, as far as it has come.
#[derive(Clone, Copy)]
pub enum Login {
    Open(OpenLogin),
    Ended(LoginEnd),
}

/// A login that waits for a request.
#[derive(Clone, Copy)]
pub struct OpenLogin {
    /// The portal group that the initiator has come to.
    pub portal_group: u16,
    /// What all requests carry, once there was one.
    pub identity: Option<LoginIdentity>,
    /// The stage of the next request, once there was one.
    pub stage: Option<Stage>,
    /// Whether the initiator was let in, and what is agreed since.
    pub admitted: Option<Admitted>,
}

/// How a login has ended.
#[derive(Clone, Copy)]
pub enum LoginEnd {
    FullFeature(FullFeature),
    /// The connection ends.
    Refused(LoginStatus),
}

/// The session that a login has begun.
#[derive(Clone, Copy)]
pub struct FullFeature {
    pub portal_group: u16,
    pub admission: Admission,
    pub session_type: SessionType,
    /// The initiator's part of the session identifier, six bytes.
    pub isid: u64,
    /// The target's part as the initiator has given it: 0 where it asks for a new session.
    pub tsih: u16,
    /// The connection identifier.
    pub cid: u16,
    /// The CmdSN that is expected first.
    pub cmd_sn: SerialNumber,
    pub parameters: SessionParameters,
    /// The profile of the library behind the target.
    pub profile: Profile,
    /// The place among the target's secrets, counted from 0, of the entry by which the initiator has shown in an exchange who it
    /// is; `None` where it had nothing to show. A login by itself looks at no key of CHAP, and says `None`.
    pub proved: Option<usize>,
}

/// How a request is answered.
#[derive(Clone, Copy)]
pub enum LoginStep {
    /// With Success, and where the next stage begins (T) with that.
    Continues { next_stage: Option<Stage> },
    /// With Success and the full feature phase as the next stage, or with a refusal.
    Ends(LoginEnd),
}

impl Login {
    ghost use Rattle.iscsi_login.specs.Logins.{begun, stepped, step_of, with_proof};
    ghost use Rattle.iscsi_login.specs.AnswerTexts.{answer_text, text_unless_refused};

    /// Before the first request of an initiator that has come to the portal group.
    pub fn new(portal_group: u16) -> Login
        ensures { result ≡ begun portal_group }
    {
        Login::Open(OpenLogin {
            portal_group,
            identity: None,
            stage: None,
            admitted: None,
        })
    }

    /// Takes a request, says how it is answered, and adds the text of that answer (RFC 7143, "Login Phase"). `text` is what the
    /// data segments of the requests with C before it and its own are together, 65,536 bytes at most; of a request with C it
    /// isn't looked at. A login that has ended answers each request as it ended, and without a text. Where memory is refused the
    /// login stays as it was, and what was added is part of a text at most.
    pub fn step(
        &mut self,
        target: &LoginTarget,
        request: &LoginRequest,
        text: &[u8],
        answer: &mut Vec<u8>,
    ) -> Result<LoginStep, AllocError>
        requires { length text.now ≤ 65536 }
        ensures state { OnOk result (self.new ≡ stepped self.old target.now request.now text.now) }
        ensures step { IfOk result (λ step. step ≡ step_of self.new request.now) }
        ensures text { OnOk result (answer.new.items ≡ answer.old.items ++ answer_text self.old target.now request.now text.now) }
        ensures no_memory { OnErr result (self.new ≡ self.old) }
    {
        let next = self.after(target, request, text);
        self.write_text(next, target, request, text, answer)?;
        *self = next;
        Ok(next.answer_to(request))
    }

    /// Adds the text of the answer to a request, after which the login is the next one.
    pub(crate) fn write_text(
        self,
        next: Login,
        target: &LoginTarget,
        request: &LoginRequest,
        text: &[u8],
        answer: &mut Vec<u8>,
    ) -> Result<(), AllocError>
        requires { length text.now ≤ 65536 }
        ensures { OnOk result (answer.new.items ≡ answer.old.items ++ text_unless_refused next self request.now target.now text.now) }
    {
        match (next, self) {
            (Login::Ended(LoginEnd::Refused(_)), _) | (_, Login::Ended(_)) => Ok(()),
            (_, Login::Open(open)) => {
                if request.continues {
                    return Ok(());
                }
                write_answers(answer, open.portal_group, open.admitted, target, text)
            }
        }
    }

    pub(crate) fn after(self, target: &LoginTarget, request: &LoginRequest, text: &[u8]) -> Login
        requires { length text.now ≤ 65536 }
        ensures { result ≡ stepped self target.now request.now text.now }
    {
        match self {
            Login::Ended(_) => self,
            Login::Open(open) => open.after(target, request, text),
        }
    }

    /// The login whose session, where it has begun, is of an initiator that has shown by the entry at this place who it is.
    pub(crate) fn with_proof(self, proved: Option<usize>) -> Login
        ensures { result ≡ with_proof self proved }
    {
        match self {
            Login::Ended(LoginEnd::FullFeature(begun)) => {
                Login::Ended(LoginEnd::FullFeature(FullFeature { proved, ..begun }))
            }
            Login::Open(_) | Login::Ended(LoginEnd::Refused(_)) => self,
        }
    }

    pub(crate) fn answer_to(self, request: &LoginRequest) -> LoginStep
        ensures { result ≡ step_of self request.now }
    {
        match self {
            Login::Ended(end) => LoginStep::Ends(end),
            Login::Open(_) => LoginStep::Continues {
                next_stage: if request.transit {
                    Some(request.next_stage)
                } else {
                    None
                },
            },
        }
    }
}

impl OpenLogin {
    ghost use Rattle.iscsi_login.specs.Logins.{stepped_open, request_fault, is_legal, is_its, open_at, moved};

    fn after(self, target: &LoginTarget, request: &LoginRequest, text: &[u8]) -> Login
        requires { length text.now ≤ 65536 }
        ensures { result ≡ stepped_open self target.now request.now text.now }
    {
        if let Some(status) = self.fault_of(request) {
            return Login::Ended(LoginEnd::Refused(status));
        }
        if request.continues {
            return self.at(request, request.current_stage, self.admitted);
        }
        match admitted_by(self.admitted, target, text) {
            Err(status) => Login::Ended(LoginEnd::Refused(status)),
            Ok(admitted) => self.moved(request, admitted),
        }
    }

    /// Why the login is refused by the request's header alone.
    fn fault_of(self, request: &LoginRequest) -> Option<LoginStatus>
        ensures { result ≡ request_fault self request.now }
    {
        if request.version_min > 0 {
            return Some(LoginStatus::UnsupportedVersion);
        }
        if self.is_legal(request) {
            None
        } else {
            Some(LoginStatus::InitiatorError)
        }
    }

    /// Whether the request is of this login, and of a stage and to a stage that it may be.
    fn is_legal(self, request: &LoginRequest) -> bool
        ensures { result ≡ is_legal self request.now }
    {
        self.is_its(request)
            && is_awaited(self.stage, request.current_stage)
            && (!request.transit
                || !request.continues && leads_to(request.current_stage, request.next_stage))
    }

    fn is_its(self, request: &LoginRequest) -> bool
        ensures { result ≡ is_its self.identity request.now }
    {
        match self.identity {
            None => true,
            Some(identity) => identity.is_of(request),
        }
    }

    /// The login whose next request is of the stage.
    fn at(self, request: &LoginRequest, stage: Stage, admitted: Option<Admitted>) -> Login
        ensures { result ≡ open_at self.portal_group request.now stage admitted }
    {
        Login::Open(OpenLogin {
            portal_group: self.portal_group,
            identity: Some(LoginIdentity::of(request)),
            stage: Some(stage),
            admitted,
        })
    }

    /// The login once the request was taken, in the stage that the request asks for.
    fn moved(self, request: &LoginRequest, admitted: Admitted) -> Login
        ensures { result ≡ moved self.portal_group request.now admitted }
    {
        if !request.transit {
            return self.at(request, request.current_stage, Some(admitted));
        }
        match request.next_stage {
            Stage::FullFeaturePhase => Login::Ended(LoginEnd::FullFeature(FullFeature {
                portal_group: self.portal_group,
                admission: admitted.admission,
                session_type: admitted.session_type,
                isid: request.isid,
                tsih: request.tsih,
                cid: request.cid,
                cmd_sn: request.cmd_sn,
                parameters: admitted.negotiation.parameters,
                profile: admitted.negotiation.terms.profile,
                proved: None,
            })),
            stage => self.at(request, stage, Some(admitted)),
        }
    }
}
