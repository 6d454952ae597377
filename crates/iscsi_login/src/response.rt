ghost use Rattle.std.specs.Prelude.{◌≡◌};

use crate::login::{LoginEnd, LoginStep};
use iscsi_pdu::{LoginRequest, LoginResponse, LoginStatus, SerialNumber, Stage};

impl LoginStep {
    ghost use Rattle.iscsi_login.specs.Responses.{status_of, next_stage_of, response_of};

    /// How the request was met.
    pub fn status(self) -> LoginStatus
        ensures { result ≡ status_of self }
    {
        match self {
            LoginStep::Continues { .. } | LoginStep::Ends(LoginEnd::FullFeature(_)) => {
                LoginStatus::Success
            }
            LoginStep::Ends(LoginEnd::Refused(status)) => status,
        }
    }

    /// The stage that begins with the response, if one does.
    pub fn next_stage(self) -> Option<Stage>
        ensures { result ≡ next_stage_of self }
    {
        match self {
            LoginStep::Continues { next_stage } => next_stage,
            LoginStep::Ends(LoginEnd::FullFeature(_)) => Some(Stage::FullFeaturePhase),
            LoginStep::Ends(LoginEnd::Refused(_)) => None,
        }
    }

    /// The header of the response whose text is whole (RFC 7143, "Login Response"). `tsih` is the number of the session, which
    /// stands in the last response alone; before it stands the request's own.
    pub fn response(
        self,
        request: &LoginRequest,
        tsih: u16,
        stat_sn: SerialNumber,
        max_cmd_sn: SerialNumber,
    ) -> LoginResponse
        ensures { result ≡ response_of self request.now tsih stat_sn max_cmd_sn }
    {
        let next_stage = self.next_stage();
        LoginResponse {
            transit: next_stage.is_some(),
            continues: false,
            current_stage: request.current_stage,
            next_stage: next_stage.unwrap_or(Stage::SecurityNegotiation),
            version_max: VERSION,
            version_active: VERSION,
            isid: request.isid,
            tsih: match self {
                LoginStep::Ends(LoginEnd::FullFeature(_)) => tsih,
                _ => request.tsih,
            },
            initiator_task_tag: request.initiator_task_tag,
            stat_sn,
            exp_cmd_sn: request.cmd_sn,
            max_cmd_sn,
            status: self.status(),
        }
    }
}

/// The only version of the protocol.
const VERSION: u8 = 0;
