use crate::fields::*;
use crate::header::*;
use crate::layout::*;
use crate::login_status::LoginStatus;
use crate::serial_number::SerialNumber;
use crate::stage::Stage;

/// Login Response (RFC 7143, "Login Response").
#[derive(Clone, Copy)]
pub struct LoginResponse {
    /// T: the next stage begins.
    pub transit: bool,
    /// C: the text goes on in another PDU.
    pub continues: bool,
    /// CSG.
    pub current_stage: Stage,
    /// NSG.
    pub next_stage: Stage,
    pub version_max: u8,
    pub version_active: u8,
    /// The initiator's part of the session identifier, six bytes.
    pub isid: u64,
    /// The target's part of the session identifier.
    pub tsih: u16,
    pub initiator_task_tag: u32,
    pub stat_sn: SerialNumber,
    pub exp_cmd_sn: SerialNumber,
    pub max_cmd_sn: SerialNumber,
    pub status: LoginStatus,
}

impl LoginResponse {
    ghost use Rattle.std.specs.Prelude.{◌≡◌, length};
    ghost use Rattle.iscsi_pdu.specs.Responses.{login_response, login_response_header};

    pub(crate) fn read(header: &[u8]) -> LoginResponse
        requires { length header.now ≡ 48 }
        ensures { result ≡ login_response header.now }
    {
        LoginResponse {
            transit: bit_at(header, FLAGS, TRANSIT_BIT),
            continues: bit_at(header, FLAGS, CONTINUE_BIT),
            current_stage: Stage::of(current_stage_at(header)),
            next_stage: Stage::of(next_stage_at(header)),
            version_max: header[VERSION_MAX],
            version_active: header[VERSION_ACTIVE],
            isid: u48_at(header, ISID),
            tsih: u16_at(header, TSIH),
            initiator_task_tag: u32_at(header, INITIATOR_TASK_TAG),
            stat_sn: serial_at(header, STAT_SN),
            exp_cmd_sn: serial_at(header, EXP_CMD_SN),
            max_cmd_sn: serial_at(header, MAX_CMD_SN),
            status: LoginStatus::of(u16_at(header, LOGIN_STATUS)),
        }
    }

    pub(crate) fn header(&self) -> Header
        ensures { result ≡ login_response_header self.now }
    {
        Header {
            start: [
                LOGIN_RESPONSE,
                flag(TRANSIT_BIT, self.transit)
                    + flag(CONTINUE_BIT, self.continues)
                    + CURRENT_STAGE * self.current_stage.code()
                    + self.next_stage.code(),
                self.version_max,
                self.version_active,
            ],
            lun: session_identifier(self.isid, self.tsih),
            middle: rows(
                self.initiator_task_tag,
                0,
                self.stat_sn.number,
                self.exp_cmd_sn.number,
            ),
            tail: rows_with_halves(self.max_cmd_sn.number, (self.status.code(), 0), 0, 0),
        }
    }
}
