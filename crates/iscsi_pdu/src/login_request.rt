use crate::fields::*;
use crate::header::*;
use crate::layout::*;
use crate::serial_number::SerialNumber;
use crate::stage::Stage;

/// Login Request (RFC 7143, "Login Request").
#[derive(Clone, Copy)]
pub struct LoginRequest {
    /// T: the initiator is ready for the next stage.
    pub transit: bool,
    /// C: the text goes on in another PDU.
    pub continues: bool,
    /// CSG.
    pub current_stage: Stage,
    /// NSG.
    pub next_stage: Stage,
    pub version_max: u8,
    pub version_min: u8,
    /// The initiator's part of the session identifier, six bytes.
    pub isid: u64,
    /// The target's part of the session identifier.
    pub tsih: u16,
    pub initiator_task_tag: u32,
    /// The connection identifier.
    pub cid: u16,
    pub cmd_sn: SerialNumber,
    pub exp_stat_sn: SerialNumber,
}

impl LoginRequest {
    ghost use Rattle.std.specs.Prelude.{◌≡◌, length};
    ghost use Rattle.iscsi_pdu.specs.Requests.{login_request, login_request_header};

    pub(crate) fn read(header: &[u8]) -> LoginRequest
        requires { length header.now ≡ 48 }
        ensures { result ≡ login_request header.now }
    {
        LoginRequest {
            transit: bit_at(header, FLAGS, TRANSIT_BIT),
            continues: bit_at(header, FLAGS, CONTINUE_BIT),
            current_stage: Stage::of(current_stage_at(header)),
            next_stage: Stage::of(next_stage_at(header)),
            version_max: header[VERSION_MAX],
            version_min: header[VERSION_MIN],
            isid: u48_at(header, ISID),
            tsih: u16_at(header, TSIH),
            initiator_task_tag: u32_at(header, INITIATOR_TASK_TAG),
            cid: u16_at(header, CID),
            cmd_sn: serial_at(header, CMD_SN),
            exp_stat_sn: serial_at(header, EXP_STAT_SN),
        }
    }

    pub(crate) fn header(&self) -> Header
        ensures { result ≡ login_request_header self.now }
    {
        Header {
            start: [
                IMMEDIATE + LOGIN_REQUEST,
                flag(TRANSIT_BIT, self.transit)
                    + flag(CONTINUE_BIT, self.continues)
                    + CURRENT_STAGE * self.current_stage.code()
                    + self.next_stage.code(),
                self.version_max,
                self.version_min,
            ],
            lun: session_identifier(self.isid, self.tsih),
            middle: rows_with_halves(
                self.initiator_task_tag,
                (self.cid, 0),
                self.cmd_sn.number,
                self.exp_stat_sn.number,
            ),
            tail: rows(0, 0, 0, 0),
        }
    }
}
