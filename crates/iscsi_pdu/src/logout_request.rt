use crate::fields::*;
use crate::header::*;
use crate::layout::*;
use crate::logout::LogoutReason;
use crate::serial_number::SerialNumber;

/// Logout Request (RFC 7143, "Logout Request").
#[derive(Clone, Copy)]
pub struct LogoutRequest {
    /// Whether it is for immediate delivery.
    pub immediate: bool,
    pub reason: LogoutReason,
    pub initiator_task_tag: u32,
    /// The connection identifier.
    pub cid: u16,
    pub cmd_sn: SerialNumber,
    pub exp_stat_sn: SerialNumber,
}

impl LogoutRequest {
    ghost use Rattle.std.specs.Prelude.{◌≡◌, length};
    ghost use Rattle.iscsi_pdu.specs.Requests.{logout_request, logout_request_header};

    pub(crate) fn read(header: &[u8]) -> LogoutRequest
        requires { length header.now ≡ 48 }
        ensures { result ≡ logout_request header.now }
    {
        LogoutRequest {
            immediate: bit_at(header, OPCODE, IMMEDIATE_BIT),
            reason: LogoutReason::of(seven_bits_at(header)),
            initiator_task_tag: u32_at(header, INITIATOR_TASK_TAG),
            cid: u16_at(header, CID),
            cmd_sn: serial_at(header, CMD_SN),
            exp_stat_sn: serial_at(header, EXP_STAT_SN),
        }
    }

    pub(crate) fn header(&self) -> Header
        ensures { result ≡ logout_request_header self.now }
    {
        Header {
            start: [
                flag(IMMEDIATE_BIT, self.immediate) + LOGOUT_REQUEST,
                FINAL + self.reason.code(),
                0,
                0,
            ],
            lun: [0; 8],
            middle: rows_with_halves(
                self.initiator_task_tag,
                (self.cid, 0),
                self.cmd_sn.number,
                self.exp_stat_sn.number,
            ),
            tail: rows(0, 0, 0, 0),
        }
    }
}
