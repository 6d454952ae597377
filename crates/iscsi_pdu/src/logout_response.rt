ghost use Rattle.std.specs.Prelude.{◌≡◌, ◌++◌, length};
ghost use Rattle.byteorder.specs.Endian.{big_bytes};
ghost use Rattle.iscsi_pdu.specs.Fields.{halves};
ghost use Rattle.iscsi_pdu.specs.Responses.{logout_response, logout_response_header};

use crate::fields::*;
use crate::header::*;
use crate::layout::*;
use crate::logout::LogoutResult;
use crate::serial_number::SerialNumber;

/// Logout Response (RFC 7143, "Logout Response").
#[derive(Clone, Copy)]
pub struct LogoutResponse {
    pub response: LogoutResult,
    pub initiator_task_tag: u32,
    pub stat_sn: SerialNumber,
    pub exp_cmd_sn: SerialNumber,
    pub max_cmd_sn: SerialNumber,
    /// In seconds.
    pub time2wait: u16,
    /// In seconds.
    pub time2retain: u16,
}

impl LogoutResponse {
    pub(crate) fn read(header: &[u8]) -> LogoutResponse
        requires { length header.now ≡ 48 }
        ensures { result ≡ logout_response header.now }
    {
        LogoutResponse {
            response: LogoutResult::of(header[RESPONSE]),
            initiator_task_tag: u32_at(header, INITIATOR_TASK_TAG),
            stat_sn: serial_at(header, STAT_SN),
            exp_cmd_sn: serial_at(header, EXP_CMD_SN),
            max_cmd_sn: serial_at(header, MAX_CMD_SN),
            time2wait: u16_at(header, TIME2WAIT),
            time2retain: u16_at(header, TIME2RETAIN),
        }
    }

    pub(crate) fn header(&self) -> Header
        ensures { result ≡ logout_response_header self.now }
    {
        Header {
            start: [LOGOUT_RESPONSE, FINAL, self.response.code(), 0],
            lun: [0; 8],
            middle: rows(
                self.initiator_task_tag,
                0,
                self.stat_sn.number,
                self.exp_cmd_sn.number,
            ),
            tail: time_rows(self),
        }
    }
}

/// Bytes 32 to 47.
fn time_rows(response: &LogoutResponse) -> [u8; 16]
    ensures { result ≡ big_bytes 4 response.now.max_cmd_sn.number ++ big_bytes 4 0 ++ halves response.now.time2wait response.now.time2retain ++ big_bytes 4 0 }
{
    let [n3, n2, n1, n0] = response.max_cmd_sn.number.to_be_bytes();
    let [a1, a0] = response.time2wait.to_be_bytes();
    let [b1, b0] = response.time2retain.to_be_bytes();
    [n3, n2, n1, n0, 0, 0, 0, 0, a1, a0, b1, b0, 0, 0, 0, 0]
}
