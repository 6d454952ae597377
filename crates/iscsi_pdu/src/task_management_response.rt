use crate::fields::*;
use crate::header::*;
use crate::layout::*;
use crate::serial_number::SerialNumber;
use crate::task_management_result::TaskManagementResult;

/// Task Management Function Response (RFC 7143, "Task Management Function Response").
#[derive(Clone, Copy)]
pub struct TaskManagementResponse {
    pub response: TaskManagementResult,
    pub initiator_task_tag: u32,
    pub stat_sn: SerialNumber,
    pub exp_cmd_sn: SerialNumber,
    pub max_cmd_sn: SerialNumber,
}

impl TaskManagementResponse {
    ghost use Rattle.std.specs.Prelude.{◌≡◌, length};
    ghost use Rattle.iscsi_pdu.specs.Responses.{task_management_response, task_management_response_header};

    pub(crate) fn read(header: &[u8]) -> TaskManagementResponse
        requires { length header.now ≡ 48 }
        ensures { result ≡ task_management_response header.now }
    {
        TaskManagementResponse {
            response: TaskManagementResult::of(header[RESPONSE]),
            initiator_task_tag: u32_at(header, INITIATOR_TASK_TAG),
            stat_sn: serial_at(header, STAT_SN),
            exp_cmd_sn: serial_at(header, EXP_CMD_SN),
            max_cmd_sn: serial_at(header, MAX_CMD_SN),
        }
    }

    pub(crate) fn header(&self) -> Header
        ensures { result ≡ task_management_response_header self.now }
    {
        Header {
            start: [TASK_MANAGEMENT_RESPONSE, FINAL, self.response.code(), 0],
            lun: [0; 8],
            middle: rows(
                self.initiator_task_tag,
                0,
                self.stat_sn.number,
                self.exp_cmd_sn.number,
            ),
            tail: rows(self.max_cmd_sn.number, 0, 0, 0),
        }
    }
}
