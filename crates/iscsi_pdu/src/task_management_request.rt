use crate::fields::*;
use crate::header::*;
use crate::layout::*;
use crate::serial_number::SerialNumber;
use crate::task_management::TaskManagementFunction;

/// Task Management Function Request (RFC 7143, "Task Management Function Request").
#[derive(Clone, Copy)]
pub struct TaskManagementRequest {
    /// Whether it is for immediate delivery.
    pub immediate: bool,
    pub function: TaskManagementFunction,
    /// The logical unit number, eight bytes.
    pub lun: u64,
    pub initiator_task_tag: u32,
    pub referenced_task_tag: u32,
    pub cmd_sn: SerialNumber,
    pub exp_stat_sn: SerialNumber,
    pub ref_cmd_sn: SerialNumber,
}

impl TaskManagementRequest {
    ghost use Rattle.std.specs.Prelude.{◌≡◌, length};
    ghost use Rattle.iscsi_pdu.specs.Requests.{task_management_request, task_management_request_header};

    pub(crate) fn read(header: &[u8]) -> TaskManagementRequest
        requires { length header.now ≡ 48 }
        ensures { result ≡ task_management_request header.now }
    {
        TaskManagementRequest {
            immediate: bit_at(header, OPCODE, IMMEDIATE_BIT),
            function: TaskManagementFunction::of(seven_bits_at(header)),
            lun: u64_at(header, LUN),
            initiator_task_tag: u32_at(header, INITIATOR_TASK_TAG),
            referenced_task_tag: u32_at(header, REFERENCED_TASK_TAG),
            cmd_sn: serial_at(header, CMD_SN),
            exp_stat_sn: serial_at(header, EXP_STAT_SN),
            ref_cmd_sn: serial_at(header, REF_CMD_SN),
        }
    }

    pub(crate) fn header(&self) -> Header
        ensures { result ≡ task_management_request_header self.now }
    {
        Header {
            start: [
                flag(IMMEDIATE_BIT, self.immediate) + TASK_MANAGEMENT_REQUEST,
                FINAL + self.function.code(),
                0,
                0,
            ],
            lun: self.lun.to_be_bytes(),
            middle: rows(
                self.initiator_task_tag,
                self.referenced_task_tag,
                self.cmd_sn.number,
                self.exp_stat_sn.number,
            ),
            tail: rows(self.ref_cmd_sn.number, 0, 0, 0),
        }
    }
}
