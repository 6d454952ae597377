use crate::fields::*;
use crate::header::*;
use crate::layout::*;
use crate::serial_number::SerialNumber;

/// Ready To Transfer (R2T) (RFC 7143, "Ready To Transfer (R2T)").
#[derive(Clone, Copy)]
pub struct ReadyToTransfer {
    /// The logical unit number, eight bytes.
    pub lun: u64,
    pub initiator_task_tag: u32,
    pub target_transfer_tag: u32,
    pub stat_sn: SerialNumber,
    pub exp_cmd_sn: SerialNumber,
    pub max_cmd_sn: SerialNumber,
    pub r2t_sn: SerialNumber,
    /// Where the data begin among all of the command, in bytes.
    pub buffer_offset: u32,
    /// In bytes.
    pub desired_data_transfer_length: u32,
}

impl ReadyToTransfer {
    ghost use Rattle.std.specs.Prelude.{◌≡◌, length};
    ghost use Rattle.iscsi_pdu.specs.Responses.{ready_to_transfer, ready_to_transfer_header};

    pub(crate) fn read(header: &[u8]) -> ReadyToTransfer
        requires { length header.now ≡ 48 }
        ensures { result ≡ ready_to_transfer header.now }
    {
        ReadyToTransfer {
            lun: u64_at(header, LUN),
            initiator_task_tag: u32_at(header, INITIATOR_TASK_TAG),
            target_transfer_tag: u32_at(header, TARGET_TRANSFER_TAG),
            stat_sn: serial_at(header, STAT_SN),
            exp_cmd_sn: serial_at(header, EXP_CMD_SN),
            max_cmd_sn: serial_at(header, MAX_CMD_SN),
            r2t_sn: serial_at(header, R2T_SN),
            buffer_offset: u32_at(header, BUFFER_OFFSET),
            desired_data_transfer_length: u32_at(header, DESIRED_DATA_TRANSFER_LENGTH),
        }
    }

    pub(crate) fn header(&self) -> Header
        ensures { result ≡ ready_to_transfer_header self.now }
    {
        Header {
            start: [R2T, FINAL, 0, 0],
            lun: self.lun.to_be_bytes(),
            middle: rows(
                self.initiator_task_tag,
                self.target_transfer_tag,
                self.stat_sn.number,
                self.exp_cmd_sn.number,
            ),
            tail: rows(
                self.max_cmd_sn.number,
                self.r2t_sn.number,
                self.buffer_offset,
                self.desired_data_transfer_length,
            ),
        }
    }
}
