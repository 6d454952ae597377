use crate::fields::*;
use crate::header::*;
use crate::layout::*;
use crate::serial_number::SerialNumber;

/// NOP-In (RFC 7143, "NOP-In").
#[derive(Clone, Copy)]
pub struct NopIn {
    /// The logical unit number, eight bytes.
    pub lun: u64,
    pub initiator_task_tag: u32,
    pub target_transfer_tag: u32,
    pub stat_sn: SerialNumber,
    pub exp_cmd_sn: SerialNumber,
    pub max_cmd_sn: SerialNumber,
}

impl NopIn {
    ghost use Rattle.std.specs.Prelude.{◌≡◌, length};
    ghost use Rattle.iscsi_pdu.specs.Responses.{nop_in, nop_in_header};

    pub(crate) fn read(header: &[u8]) -> NopIn
        requires { length header.now ≡ 48 }
        ensures { result ≡ nop_in header.now }
    {
        NopIn {
            lun: u64_at(header, LUN),
            initiator_task_tag: u32_at(header, INITIATOR_TASK_TAG),
            target_transfer_tag: u32_at(header, TARGET_TRANSFER_TAG),
            stat_sn: serial_at(header, STAT_SN),
            exp_cmd_sn: serial_at(header, EXP_CMD_SN),
            max_cmd_sn: serial_at(header, MAX_CMD_SN),
        }
    }

    pub(crate) fn header(&self) -> Header
        ensures { result ≡ nop_in_header self.now }
    {
        Header {
            start: [NOP_IN, FINAL, 0, 0],
            lun: self.lun.to_be_bytes(),
            middle: rows(
                self.initiator_task_tag,
                self.target_transfer_tag,
                self.stat_sn.number,
                self.exp_cmd_sn.number,
            ),
            tail: rows(self.max_cmd_sn.number, 0, 0, 0),
        }
    }
}
