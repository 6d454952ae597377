use crate::fields::*;
use crate::header::*;
use crate::layout::*;
use crate::serial_number::SerialNumber;

/// NOP-Out (RFC 7143, "NOP-Out").
#[derive(Clone, Copy)]
pub struct NopOut {
    /// Whether it is for immediate delivery.
    pub immediate: bool,
    /// The logical unit number, eight bytes.
    pub lun: u64,
    pub initiator_task_tag: u32,
    pub target_transfer_tag: u32,
    pub cmd_sn: SerialNumber,
    pub exp_stat_sn: SerialNumber,
}

impl NopOut {
    ghost use Rattle.std.specs.Prelude.{◌≡◌, length};
    ghost use Rattle.iscsi_pdu.specs.Requests.{nop_out, nop_out_header};

    pub(crate) fn read(header: &[u8]) -> NopOut
        requires { length header.now ≡ 48 }
        ensures { result ≡ nop_out header.now }
    {
        NopOut {
            immediate: bit_at(header, OPCODE, IMMEDIATE_BIT),
            lun: u64_at(header, LUN),
            initiator_task_tag: u32_at(header, INITIATOR_TASK_TAG),
            target_transfer_tag: u32_at(header, TARGET_TRANSFER_TAG),
            cmd_sn: serial_at(header, CMD_SN),
            exp_stat_sn: serial_at(header, EXP_STAT_SN),
        }
    }

    pub(crate) fn header(&self) -> Header
        ensures { result ≡ nop_out_header self.now }
    {
        Header {
            start: [flag(IMMEDIATE_BIT, self.immediate) + NOP_OUT, FINAL, 0, 0],
            lun: self.lun.to_be_bytes(),
            middle: rows(
                self.initiator_task_tag,
                self.target_transfer_tag,
                self.cmd_sn.number,
                self.exp_stat_sn.number,
            ),
            tail: rows(0, 0, 0, 0),
        }
    }
}
