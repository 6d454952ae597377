use crate::fields::*;
use crate::header::*;
use crate::layout::*;
use crate::serial_number::SerialNumber;

/// Text Request (RFC 7143, "Text Request").
#[derive(Clone, Copy)]
pub struct TextRequest {
    /// Whether it is for immediate delivery.
    pub immediate: bool,
    /// F: no other PDU of the sequence follows.
    pub is_final: bool,
    /// C: the text goes on in another PDU.
    pub continues: bool,
    /// The logical unit number, eight bytes.
    pub lun: u64,
    pub initiator_task_tag: u32,
    pub target_transfer_tag: u32,
    pub cmd_sn: SerialNumber,
    pub exp_stat_sn: SerialNumber,
}

impl TextRequest {
    ghost use Rattle.std.specs.Prelude.{◌≡◌, length};
    ghost use Rattle.iscsi_pdu.specs.Requests.{text_request, text_request_header};

    pub(crate) fn read(header: &[u8]) -> TextRequest
        requires { length header.now ≡ 48 }
        ensures { result ≡ text_request header.now }
    {
        TextRequest {
            immediate: bit_at(header, OPCODE, IMMEDIATE_BIT),
            is_final: bit_at(header, FLAGS, FINAL_BIT),
            continues: bit_at(header, FLAGS, CONTINUE_BIT),
            lun: u64_at(header, LUN),
            initiator_task_tag: u32_at(header, INITIATOR_TASK_TAG),
            target_transfer_tag: u32_at(header, TARGET_TRANSFER_TAG),
            cmd_sn: serial_at(header, CMD_SN),
            exp_stat_sn: serial_at(header, EXP_STAT_SN),
        }
    }

    pub(crate) fn header(&self) -> Header
        ensures { result ≡ text_request_header self.now }
    {
        Header {
            start: [
                flag(IMMEDIATE_BIT, self.immediate) + TEXT_REQUEST,
                flag(FINAL_BIT, self.is_final) + flag(CONTINUE_BIT, self.continues),
                0,
                0,
            ],
            lun: self.lun.to_be_bytes(),
            middle: rows(
                self.initiator_task_tag,
                self.target_transfer_tag,
                self.cmd_sn.number,
                self.exp_stat_sn.number,
            ),
            tail: rows(0, 0, 0, 0),
        }
    }
}
