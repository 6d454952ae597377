use crate::fields::*;
use crate::header::*;
use crate::layout::*;
use crate::serial_number::SerialNumber;

/// Text Response (RFC 7143, "Text Response").
#[derive(Clone, Copy)]
pub struct TextResponse {
    /// F: no other PDU of the sequence follows.
    pub is_final: bool,
    /// C: the text goes on in another PDU.
    pub continues: bool,
    /// The logical unit number, eight bytes.
    pub lun: u64,
    pub initiator_task_tag: u32,
    pub target_transfer_tag: u32,
    pub stat_sn: SerialNumber,
    pub exp_cmd_sn: SerialNumber,
    pub max_cmd_sn: SerialNumber,
}

impl TextResponse {
    ghost use Rattle.std.specs.Prelude.{◌≡◌, length};
    ghost use Rattle.iscsi_pdu.specs.Responses.{text_response, text_response_header};

    pub(crate) fn read(header: &[u8]) -> TextResponse
        requires { length header.now ≡ 48 }
        ensures { result ≡ text_response header.now }
    {
        TextResponse {
            is_final: bit_at(header, FLAGS, FINAL_BIT),
            continues: bit_at(header, FLAGS, CONTINUE_BIT),
            lun: u64_at(header, LUN),
            initiator_task_tag: u32_at(header, INITIATOR_TASK_TAG),
            target_transfer_tag: u32_at(header, TARGET_TRANSFER_TAG),
            stat_sn: serial_at(header, STAT_SN),
            exp_cmd_sn: serial_at(header, EXP_CMD_SN),
            max_cmd_sn: serial_at(header, MAX_CMD_SN),
        }
    }

    pub(crate) fn header(&self) -> Header
        ensures { result ≡ text_response_header self.now }
    {
        Header {
            start: [
                TEXT_RESPONSE,
                flag(FINAL_BIT, self.is_final) + flag(CONTINUE_BIT, self.continues),
                0,
                0,
            ],
            lun: self.lun.to_be_bytes(),
            middle: rows(
                self.initiator_task_tag,
                self.target_transfer_tag,
                self.stat_sn.number,
                self.exp_cmd_sn.number,
            ),
            tail: rows(self.max_cmd_sn.number, 0, 0, 0),
        }
    }
}
