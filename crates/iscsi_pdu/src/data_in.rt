use crate::completion::*;
use crate::fields::*;
use crate::header::*;
use crate::layout::*;
use crate::serial_number::SerialNumber;

/// SCSI Data-In (RFC 7143, "SCSI Data-In").
#[derive(Clone, Copy)]
pub struct DataIn {
    /// F: no other PDU of the sequence follows.
    pub is_final: bool,
    pub initiator_task_tag: u32,
    /// With S: how the command ended.
    pub completion: Option<Completion>,
    pub exp_cmd_sn: SerialNumber,
    pub max_cmd_sn: SerialNumber,
    pub data_sn: SerialNumber,
    /// Where its data stand among all of the command, in bytes.
    pub buffer_offset: u32,
}

impl DataIn {
    ghost use Rattle.std.specs.Prelude.{◌≡◌, length};
    ghost use Rattle.iscsi_pdu.specs.Responses.{data_in, data_in_header};

    pub(crate) fn read(header: &[u8]) -> DataIn
        requires { length header.now ≡ 48 }
        ensures { result ≡ data_in header.now }
    {
        DataIn {
            is_final: bit_at(header, FLAGS, FINAL_BIT),
            initiator_task_tag: u32_at(header, INITIATOR_TASK_TAG),
            completion: completion_at(header),
            exp_cmd_sn: serial_at(header, EXP_CMD_SN),
            max_cmd_sn: serial_at(header, MAX_CMD_SN),
            data_sn: serial_at(header, DATA_SN),
            buffer_offset: u32_at(header, BUFFER_OFFSET),
        }
    }

    pub(crate) fn header(&self) -> Header
        ensures { result ≡ data_in_header self.now }
    {
        Header {
            start: [
                DATA_IN,
                flag(FINAL_BIT, self.is_final) + flags_of(self.completion),
                0,
                status_of(self.completion),
            ],
            lun: [0; 8],
            middle: rows(
                self.initiator_task_tag,
                RESERVED_TAG,
                stat_sn_of(self.completion),
                self.exp_cmd_sn.number,
            ),
            tail: rows(
                self.max_cmd_sn.number,
                self.data_sn.number,
                self.buffer_offset,
                count_of(self.completion),
            ),
        }
    }
}
