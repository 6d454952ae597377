use crate::fields::*;
use crate::header::*;
use crate::layout::*;
use crate::serial_number::SerialNumber;

/// SCSI Data-Out (RFC 7143, "SCSI Data-Out").
#[derive(Clone, Copy)]
pub struct DataOut {
    /// F: no other PDU of the sequence follows.
    pub is_final: bool,
    /// The logical unit number, eight bytes.
    pub lun: u64,
    pub initiator_task_tag: u32,
    pub target_transfer_tag: u32,
    pub exp_stat_sn: SerialNumber,
    pub data_sn: SerialNumber,
    /// Where its data stand among all of the command, in bytes.
    pub buffer_offset: u32,
}

impl DataOut {
    ghost use Rattle.std.specs.Prelude.{◌≡◌, length};
    ghost use Rattle.iscsi_pdu.specs.Requests.{data_out, data_out_header};

    pub(crate) fn read(header: &[u8]) -> DataOut
        requires { length header.now ≡ 48 }
        ensures { result ≡ data_out header.now }
    {
        DataOut {
            is_final: bit_at(header, FLAGS, FINAL_BIT),
            lun: u64_at(header, LUN),
            initiator_task_tag: u32_at(header, INITIATOR_TASK_TAG),
            target_transfer_tag: u32_at(header, TARGET_TRANSFER_TAG),
            exp_stat_sn: serial_at(header, EXP_STAT_SN),
            data_sn: serial_at(header, DATA_SN),
            buffer_offset: u32_at(header, BUFFER_OFFSET),
        }
    }

    pub(crate) fn header(&self) -> Header
        ensures { result ≡ data_out_header self.now }
    {
        Header {
            start: [DATA_OUT, flag(FINAL_BIT, self.is_final), 0, 0],
            lun: self.lun.to_be_bytes(),
            middle: rows(
                self.initiator_task_tag,
                self.target_transfer_tag,
                0,
                self.exp_stat_sn.number,
            ),
            tail: rows(0, self.data_sn.number, self.buffer_offset, 0),
        }
    }
}
