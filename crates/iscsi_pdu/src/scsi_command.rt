use crate::fields::*;
use crate::header::*;
use crate::layout::*;
use crate::serial_number::SerialNumber;
use crate::task_attribute::TaskAttribute;

/// SCSI Command (RFC 7143, "SCSI Command").
#[derive(Clone, Copy)]
pub struct ScsiCommand {
    /// Whether it is for immediate delivery.
    pub immediate: bool,
    /// F: no other PDU of the sequence follows.
    pub is_final: bool,
    /// R: data are expected from the target.
    pub reads: bool,
    /// W: data go to the target.
    pub writes: bool,
    pub task_attribute: TaskAttribute,
    /// The logical unit number, eight bytes.
    pub lun: u64,
    pub initiator_task_tag: u32,
    /// In bytes.
    pub expected_data_transfer_length: u32,
    pub cmd_sn: SerialNumber,
    pub exp_stat_sn: SerialNumber,
    /// The CDB, or its first 16 bytes.
    pub cdb: [u8; 16],
}

impl ScsiCommand {
    ghost use Rattle.std.specs.Prelude.{◌≡◌, length};
    ghost use Rattle.iscsi_pdu.specs.Requests.{scsi_command, scsi_command_header};

    pub(crate) fn read(header: &[u8]) -> ScsiCommand
        requires { length header.now ≡ 48 }
        ensures { result ≡ scsi_command header.now }
    {
        ScsiCommand {
            immediate: bit_at(header, OPCODE, IMMEDIATE_BIT),
            is_final: bit_at(header, FLAGS, FINAL_BIT),
            reads: bit_at(header, FLAGS, READ_BIT),
            writes: bit_at(header, FLAGS, WRITE_BIT),
            task_attribute: TaskAttribute::of(three_bits_at(header)),
            lun: u64_at(header, LUN),
            initiator_task_tag: u32_at(header, INITIATOR_TASK_TAG),
            expected_data_transfer_length: u32_at(header, EXPECTED_DATA_TRANSFER_LENGTH),
            cmd_sn: serial_at(header, CMD_SN),
            exp_stat_sn: serial_at(header, EXP_STAT_SN),
            cdb: cdb_at(header),
        }
    }

    pub(crate) fn header(&self) -> Header
        ensures { result ≡ scsi_command_header self.now }
    {
        Header {
            start: [
                flag(IMMEDIATE_BIT, self.immediate) + SCSI_COMMAND,
                flag(FINAL_BIT, self.is_final)
                    + flag(READ_BIT, self.reads)
                    + flag(WRITE_BIT, self.writes)
                    + self.task_attribute.code(),
                0,
                0,
            ],
            lun: self.lun.to_be_bytes(),
            middle: rows(
                self.initiator_task_tag,
                self.expected_data_transfer_length,
                self.cmd_sn.number,
                self.exp_stat_sn.number,
            ),
            tail: self.cdb,
        }
    }
}
