use crate::fault::TaskFault;
use iscsi_keys::SessionParameters;
use iscsi_pdu::{DataOut, RESERVED_TAG, ScsiCommand, SerialNumber};

/// A sequence of Data-Out that is to come: unsolicited data, or what an R2T has asked for (RFC 7143, "SCSI Data-Out").
#[derive(Clone, Copy)]
pub(crate) struct DataSequence {
    /// The target transfer tag that its Data-Out carry, FFFFFFFFh for unsolicited data.
    pub(crate) target_transfer_tag: u32,
    /// Where it ends among all data of its command, in bytes.
    pub(crate) end: u32,
    /// The DataSN of the Data-Out that comes next.
    pub(crate) data_sn: SerialNumber,
}

impl DataSequence {
    ghost use Rattle.std.specs.Prelude.{◌≡◌};
    ghost use Rattle.iscsi_tasks.specs.Writes.{unsolicited, first_burst, data_fault, behind};

    /// The unsolicited Data-Out of a command that isn't final.
    pub(crate) fn unsolicited(parameters: SessionParameters, command: &ScsiCommand) -> DataSequence
        ensures { result ≡ unsolicited parameters command.now }
    {
        DataSequence {
            target_transfer_tag: RESERVED_TAG,
            end: command
                .expected_data_transfer_length
                .min(parameters.first_burst_length),
            data_sn: SerialNumber { number: 0 },
        }
    }

    /// What is wrong with a Data-Out of so many bytes, where so many of the command's data are there.
    pub(crate) fn fault_of(self, held: usize, data_out: &DataOut, count: usize) -> Option<TaskFault>
        ensures { result ≡ data_fault self held data_out.now count }
    {
        let end = self.end as usize;
        let reached = held.saturating_add(count);
        if data_out.target_transfer_tag != self.target_transfer_tag {
            return Some(TaskFault::UnexpectedUnsolicitedData);
        }
        if data_out.buffer_offset as usize != held
            || data_out.data_sn.number != self.data_sn.number
        {
            return Some(TaskFault::DataOffsetError);
        }
        if reached > end || (data_out.is_final && reached < end) {
            return Some(TaskFault::IncorrectAmountOfData);
        }
        None
    }

    /// What is left of it behind a Data-Out.
    pub(crate) fn behind(self) -> DataSequence
        ensures { result ≡ behind self }
    {
        DataSequence {
            target_transfer_tag: self.target_transfer_tag,
            end: self.end,
            data_sn: self.data_sn.next(),
        }
    }
}
