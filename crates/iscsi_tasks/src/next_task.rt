use crate::fault::TaskFault;
use crate::task::Task;
use iscsi_pdu::{ReadyToTransfer, SerialNumber};

/// What is to be done next.
#[derive(Drop)]
pub enum NextTask {
    /// Nothing, before a PDU comes.
    Idle,
    /// The command is executed: all of its data are there.
    Execute(Task),
    /// An R2T is sent.
    Ask(TransferRequest),
    /// The command is answered by CHECK CONDITION, and not executed.
    Fail(Task, TaskFault),
}

/// What an R2T asks for (RFC 7143, "Ready To Transfer (R2T)").
#[derive(Clone, Copy)]
pub struct TransferRequest {
    /// The logical unit number, eight bytes.
    pub lun: u64,
    pub initiator_task_tag: u32,
    pub target_transfer_tag: u32,
    pub r2t_sn: SerialNumber,
    /// Where the data begin among all of the command, in bytes.
    pub buffer_offset: u32,
    /// In bytes.
    pub desired_data_transfer_length: u32,
}

impl TransferRequest {
    ghost use Rattle.std.specs.Prelude.{◌≡◌};
    ghost use Rattle.iscsi_tasks.specs.Next.{ready_to_transfer};

    /// The R2T, with the numbers of the session. StatSN is that of the response that comes next, and isn't used up.
    pub fn ready_to_transfer(
        self,
        stat_sn: SerialNumber,
        exp_cmd_sn: SerialNumber,
        max_cmd_sn: SerialNumber,
    ) -> ReadyToTransfer
        ensures { result ≡ ready_to_transfer self stat_sn exp_cmd_sn max_cmd_sn }
    {
        ReadyToTransfer {
            lun: self.lun,
            initiator_task_tag: self.initiator_task_tag,
            target_transfer_tag: self.target_transfer_tag,
            stat_sn,
            exp_cmd_sn,
            max_cmd_sn,
            r2t_sn: self.r2t_sn,
            buffer_offset: self.buffer_offset,
            desired_data_transfer_length: self.desired_data_transfer_length,
        }
    }
}
