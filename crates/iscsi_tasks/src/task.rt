use crate::awaiting::Awaiting;
use crate::fault::TaskFault;
use crate::next_task::TransferRequest;
use crate::sequence::DataSequence;
use crate::taken::TakenData;
use iscsi_keys::SessionParameters;
use iscsi_pdu::{DataOut, RejectReason, ScsiCommand, SerialNumber, unit_of};
use std::alloc::{AllocError, Global};
use std::marker::Model;

/// A command with the data that have come for it.
#[derive(Drop)]
pub struct Task {
    command: ScsiCommand,
    bytes: Vec<u8>,
    awaiting: Awaiting,
    r2t_sn: SerialNumber,
}

impl Model for Task {
    ghost use Rattle.iscsi_tasks.specs.Values.{TaskValue};

    ghost Value = { TaskValue };

    ghost view = { λ t. record { command = t.command; bytes = t.bytes.items; awaiting = t.awaiting; r2t_sn = t.r2t_sn } };
}

impl Task {
    ghost use Rattle.std.specs.Prelude.{◌≡◌, length, IfOk, OnOk, OnErr, false};
    ghost use Rattle.iscsi_pdu.specs.declared.reject_reason.RejectReason.TheVariants.{ProtocolError};
    ghost use Rattle.iscsi_tasks.specs.declared.taken.TakenData.TheVariants.{Rejected};
    ghost use Rattle.iscsi_tasks.specs.Writes.{data_fault};
    ghost use Rattle.iscsi_tasks.specs.Commands.{begun_task};
    ghost use Rattle.iscsi_tasks.specs.DataOuts.{task_after, task_answer, fault_answer, unless_data_fault, with_fault};
    ghost use Rattle.iscsi_tasks.specs.Aborts.{is_at, is_named};
    ghost use Rattle.iscsi_tasks.specs.Next.{request, asked, handed, is_whole};

    /// The command, as its PDU tells it.
    pub fn command(&self) -> ScsiCommand
        ensures { result ≡ self.now.command }
    {
        self.command
    }

    /// The data that have come; of a task that is executed all that its unit gets.
    pub fn data(&self) -> &[u8]
        ensures { result.now ≡ self.now.bytes }
    {
        self.bytes.as_slice()
    }

    /// Whether its LUN names the unit.
    pub(crate) fn is_at(&self, unit: u8) -> bool
        ensures { result ≡ is_at unit self.now }
    {
        match unit_of(self.command.lun) {
            Some(own) => own == unit,
            None => false,
        }
    }

    /// Whether it is the one at the unit that has the tag.
    pub(crate) fn is_named(&self, unit: u8, tag: u32) -> bool
        ensures { result ≡ is_named unit tag self.now }
    {
        self.command.initiator_task_tag == tag && self.is_at(unit)
    }

    pub(crate) fn awaiting(&self) -> Awaiting
        ensures { result ≡ self.now.awaiting }
    {
        self.awaiting
    }

    /// The task of a command, with what came with it.
    pub(crate) fn begin(
        alloc: Global,
        parameters: SessionParameters,
        command: &ScsiCommand,
        payload: &[u8],
    ) -> Result<Task, AllocError>
        ensures { IfOk result (λ task. task ≡ begun_task parameters command.now payload.now) }
    {
        let awaiting = Awaiting::behind_command(parameters, command, payload.len());
        let kept = match awaiting {
            Awaiting::Turn | Awaiting::Data(_) => command.writes,
            Awaiting::Failing(_) | Awaiting::Failed(_) => false,
        };
        let bytes = if kept {
            Vec::from_slice(alloc, payload)?
        } else {
            Vec::new(alloc)
        };
        Ok(Task {
            command: *command,
            bytes,
            awaiting,
            r2t_sn: SerialNumber { number: 0 },
        })
    }

    /// Takes a Data-Out that carries its tag. An error changes nothing.
    pub(crate) fn take(
        &mut self,
        data_out: &DataOut,
        payload: &[u8],
    ) -> Result<TakenData, AllocError>
        ensures answer { IfOk result (λ taken. taken ≡ task_answer self.old data_out.now (length payload.now)) }
        ensures ok { OnOk result (self.new ≡ task_after self.old data_out.now payload.now) }
        ensures err { OnErr result (self.new ≡ self.old) }
    {
        match self.awaiting {
            Awaiting::Turn => {
                Ok(self.fail(data_out.is_final, TaskFault::UnexpectedUnsolicitedData))
            }
            Awaiting::Data(sequence) => self.take_next(sequence, data_out, payload),
            Awaiting::Failing(fault) => {
                self.awaiting = Awaiting::failed(data_out.is_final, fault);
                Ok(TakenData::PassedOver)
            }
            Awaiting::Failed(_) => Ok(TakenData::PassedOver),
        }
    }

    /// Takes a Data-Out of the sequence that is awaited. An error changes nothing.
    fn take_next(
        &mut self,
        sequence: DataSequence,
        data_out: &DataOut,
        payload: &[u8],
    ) -> Result<TakenData, AllocError>
        ensures answer { IfOk result (λ taken. taken ≡ fault_answer (data_fault sequence (length self.old.bytes) data_out.now (length payload.now))) }
        ensures ok { OnOk result (self.new ≡ unless_data_fault self.old sequence data_out.now payload.now (data_fault sequence (length self.old.bytes) data_out.now (length payload.now))) }
        ensures err { OnErr result (self.new ≡ self.old) }
    {
        if let Some(fault) = sequence.fault_of(self.bytes.len(), data_out, payload.len()) {
            return Ok(self.fail(data_out.is_final, fault));
        }
        self.bytes.reserve_exact(payload.len())?;
        self.bytes.extend_from_slice(payload)?;
        self.awaiting = Awaiting::behind_data(data_out.is_final, sequence);
        Ok(TakenData::Taken)
    }

    /// Fails by a PDU, which is rejected.
    fn fail(&mut self, is_final: bool, fault: TaskFault) -> TakenData
        ensures answer { result ≡ Rejected ProtocolError }
        ensures state { self.new ≡ with_fault self.old is_final fault }
    {
        self.bytes = Vec::new(*self.bytes.allocator());
        self.awaiting = Awaiting::failed(is_final, fault);
        TakenData::Rejected(RejectReason::ProtocolError)
    }

    /// Whether all data are there that its unit takes.
    pub(crate) fn is_whole(&self, limit: u32) -> bool
        ensures { result ≡ is_whole limit self.now }
    {
        self.bytes.len() >= wanted(&self.command, limit) as usize
    }

    /// Asks for what is left of the data, a burst of it at most, by a target transfer tag.
    pub(crate) fn ask(
        &mut self,
        parameters: SessionParameters,
        limit: u32,
        tag: u32,
    ) -> TransferRequest
        requires { is_whole limit self.old ≡ false }
        ensures request { result ≡ request parameters limit tag self.old }
        ensures state { self.new ≡ asked parameters limit tag self.old }
    {
        let buffer_offset = self.bytes.len() as u32;
        let left = wanted(&self.command, limit) - buffer_offset;
        // Where memory is refused here, it is asked for again as the data come.
        let _ = self.bytes.reserve_exact(left as usize);
        let desired = left.min(parameters.max_burst_length);
        let request = TransferRequest {
            lun: self.command.lun,
            initiator_task_tag: self.command.initiator_task_tag,
            target_transfer_tag: tag,
            r2t_sn: self.r2t_sn,
            buffer_offset,
            desired_data_transfer_length: desired,
        };
        self.awaiting = Awaiting::Data(DataSequence {
            target_transfer_tag: tag,
            end: buffer_offset + desired,
            data_sn: SerialNumber { number: 0 },
        });
        self.r2t_sn = self.r2t_sn.next();
        request
    }

    /// Leaves the data that its unit gets.
    pub(crate) fn hand(&mut self, limit: u32)
        ensures { self.new ≡ handed limit self.old }
    {
        self.bytes.truncate(wanted(&self.command, limit) as usize);
    }
}

ghost use Rattle.std.specs.Prelude.{◌≡◌};
ghost use Rattle.iscsi_tasks.specs.Writes.{wanted};

/// How much data the command has, in bytes, up to what a unit takes.
pub(crate) fn wanted(command: &ScsiCommand, limit: u32) -> u32
    ensures { result ≡ wanted limit command.now }
{
    if command.writes {
        command.expected_data_transfer_length.min(limit)
    } else {
        0
    }
}
