use crate::fault::TaskFault;
use crate::sequence::DataSequence;
use iscsi_keys::SessionParameters;
use iscsi_pdu::ScsiCommand;

/// What a task waits for.
///
/// ```text
/// Turn --(R2T)--> Data --(Data-Out with F)--> Turn --(all data are there)--> executed
///          a fault, and F is to come --> Failing --(F)--> Failed --(its turn)--> answered
/// ```
#[derive(Clone, Copy)]
pub(crate) enum Awaiting {
    /// Its turn: then it is executed, or the rest of its data is asked for.
    Turn,
    /// The rest of a sequence.
    Data(DataSequence),
    /// The end of a sequence, whose data are dropped: it has failed.
    Failing(TaskFault),
    /// Its turn to be answered: it has failed.
    Failed(TaskFault),
}

impl Awaiting {
    ghost use Rattle.std.specs.Prelude.{◌≡◌};
    ghost use Rattle.iscsi_tasks.specs.Writes.{failed, first_awaited, command_fault, behind_data};

    /// What a task waits for that has failed by a PDU.
    pub(crate) fn failed(is_final: bool, fault: TaskFault) -> Awaiting
        ensures { result ≡ failed is_final fault }
    {
        if is_final {
            Awaiting::Failed(fault)
        } else {
            Awaiting::Failing(fault)
        }
    }

    /// What it waits for behind its command, which had so many bytes of immediate data.
    pub(crate) fn behind_command(
        parameters: SessionParameters,
        command: &ScsiCommand,
        count: usize,
    ) -> Awaiting
        ensures { result ≡ first_awaited parameters command.now count }
    {
        if !command.writes {
            return Awaiting::Turn;
        }
        match command_fault(parameters, command, count) {
            Some(fault) => Awaiting::failed(command.is_final, fault),
            None => {
                if command.is_final {
                    Awaiting::Turn
                } else {
                    Awaiting::Data(DataSequence::unsolicited(parameters, command))
                }
            }
        }
    }

    /// What it waits for behind a Data-Out of the sequence.
    pub(crate) fn behind_data(is_final: bool, sequence: DataSequence) -> Awaiting
        ensures { result ≡ behind_data is_final sequence }
    {
        if is_final {
            Awaiting::Turn
        } else {
            Awaiting::Data(sequence.behind())
        }
    }
}

ghost use Rattle.std.specs.Prelude.{◌≡◌};
ghost use Rattle.iscsi_tasks.specs.Writes.{command_fault};

/// What is wrong with a command that writes, which has so many bytes of immediate data.
fn command_fault(
    parameters: SessionParameters,
    command: &ScsiCommand,
    count: usize,
) -> Option<TaskFault>
    ensures { result ≡ command_fault parameters command.now count }
{
    if !parameters.immediate_data && count > 0 {
        return Some(TaskFault::UnexpectedUnsolicitedData);
    }
    if parameters.initial_r2t && !command.is_final {
        return Some(TaskFault::UnexpectedUnsolicitedData);
    }
    let first_burst = command
        .expected_data_transfer_length
        .min(parameters.first_burst_length);
    if count > first_burst as usize {
        return Some(TaskFault::IncorrectAmountOfData);
    }
    None
}
