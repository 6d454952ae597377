ghost use Rattle.std.specs.Prelude.{◌≡◌, ◌<◌, ◌≤◌, ◌+◌, ◌^◌, ◌++◌, length, None, IfOk, OnOk};
ghost use Rattle.iscsi_answers.specs.Written.{bytes_of, bytes_of_all};
ghost use Rattle.iscsi_answers.specs.CommandAnswers.{answered_command, command_answer, data_before, transfer, late_response, with_data, with_response, residual_of, residual_between, told_status, sent, transferable_of, sense_segment};

use crate::data_in::{Transfer, count_data_ins, write_data_ins};
use crate::limits::TransferLimits;
use crate::sequence::SequenceNumbers;
use crate::writing::write_pdu;
use iscsi_pdu::{
    Completion, Residual, ScsiCommand, ScsiResponse, ScsiStatus, SerialNumber, ServiceResponse,
    TargetHeader, TargetPdu,
};
use scsi_sense::{SENSE_LENGTH, Sense, Status};
use std::alloc::AllocError;

/// What the answer to a command takes from it.
#[derive(Clone, Copy)]
pub struct AnsweredCommand {
    pub initiator_task_tag: u32,
    /// R: data are expected from the target.
    pub reads: bool,
    /// W: data go to the target.
    pub writes: bool,
    /// In bytes.
    pub expected_data_transfer_length: u32,
    /// How many bytes of a write's data were handed to its unit.
    pub handed_over: u32,
}

impl AnsweredCommand {
    /// What an answer takes from its command, of whose data so many bytes were handed over.
    pub fn of(command: &ScsiCommand, handed_over: u32) -> AnsweredCommand
        ensures { result ≡ answered_command command.now handed_over }
    {
        AnsweredCommand {
            initiator_task_tag: command.initiator_task_tag,
            reads: command.reads,
            writes: command.writes,
            expected_data_transfer_length: command.expected_data_transfer_length,
            handed_over,
        }
    }
}

/// How a unit has replied to a command.
#[derive(Clone, Copy)]
pub struct UnitAnswer<'a> {
    pub status: Status,
    /// With CHECK CONDITION alone.
    pub sense: Option<Sense>,
    /// The data for the initiator.
    pub data: &'a [u8],
}

/// Adds the PDUs that answer a command: data, with R alone and as many bytes as are expected, and the status, GOOD in the last
/// Data-In where there is one, all else in a SCSI Response with the sense data. It takes up a StatSN.
pub fn write_command_answer(
    out: &mut Vec<u8>,
    limits: TransferLimits,
    numbers: SequenceNumbers,
    command: AnsweredCommand,
    answer: &UnitAnswer<'_>,
) -> Result<(), AllocError>
    requires { length answer.now.data.now < 2 ^ 32 }
    ensures { OnOk result (out.new.items ≡ out.old.items ++ bytes_of_all (command_answer limits numbers command answer.now.status answer.now.sense answer.now.data.now)) }
{
    if sent(command, answer.data).is_empty() {
        let given = answer.data.len() as u32;
        return write_late_response(out, numbers, command, answer.status, answer.sense, given, 0);
    }
    if answer.status == Status::Good {
        write_with_data(out, limits, numbers, command, answer)
    } else {
        write_with_response(out, limits, numbers, command, answer)
    }
}

/// Adds the data, and the status with the last of them.
fn write_with_data(
    out: &mut Vec<u8>,
    limits: TransferLimits,
    numbers: SequenceNumbers,
    command: AnsweredCommand,
    answer: &UnitAnswer<'_>,
) -> Result<(), AllocError>
    requires { length answer.now.data.now < 2 ^ 32 }
    ensures { OnOk result (out.new.items ≡ out.old.items ++ bytes_of_all (with_data limits numbers command answer.now.status answer.now.data.now)) }
{
    let completion = Completion {
        status: told_status(answer.status),
        stat_sn: numbers.stat_sn,
        residual: residual_of(command, answer.data),
    };
    let transfer = Transfer {
        limits,
        numbers,
        initiator_task_tag: command.initiator_task_tag,
        completion: Some(completion),
    };
    write_data_ins(out, &transfer, sent(command, answer.data))?;
    Ok(())
}

/// Adds the data, and a response.
fn write_with_response(
    out: &mut Vec<u8>,
    limits: TransferLimits,
    numbers: SequenceNumbers,
    command: AnsweredCommand,
    answer: &UnitAnswer<'_>,
) -> Result<(), AllocError>
    requires { length answer.now.data.now < 2 ^ 32 }
    ensures { OnOk result (out.new.items ≡ out.old.items ++ bytes_of_all (with_response limits numbers command answer.now.status answer.now.sense answer.now.data.now)) }
{
    let count = write_data_before(out, limits, numbers, command, answer.data)?;
    let given = answer.data.len() as u32;
    write_late_response(
        out,
        numbers,
        command,
        answer.status,
        answer.sense,
        given,
        count,
    )
}

/// Adds the data of a command whose status goes out by itself, later on, as many as are expected. How many Data-In they are.
pub fn write_data_before(
    out: &mut Vec<u8>,
    limits: TransferLimits,
    numbers: SequenceNumbers,
    command: AnsweredCommand,
    bytes: &[u8],
) -> Result<u32, AllocError>
    requires { length bytes.now < 2 ^ 32 }
    ensures added { OnOk result (out.new.items ≡ out.old.items ++ bytes_of_all (data_before limits numbers command bytes.now)) }
    ensures count { IfOk result (λ count. count ≡ length (data_before limits numbers command bytes.now)) }
{
    let transfer = transfer_before(limits, numbers, command);
    write_data_ins(out, &transfer, sent(command, bytes))
}

/// How many Data-In those are.
pub fn count_data_before(
    limits: TransferLimits,
    numbers: SequenceNumbers,
    command: AnsweredCommand,
    bytes: &[u8],
) -> u32
    requires { length bytes.now < 2 ^ 32 }
    ensures { result ≡ length (data_before limits numbers command bytes.now) }
{
    let transfer = transfer_before(limits, numbers, command);
    count_data_ins(&transfer, sent(command, bytes))
}

/// What they have alike: none of them tells how the command ended.
fn transfer_before(
    limits: TransferLimits,
    numbers: SequenceNumbers,
    command: AnsweredCommand,
) -> Transfer
    ensures { result ≡ transfer limits numbers command None }
{
    Transfer {
        limits,
        numbers,
        initiator_task_tag: command.initiator_task_tag,
        completion: None,
    }
}

/// Adds a SCSI Response behind the data of which the unit gave so many bytes, and which went out in so many Data-In. It takes up a StatSN.
pub fn write_late_response(
    out: &mut Vec<u8>,
    numbers: SequenceNumbers,
    command: AnsweredCommand,
    status: Status,
    sense: Option<Sense>,
    given: u32,
    data_ins: u32,
) -> Result<(), AllocError>
    ensures { OnOk result (out.new.items ≡ out.old.items ++ bytes_of (late_response numbers command status sense given data_ins)) }
{
    let header = TargetHeader::ScsiResponse(ScsiResponse {
        response: ServiceResponse::CommandCompletedAtTarget,
        status: told_status(status),
        initiator_task_tag: command.initiator_task_tag,
        stat_sn: numbers.stat_sn,
        exp_cmd_sn: numbers.exp_cmd_sn,
        max_cmd_sn: numbers.max_cmd_sn,
        exp_data_sn: SerialNumber { number: data_ins },
        residual: residual_between(
            command.expected_data_transfer_length,
            transferable(command, given),
        ),
    });
    match sense {
        None => write_pdu(
            out,
            &TargetPdu {
                header,
                payload: &[],
            },
        ),
        Some(sense) => {
            let segment = sense_segment(&sense);
            write_pdu(
                out,
                &TargetPdu {
                    header,
                    payload: &segment,
                },
            )
        }
    }
}

/// How many bytes a SCSI Response's data segment has with sense data, which stand behind two bytes of length.
const SENSE_SEGMENT: usize = 2 + SENSE_LENGTH;

fn sense_segment(sense: &Sense) -> [u8; SENSE_SEGMENT]
    ensures { result ≡ sense_segment (Some sense.now) }
{
    let mut segment = [0; SENSE_SEGMENT];
    segment[1] = SENSE_LENGTH as u8;
    segment[2..].copy_from_slice(&sense.to_bytes());
    segment
}

/// The data that go to the initiator.
fn sent(command: AnsweredCommand, bytes: &[u8]) -> &[u8]
    ensures sent { result.now ≡ sent command bytes.now }
    ensures most { length result.now ≤ length bytes.now }
{
    if !command.reads || command.writes {
        return &[];
    }
    let expected = command.expected_data_transfer_length as usize;
    if bytes.len() <= expected {
        bytes
    } else {
        &bytes[..expected]
    }
}

fn residual_of(command: AnsweredCommand, bytes: &[u8]) -> Residual
    requires { length bytes.now < 2 ^ 32 }
    ensures { result ≡ residual_of command bytes.now }
{
    let given = bytes.len() as u32;
    residual_between(
        command.expected_data_transfer_length,
        transferable(command, given),
    )
}

/// How many bytes there were to transfer where the unit gave so many.
fn transferable(command: AnsweredCommand, given: u32) -> u32
    ensures { result ≡ transferable_of command given }
{
    if command.writes {
        command.handed_over
    } else {
        given
    }
}

/// What is left of what was expected, or over.
fn residual_between(expected: u32, transferable: u32) -> Residual
    ensures { result ≡ residual_between expected transferable }
{
    if transferable < expected {
        Residual::Underflow(expected - transferable)
    } else if expected < transferable {
        Residual::Overflow(transferable - expected)
    } else {
        Residual::Exact
    }
}

fn told_status(status: Status) -> ScsiStatus
    ensures { result ≡ told_status status }
{
    match status {
        Status::Good => ScsiStatus::Good,
        Status::CheckCondition => ScsiStatus::CheckCondition,
        Status::Busy => ScsiStatus::Busy,
        Status::ReservationConflict => ScsiStatus::ReservationConflict,
    }
}
