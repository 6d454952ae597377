//! Answers of one PDU.
ghost use Rattle.std.specs.Prelude.{◌≡◌, ◌<◌, ◌+◌, ◌^◌, ◌++◌, ◌≤◌, [], length, take, OnOk};
ghost use Rattle.iscsi_answers.specs.Written.{bytes_of};
ghost use Rattle.iscsi_answers.specs.Single.{pdu, nop_answer, ping, leave_request, target_failure, task_management_answer, logout_answer, rejection, text_answer};
ghost use Rattle.iscsi_pdu.specs.declared.target_header.TargetHeader.TheVariants as header;

use crate::limits::TransferLimits;
use crate::sequence::SequenceNumbers;
use crate::writing::write_pdu;
use iscsi_pdu::{
    AsyncEvent, AsyncMessage, LogoutResponse, LogoutResult, NopIn, RESERVED_TAG, ReadyToTransfer,
    Reject, RejectReason, Residual, ScsiResponse, ScsiStatus, SerialNumber, ServiceResponse,
    TargetHeader, TargetPdu, TaskManagementResponse, TaskManagementResult, TextResponse,
};
use std::alloc::AllocError;

/// Adds the answer to a NOP-Out: its data, as much of them as the initiator takes (RFC 7143, "NOP-In"). It takes up a StatSN.
pub fn write_nop_in(
    out: &mut Vec<u8>,
    limits: TransferLimits,
    numbers: SequenceNumbers,
    initiator_task_tag: u32,
    bytes: &[u8],
) -> Result<(), AllocError>
    ensures { OnOk result (out.new.items ≡ out.old.items ++ bytes_of (nop_answer numbers limits.max_data_segment_length initiator_task_tag bytes.now)) }
{
    let header = nop_in(numbers, initiator_task_tag, RESERVED_TAG);
    let payload = front(bytes, limits.max_data_segment_length);
    write_pdu(out, &TargetPdu { header, payload })
}

/// Adds a ping of the target's own, which takes up no StatSN (RFC 7143, "NOP-In").
pub fn write_ping(
    out: &mut Vec<u8>,
    numbers: SequenceNumbers,
    target_transfer_tag: u32,
) -> Result<(), AllocError>
    ensures { OnOk result (out.new.items ≡ out.old.items ++ bytes_of (ping numbers target_transfer_tag)) }
{
    let header = nop_in(numbers, RESERVED_TAG, target_transfer_tag);
    write_pdu(
        out,
        &TargetPdu {
            header,
            payload: &[],
        },
    )
}

fn nop_in(
    numbers: SequenceNumbers,
    initiator_task_tag: u32,
    target_transfer_tag: u32,
) -> TargetHeader
    ensures { result ≡ header.NopIn (record { lun = 0; initiator_task_tag = initiator_task_tag; target_transfer_tag = target_transfer_tag; stat_sn = numbers.stat_sn; exp_cmd_sn = numbers.exp_cmd_sn; max_cmd_sn = numbers.max_cmd_sn }) }
{
    TargetHeader::NopIn(NopIn {
        lun: 0,
        initiator_task_tag,
        target_transfer_tag,
        stat_sn: numbers.stat_sn,
        exp_cmd_sn: numbers.exp_cmd_sn,
        max_cmd_sn: numbers.max_cmd_sn,
    })
}

/// Adds an Asynchronous Message that asks for a logout within so many seconds. It takes up a StatSN (RFC 7143, "Asynchronous
/// Message").
pub fn write_leave_request(
    out: &mut Vec<u8>,
    numbers: SequenceNumbers,
    seconds: u16,
) -> Result<(), AllocError>
    ensures { OnOk result (out.new.items ≡ out.old.items ++ bytes_of (leave_request numbers seconds)) }
{
    let header = TargetHeader::AsyncMessage(AsyncMessage {
        lun: 0,
        stat_sn: numbers.stat_sn,
        exp_cmd_sn: numbers.exp_cmd_sn,
        max_cmd_sn: numbers.max_cmd_sn,
        event: AsyncEvent::LogoutRequested,
        vendor_code: 0,
        parameter_1: 0,
        parameter_2: 0,
        parameter_3: seconds,
    });
    write_pdu(
        out,
        &TargetPdu {
            header,
            payload: &[],
        },
    )
}

/// Adds the answer to a command that was carried out, where what it left can't be kept: target failure (RFC 7143, "SCSI Response"). It takes
/// up a StatSN.
pub fn write_target_failure(
    out: &mut Vec<u8>,
    numbers: SequenceNumbers,
    initiator_task_tag: u32,
) -> Result<(), AllocError>
    ensures { OnOk result (out.new.items ≡ out.old.items ++ bytes_of (target_failure numbers initiator_task_tag)) }
{
    let header = TargetHeader::ScsiResponse(ScsiResponse {
        response: ServiceResponse::TargetFailure,
        // There is none, and its field is 0.
        status: ScsiStatus::Good,
        initiator_task_tag,
        stat_sn: numbers.stat_sn,
        exp_cmd_sn: numbers.exp_cmd_sn,
        max_cmd_sn: numbers.max_cmd_sn,
        exp_data_sn: SerialNumber { number: 0 },
        residual: Residual::Exact,
    });
    write_pdu(
        out,
        &TargetPdu {
            header,
            payload: &[],
        },
    )
}

/// Adds the answer to a task management function. It takes up a StatSN.
pub fn write_task_management_response(
    out: &mut Vec<u8>,
    numbers: SequenceNumbers,
    initiator_task_tag: u32,
    response: TaskManagementResult,
) -> Result<(), AllocError>
    ensures { OnOk result (out.new.items ≡ out.old.items ++ bytes_of (task_management_answer numbers initiator_task_tag response)) }
{
    let header = TargetHeader::TaskManagementResponse(TaskManagementResponse {
        response,
        initiator_task_tag,
        stat_sn: numbers.stat_sn,
        exp_cmd_sn: numbers.exp_cmd_sn,
        max_cmd_sn: numbers.max_cmd_sn,
    });
    write_pdu(
        out,
        &TargetPdu {
            header,
            payload: &[],
        },
    )
}

/// Adds the answer to a logout. It takes up a StatSN.
pub fn write_logout_response(
    out: &mut Vec<u8>,
    numbers: SequenceNumbers,
    initiator_task_tag: u32,
    response: LogoutResult,
) -> Result<(), AllocError>
    ensures { OnOk result (out.new.items ≡ out.old.items ++ bytes_of (logout_answer numbers initiator_task_tag response)) }
{
    let header = TargetHeader::LogoutResponse(LogoutResponse {
        response,
        initiator_task_tag,
        stat_sn: numbers.stat_sn,
        exp_cmd_sn: numbers.exp_cmd_sn,
        max_cmd_sn: numbers.max_cmd_sn,
        time2wait: 0,
        time2retain: 0,
    });
    write_pdu(
        out,
        &TargetPdu {
            header,
            payload: &[],
        },
    )
}

/// Adds a Reject, with the header that was rejected. It takes up a StatSN.
pub fn write_reject(
    out: &mut Vec<u8>,
    numbers: SequenceNumbers,
    reason: RejectReason,
    rejected: &[u8],
) -> Result<(), AllocError>
    requires { length rejected.now < 2 ^ 24 }
    ensures { OnOk result (out.new.items ≡ out.old.items ++ bytes_of (rejection numbers reason rejected.now)) }
{
    let header = TargetHeader::Reject(Reject {
        reason,
        stat_sn: numbers.stat_sn,
        exp_cmd_sn: numbers.exp_cmd_sn,
        max_cmd_sn: numbers.max_cmd_sn,
    });
    write_pdu(
        out,
        &TargetPdu {
            header,
            payload: rejected,
        },
    )
}

/// Adds an R2T, which takes up no StatSN.
pub fn write_ready_to_transfer(out: &mut Vec<u8>, ready: ReadyToTransfer) -> Result<(), AllocError>
    ensures { OnOk result (out.new.items ≡ out.old.items ++ bytes_of (pdu (header.ReadyToTransfer ready) [])) }
{
    write_pdu(
        out,
        &TargetPdu {
            header: TargetHeader::ReadyToTransfer(ready),
            payload: &[],
        },
    )
}

/// Adds what is left of a text, as much of it as the initiator takes, and says whether the operation is at its end: where it
/// isn't, the target transfer tag asks for a request with it (RFC 7143, "Text Response"). It takes up a StatSN.
pub fn write_text_response(
    out: &mut Vec<u8>,
    limits: TransferLimits,
    numbers: SequenceNumbers,
    request: TextTags,
    text: &[u8],
) -> Result<(), AllocError>
    ensures { OnOk result (out.new.items ≡ out.old.items ++ bytes_of (text_answer numbers limits.max_data_segment_length request.initiator_task_tag request.target_transfer_tag request.is_final text.now)) }
{
    let continues = text.len() > limits.max_data_segment_length as usize;
    let is_final = request.is_final && !continues;
    let header = TargetHeader::TextResponse(TextResponse {
        is_final,
        continues,
        lun: 0,
        initiator_task_tag: request.initiator_task_tag,
        target_transfer_tag: if is_final {
            RESERVED_TAG
        } else {
            request.target_transfer_tag
        },
        stat_sn: numbers.stat_sn,
        exp_cmd_sn: numbers.exp_cmd_sn,
        max_cmd_sn: numbers.max_cmd_sn,
    });
    let payload = front(text, limits.max_data_segment_length);
    write_pdu(out, &TargetPdu { header, payload })
}

/// What the response to a text request takes from it, and the tag that it hands out if the operation goes on.
#[derive(Clone, Copy)]
pub struct TextTags {
    pub initiator_task_tag: u32,
    pub target_transfer_tag: u32,
    /// F of the request.
    pub is_final: bool,
}

/// The first bytes, at most so many.
fn front(bytes: &[u8], most: u32) -> &[u8]
    ensures front { result.now ≡ take most bytes.now }
    ensures short { length result.now ≤ most }
{
    &bytes[..bytes.len().min(most as usize)]
}
