ghost use Rattle.std.specs.Prelude.{◌≡◌, ◌<◌, ◌≤◌, ◌+◌, ◌^◌, ◌++◌, length, IfOk, OnOk};
ghost use Rattle.iscsi_answers.specs.Written.{bytes_of, bytes_of_all};
ghost use Rattle.iscsi_answers.specs.DataIns.{data_ins, data_in_at, segment_length};

use crate::limits::TransferLimits;
use crate::sequence::SequenceNumbers;
use crate::writing::write_pdu;
use iscsi_pdu::{Completion, DataIn, SerialNumber, TargetHeader, TargetPdu};
use std::alloc::AllocError;

/// What the Data-In PDUs of a command have alike.
#[derive(Clone, Copy)]
pub(crate) struct Transfer {
    pub(crate) limits: TransferLimits,
    pub(crate) numbers: SequenceNumbers,
    pub(crate) initiator_task_tag: u32,
    /// How the command ended, where the last of them tells it.
    pub(crate) completion: Option<Completion>,
}

/// Adds the Data-In PDUs of the bytes, and says how many they are.
pub(crate) fn write_data_ins(
    out: &mut Vec<u8>,
    transfer: &Transfer,
    bytes: &[u8],
) -> Result<u32, AllocError>
    requires { length bytes.now < 2 ^ 32 }
    ensures added { OnOk result (out.new.items ≡ out.old.items ++ bytes_of_all (data_ins transfer.now bytes.now)) }
    ensures count { IfOk result (λ count. count ≡ length (data_ins transfer.now bytes.now)) }
{
    let mut rest = bytes;
    let mut offset = 0;
    let mut data_sn = 0;
    'segments: for _ in 0..bytes.len() {
        if rest.is_empty() {
            return Ok(data_sn);
        }
        let count = segment_length(transfer.limits, offset, rest.len());
        write_data_in(out, transfer, offset, data_sn, rest)?;
        rest = rest.split_at(count).1;
        offset += count as u32;
        data_sn += 1;
    }
    Ok(data_sn)
}

/// How many Data-In PDUs the bytes go out in.
pub(crate) fn count_data_ins(transfer: &Transfer, bytes: &[u8]) -> u32
    requires { length bytes.now < 2 ^ 32 }
    ensures { result ≡ length (data_ins transfer.now bytes.now) }
{
    let mut rest = bytes;
    let mut offset = 0;
    let mut data_ins = 0;
    'segments: for _ in 0..bytes.len() {
        if rest.is_empty() {
            return data_ins;
        }
        let count = segment_length(transfer.limits, offset, rest.len());
        rest = rest.split_at(count).1;
        offset += count as u32;
        data_ins += 1;
    }
    data_ins
}

/// How many of the bytes that are left go out at an offset.
fn segment_length(limits: TransferLimits, offset: u32, left: usize) -> usize
    ensures value { result ≡ segment_length limits offset left }
    ensures within { result ≤ left }
    ensures short { result ≤ limits.max_data_segment_length }
{
    let in_burst = limits.max_burst_length - offset % limits.max_burst_length;
    left.min(limits.max_data_segment_length.min(in_burst) as usize)
}

/// Adds the Data-In PDU with the first of the bytes that are left.
#[tactic(auto, unfolding(crate::specs::DataIns::data_in_at))]
fn write_data_in(
    out: &mut Vec<u8>,
    transfer: &Transfer,
    offset: u32,
    data_sn: u32,
    rest: &[u8],
) -> Result<(), AllocError>
    requires { offset + length rest.now < 2 ^ 32 }
    ensures { OnOk result (out.new.items ≡ out.old.items ++ bytes_of (data_in_at transfer.now offset data_sn rest.now)) }
{
    let count = segment_length(transfer.limits, offset, rest.len());
    let ends_data = count == rest.len();
    let ends_burst = (offset + count as u32) % transfer.limits.max_burst_length == 0;
    let header = TargetHeader::DataIn(DataIn {
        is_final: ends_data || ends_burst,
        initiator_task_tag: transfer.initiator_task_tag,
        completion: if ends_data { transfer.completion } else { None },
        exp_cmd_sn: transfer.numbers.exp_cmd_sn,
        max_cmd_sn: transfer.numbers.max_cmd_sn,
        data_sn: SerialNumber { number: data_sn },
        buffer_offset: offset,
    });
    write_pdu(
        out,
        &TargetPdu {
            header,
            payload: &rest[..count],
        },
    )
}
