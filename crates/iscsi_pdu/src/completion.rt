ghost use Rattle.std.specs.Prelude.{◌≡◌, ◌≤◌, length};
ghost use Rattle.iscsi_pdu.specs.Completions.{completion, completion_flags, completion_status, completion_stat_sn, completion_count};

use crate::fields::*;
use crate::layout::*;
use crate::residual::Residual;
use crate::scsi_status::ScsiStatus;
use crate::serial_number::SerialNumber;

/// How a command ended, as the last Data-In of a command tells it in place of a SCSI Response (RFC 7143, "SCSI Data-In").
#[derive(Clone, Copy)]
pub struct Completion {
    pub status: ScsiStatus,
    pub stat_sn: SerialNumber,
    pub residual: Residual,
}

pub(crate) fn completion_at(header: &[u8]) -> Option<Completion>
    requires { length header.now ≡ 48 }
    ensures { result ≡ completion header.now }
{
    if bit_at(header, FLAGS, STATUS_BIT) {
        Some(Completion {
            status: ScsiStatus::of(header[STATUS]),
            stat_sn: serial_at(header, STAT_SN),
            residual: Residual::read(header),
        })
    } else {
        None
    }
}

pub(crate) fn flags_of(completion: Option<Completion>) -> u8
    ensures flags { result ≡ completion_flags completion }
    ensures most { result ≤ 5 }
{
    match completion {
        None => 0,
        Some(ended) => ended.residual.flags() + (1 << STATUS_BIT),
    }
}

pub(crate) fn status_of(completion: Option<Completion>) -> u8
    ensures { result ≡ completion_status completion }
{
    match completion {
        None => 0,
        Some(ended) => ended.status.code(),
    }
}

pub(crate) fn stat_sn_of(completion: Option<Completion>) -> u32
    ensures { result ≡ completion_stat_sn completion }
{
    match completion {
        None => 0,
        Some(ended) => ended.stat_sn.number,
    }
}

pub(crate) fn count_of(completion: Option<Completion>) -> u32
    ensures { result ≡ completion_count completion }
{
    match completion {
        None => 0,
        Some(ended) => ended.residual.count(),
    }
}
