use crate::fields::*;
use crate::header::*;
use crate::layout::*;
use crate::serial_number::SerialNumber;
use crate::snack_type::SnackType;

/// SNACK Request (RFC 7143, "SNACK Request").
#[derive(Clone, Copy)]
pub struct SnackRequest {
    pub snack_type: SnackType,
    /// The logical unit number, eight bytes.
    pub lun: u64,
    pub initiator_task_tag: u32,
    pub target_transfer_tag: u32,
    pub exp_stat_sn: SerialNumber,
    /// The first number that is asked for.
    pub beg_run: u32,
    /// How many are asked for.
    pub run_length: u32,
}

impl SnackRequest {
    ghost use Rattle.std.specs.Prelude.{◌≡◌, length};
    ghost use Rattle.iscsi_pdu.specs.Requests.{snack_request, snack_request_header};

    pub(crate) fn read(header: &[u8]) -> SnackRequest
        requires { length header.now ≡ 48 }
        ensures { result ≡ snack_request header.now }
    {
        SnackRequest {
            snack_type: SnackType::of(four_bits_at(header)),
            lun: u64_at(header, LUN),
            initiator_task_tag: u32_at(header, INITIATOR_TASK_TAG),
            target_transfer_tag: u32_at(header, TARGET_TRANSFER_TAG),
            exp_stat_sn: serial_at(header, EXP_STAT_SN),
            beg_run: u32_at(header, BEG_RUN),
            run_length: u32_at(header, RUN_LENGTH),
        }
    }

    pub(crate) fn header(&self) -> Header
        ensures { result ≡ snack_request_header self.now }
    {
        Header {
            start: [SNACK_REQUEST, FINAL + self.snack_type.code(), 0, 0],
            lun: self.lun.to_be_bytes(),
            middle: rows(
                self.initiator_task_tag,
                self.target_transfer_tag,
                0,
                self.exp_stat_sn.number,
            ),
            tail: rows(0, 0, self.beg_run, self.run_length),
        }
    }
}
