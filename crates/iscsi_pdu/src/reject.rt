use crate::fields::*;
use crate::header::*;
use crate::layout::*;
use crate::reject_reason::RejectReason;
use crate::serial_number::SerialNumber;

/// Reject (RFC 7143, "Reject").
#[derive(Clone, Copy)]
pub struct Reject {
    pub reason: RejectReason,
    pub stat_sn: SerialNumber,
    pub exp_cmd_sn: SerialNumber,
    pub max_cmd_sn: SerialNumber,
}

impl Reject {
    ghost use Rattle.std.specs.Prelude.{◌≡◌, length};
    ghost use Rattle.iscsi_pdu.specs.Responses.{reject, reject_header};

    pub(crate) fn read(header: &[u8]) -> Reject
        requires { length header.now ≡ 48 }
        ensures { result ≡ reject header.now }
    {
        Reject {
            reason: RejectReason::of(header[REASON]),
            stat_sn: serial_at(header, STAT_SN),
            exp_cmd_sn: serial_at(header, EXP_CMD_SN),
            max_cmd_sn: serial_at(header, MAX_CMD_SN),
        }
    }

    pub(crate) fn header(&self) -> Header
        ensures { result ≡ reject_header self.now }
    {
        Header {
            start: [REJECT, FINAL, self.reason.code(), 0],
            lun: [0; 8],
            middle: rows(RESERVED_TAG, 0, self.stat_sn.number, self.exp_cmd_sn.number),
            tail: rows(self.max_cmd_sn.number, 0, 0, 0),
        }
    }
}
