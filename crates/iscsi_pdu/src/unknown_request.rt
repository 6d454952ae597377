use crate::fields::*;
use crate::header::*;
use crate::layout::*;
use crate::serial_number::SerialNumber;

/// A PDU of an initiator whose opcode isn't one of RFC 7143's, with the fields that all of them have.
#[derive(Clone, Copy)]
pub struct UnknownRequest {
    /// Whether it is for immediate delivery.
    pub immediate: bool,
    /// Six bits.
    pub opcode: u8,
    pub initiator_task_tag: u32,
    pub cmd_sn: SerialNumber,
}

impl UnknownRequest {
    ghost use Rattle.std.specs.Prelude.{◌≡◌, length};
    ghost use Rattle.iscsi_pdu.specs.Requests.{unknown_request, unknown_request_header};

    pub(crate) fn read(header: &[u8]) -> UnknownRequest
        requires { length header.now ≡ 48 }
        ensures { result ≡ unknown_request header.now }
    {
        UnknownRequest {
            immediate: bit_at(header, OPCODE, IMMEDIATE_BIT),
            opcode: opcode_at(header),
            initiator_task_tag: u32_at(header, INITIATOR_TASK_TAG),
            cmd_sn: serial_at(header, CMD_SN),
        }
    }

    pub(crate) fn header(&self) -> Header
        ensures { result ≡ unknown_request_header self.now }
    {
        Header {
            start: [
                flag(IMMEDIATE_BIT, self.immediate) + opcode_bits(self.opcode),
                FINAL,
                0,
                0,
            ],
            lun: [0; 8],
            middle: rows(self.initiator_task_tag, 0, self.cmd_sn.number, 0),
            tail: rows(0, 0, 0, 0),
        }
    }
}
