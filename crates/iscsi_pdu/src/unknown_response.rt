use crate::fields::*;
use crate::header::*;
use crate::layout::*;

/// A PDU of a target whose opcode isn't one of RFC 7143's.
#[derive(Clone, Copy)]
pub struct UnknownResponse {
    /// Six bits.
    pub opcode: u8,
}

impl UnknownResponse {
    ghost use Rattle.std.specs.Prelude.{◌≡◌, length};
    ghost use Rattle.iscsi_pdu.specs.Responses.{unknown_response, unknown_response_header};

    pub(crate) fn read(header: &[u8]) -> UnknownResponse
        requires { length header.now ≡ 48 }
        ensures { result ≡ unknown_response header.now }
    {
        UnknownResponse {
            opcode: opcode_at(header),
        }
    }

    pub(crate) fn header(&self) -> Header
        ensures { result ≡ unknown_response_header self.now }
    {
        Header {
            start: [opcode_bits(self.opcode), FINAL, 0, 0],
            lun: [0; 8],
            middle: rows(0, 0, 0, 0),
            tail: rows(0, 0, 0, 0),
        }
    }
}
