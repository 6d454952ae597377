ghost use Rattle.std.specs.Prelude.{◌≡◌, ◌∷◌, ◌++◌, length};
ghost use Rattle.byteorder.specs.Endian.{big_bytes};
ghost use Rattle.iscsi_pdu.specs.Codes.{async_event_code};
ghost use Rattle.iscsi_pdu.specs.Fields.{halves};
ghost use Rattle.iscsi_pdu.specs.Responses.{async_message, async_message_header};

use crate::async_event::AsyncEvent;
use crate::fields::*;
use crate::header::*;
use crate::layout::*;
use crate::serial_number::SerialNumber;

/// Asynchronous Message (RFC 7143, "Asynchronous Message").
#[derive(Clone, Copy)]
pub struct AsyncMessage {
    /// The logical unit number, eight bytes.
    pub lun: u64,
    pub stat_sn: SerialNumber,
    pub exp_cmd_sn: SerialNumber,
    pub max_cmd_sn: SerialNumber,
    pub event: AsyncEvent,
    pub vendor_code: u8,
    pub parameter_1: u16,
    pub parameter_2: u16,
    pub parameter_3: u16,
}

impl AsyncMessage {
    pub(crate) fn read(header: &[u8]) -> AsyncMessage
        requires { length header.now ≡ 48 }
        ensures { result ≡ async_message header.now }
    {
        AsyncMessage {
            lun: u64_at(header, LUN),
            stat_sn: serial_at(header, STAT_SN),
            exp_cmd_sn: serial_at(header, EXP_CMD_SN),
            max_cmd_sn: serial_at(header, MAX_CMD_SN),
            event: AsyncEvent::of(header[EVENT]),
            vendor_code: header[VENDOR_CODE],
            parameter_1: u16_at(header, PARAMETER_1),
            parameter_2: u16_at(header, PARAMETER_2),
            parameter_3: u16_at(header, PARAMETER_3),
        }
    }

    pub(crate) fn header(&self) -> Header
        ensures { result ≡ async_message_header self.now }
    {
        Header {
            start: [ASYNC_MESSAGE, FINAL, 0, 0],
            lun: self.lun.to_be_bytes(),
            middle: rows(RESERVED_TAG, 0, self.stat_sn.number, self.exp_cmd_sn.number),
            tail: event_rows(self),
        }
    }
}

/// Bytes 32 to 47.
fn event_rows(message: &AsyncMessage) -> [u8; 16]
    ensures { result ≡ big_bytes 4 message.now.max_cmd_sn.number ++ (async_event_code message.now.event ∷ message.now.vendor_code ∷ big_bytes 2 message.now.parameter_1)
        ++ halves message.now.parameter_2 message.now.parameter_3 ++ big_bytes 4 0 }
{
    let [n3, n2, n1, n0] = message.max_cmd_sn.number.to_be_bytes();
    let [a1, a0] = message.parameter_1.to_be_bytes();
    let [b1, b0] = message.parameter_2.to_be_bytes();
    let [c1, c0] = message.parameter_3.to_be_bytes();
    [
        n3,
        n2,
        n1,
        n0,
        message.event.code(),
        message.vendor_code,
        a1,
        a0,
        b1,
        b0,
        c1,
        c0,
        0,
        0,
        0,
        0,
    ]
}
