ghost use Rattle.std.specs.Prelude.{◌≡◌, length};
ghost use Rattle.iscsi_pdu.specs.Pdus.{parsed_target};
ghost use Rattle.iscsi_pdu.specs.Views.{parsed_target_value, IsWithin};

use crate::fault::PduFault;
use crate::segments::{Split, segments_of};
use crate::target_header::TargetHeader;

/// What a target sends, where it lies among the bytes of the stream.
#[derive(Clone, Copy)]
pub struct TargetPdu<'a> {
    pub header: TargetHeader,
    /// The data segment, without its padding.
    pub payload: &'a [u8],
}

/// What a stream of a target begins with.
#[derive(Clone, Copy)]
pub enum ParsedTargetPdu<'a> {
    /// Less than a PDU, of which so many bytes are wanted before more can be said.
    Partial(usize),
    /// A PDU, and how many bytes it takes.
    Complete(TargetPdu<'a>, usize),
    Invalid(PduFault),
}

/// What a stream of a target begins with, where its data segments have at most so many bytes, as its initiator reads it. Nothing
/// is copied.
pub fn parse_target_pdu(max_data_segment_length: u32, bytes: &[u8]) -> ParsedTargetPdu<'_>
    ensures parsed { parsed_target_value result ≡ parsed_target max_data_segment_length bytes.now }
    ensures within { IsWithin (length bytes.now) (parsed_target_value result) }
{
    match segments_of(max_data_segment_length, bytes) {
        Split::Partial(wanted) => ParsedTargetPdu::Partial(wanted),
        Split::Invalid(fault) => ParsedTargetPdu::Invalid(fault),
        Split::Complete(segments, count) => {
            let pdu = TargetPdu {
                header: TargetHeader::read(segments.header),
                payload: segments.payload,
            };
            ParsedTargetPdu::Complete(pdu, count)
        }
    }
}
