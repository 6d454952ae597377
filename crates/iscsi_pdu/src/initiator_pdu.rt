ghost use Rattle.std.specs.Prelude.{◌≡◌, length, Some};
ghost use Rattle.std.specs.Option.{option_copied};
ghost use Rattle.iscsi_pdu.specs.Pdus.{parsed_initiator, further_cdb, initiator_pdu};
ghost use Rattle.iscsi_pdu.specs.InitiatorHeaders.{initiator_header};
ghost use Rattle.iscsi_pdu.specs.Views.{parsed_initiator_value, segments_value, IsWithin};

use crate::fault::PduFault;
use crate::initiator_header::InitiatorHeader;
use crate::segments::{Segments, Split, extended_cdb, segments_of};

/// What an initiator sends, where it lies among the bytes of the stream.
#[derive(Clone, Copy)]
pub struct InitiatorPdu<'a> {
    pub header: InitiatorHeader,
    /// The bytes of a SCSI Command's CDB behind its first 16.
    pub extended_cdb: &'a [u8],
    /// The data segment, without its padding.
    pub payload: &'a [u8],
}

/// What a stream of an initiator begins with.
#[derive(Clone, Copy)]
pub enum ParsedInitiatorPdu<'a> {
    /// Less than a PDU, of which so many bytes are wanted before more can be said.
    Partial(usize),
    /// A PDU, and how many bytes it takes.
    Complete(InitiatorPdu<'a>, usize),
    Invalid(PduFault),
}

/// What a stream of an initiator begins with, where its data segments have at most so many bytes. Nothing is copied.
pub fn parse_initiator_pdu(max_data_segment_length: u32, bytes: &[u8]) -> ParsedInitiatorPdu<'_>
    ensures parsed { parsed_initiator_value result ≡ parsed_initiator max_data_segment_length bytes.now }
    ensures within { IsWithin (length bytes.now) (parsed_initiator_value result) }
{
    match segments_of(max_data_segment_length, bytes) {
        Split::Partial(wanted) => ParsedInitiatorPdu::Partial(wanted),
        Split::Invalid(fault) => ParsedInitiatorPdu::Invalid(fault),
        Split::Complete(segments, count) => {
            let header = InitiatorHeader::read(segments.header);
            match further_cdb(&header, segments.ahs) {
                None => ParsedInitiatorPdu::Invalid(PduFault::BadExtendedCdb),
                Some(extended_cdb) => {
                    let pdu = InitiatorPdu {
                        header,
                        extended_cdb,
                        payload: segments.payload,
                    };
                    ParsedInitiatorPdu::Complete(pdu, count)
                }
            }
        }
    }
}

/// The further bytes of the CDB, which a SCSI Command alone has.
fn further_cdb<'a>(header: &InitiatorHeader, ahs: &'a [u8]) -> Option<&'a [u8]>
    ensures { option_copied result ≡ further_cdb header.now ahs.now }
{
    match header {
        InitiatorHeader::ScsiCommand(_) => extended_cdb(ahs),
        _ => Some(&[]),
    }
}
