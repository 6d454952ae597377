ghost use Rattle.std.specs.Prelude.{◌≡◌, ◌≤◌, ◌<◌, ◌^◌, ◌*◌, ◌+◌, length, OnOk};
ghost use Rattle.std.specs.Option.{option_copied};
ghost use Rattle.iscsi_pdu.specs.Segments.{segments, padded, extended_cdb, counted_cdb};
ghost use Rattle.iscsi_pdu.specs.Views.{split_value, HasHeader, IsWithin};

use crate::fault::PduFault;
use crate::fields::*;
use crate::layout::*;

/// The segments of a PDU, where they lie among the bytes of a stream; the data segment without its padding.
#[derive(Clone, Copy)]
pub(crate) struct Segments<'a> {
    pub(crate) header: &'a [u8],
    pub(crate) ahs: &'a [u8],
    pub(crate) payload: &'a [u8],
}

/// What a stream begins with: less than a PDU, one of so many bytes, or a fault.
#[derive(Clone, Copy)]
pub(crate) enum Split<'a> {
    Partial(usize),
    Complete(Segments<'a>, usize),
    Invalid(PduFault),
}

/// The length with its padding.
pub(crate) fn padded(length: usize) -> usize
    requires { length < 2 ^ 32 }
    ensures { result ≡ padded length }
{
    (length + 3) / WORD * WORD
}

/// The segments of the PDU that a stream begins with.
#[tactic(auto, unfolding(crate::specs::Segments::segments))]
pub(crate) fn segments_of(max_data_segment_length: u32, bytes: &[u8]) -> Split<'_>
    ensures split { split_value result ≡ segments max_data_segment_length bytes.now }
    ensures within { IsWithin (length bytes.now) (split_value result) }
    ensures header { HasHeader result }
{
    if bytes.len() < BASIC_HEADER_SEGMENT {
        return Split::Partial(BASIC_HEADER_SEGMENT);
    }
    if bytes[TOTAL_AHS_LENGTH] > MAX_AHS_WORDS {
        return Split::Invalid(PduFault::AhsTooLong);
    }
    let length = u24_at(bytes, DATA_SEGMENT_LENGTH);
    if length > max_data_segment_length {
        return Split::Invalid(PduFault::DataSegmentTooLong);
    }
    let ahs_end = BASIC_HEADER_SEGMENT + WORD * bytes[TOTAL_AHS_LENGTH] as usize;
    let count = ahs_end + padded(length as usize);
    if bytes.len() < count {
        return Split::Partial(count);
    }
    let segments = Segments {
        header: &bytes[..BASIC_HEADER_SEGMENT],
        ahs: &bytes[BASIC_HEADER_SEGMENT..ahs_end],
        payload: &bytes[ahs_end..ahs_end + length as usize],
    };
    Split::Complete(segments, count)
}

/// The bytes of a CDB behind its first 16, as an AHS of the type tells them (RFC 7143, "Extended CDB AHS"). Of AHS that begin
/// with another type there are none: only a bidirectional command has such, and no unit here does.
pub(crate) fn extended_cdb(ahs: &[u8]) -> Option<&[u8]>
    ensures { option_copied result ≡ extended_cdb ahs.now }
{
    if ahs.len() < WORD || ahs[AHS_TYPE] != EXTENDED_CDB {
        return Some(&[]);
    }
    let count = u16_at(ahs, AHS_LENGTH) as usize;
    if count == 0 || ahs.len() < AHS_TYPE + 1 + count {
        return None;
    }
    Some(&ahs[WORD..AHS_TYPE + 1 + count])
}
