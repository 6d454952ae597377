ghost use Rattle.std.specs.Prelude.{◌≡◌, ℕ, List, ◌++◌, length};
ghost use Rattle.iscsi_pdu.specs.Headers.{header_bytes};
ghost use Rattle.iscsi_pdu.specs.InitiatorHeaders.{initiator_header, initiator_header_parts};
ghost use Rattle.iscsi_pdu.specs.TargetHeaders.{target_header, target_header_parts};
ghost use Rattle.iscsi_pdu.specs.Pdus.{InitiatorPduValue, TargetPduValue, parsed_initiator, parsed_target, initiator_bytes, target_bytes};
ghost use Rattle.iscsi_pdu.specs.Segments.{Complete, IsKnown};
ghost use Rattle.iscsi_pdu.specs.Widths.{FitsInitiator, FitsTarget, IsInitiatorWritable, IsTargetWritable};
ghost use Rattle.iscsi_pdu.specs.declared.initiator_header.InitiatorHeader.{InitiatorHeader};
ghost use Rattle.iscsi_pdu.specs.declared.target_header.TargetHeader.{TargetHeader};

/// Law: each header that is written is read again, whatever segments follow it.
pub fn headers_read_back()
    ensures initiator { (p : InitiatorHeader) (words count : ℕ) → FitsInitiator p → initiator_header (header_bytes words count (initiator_header_parts p)) ≡ p }
    ensures target { (p : TargetHeader) (words count : ℕ) → FitsTarget p → target_header (header_bytes words count (target_header_parts p)) ≡ p }
{}

/// Law: what a stream begins with, once it is more than a part of a PDU, stays whatever follows: where the stream is cut changes
/// nothing.
pub fn pdus_stay()
    ensures initiator { (limit : ℕ) (bytes more : List ℕ) → IsKnown (parsed_initiator limit bytes) → parsed_initiator limit (bytes ++ more) ≡ parsed_initiator limit bytes }
    ensures target { (limit : ℕ) (bytes more : List ℕ) → IsKnown (parsed_target limit bytes) → parsed_target limit (bytes ++ more) ≡ parsed_target limit bytes }
{}

/// Law: a stream that begins with what is written for a PDU has that very PDU at its front, and then the rest.
pub fn pdus_read_back()
    ensures initiator { (limit : ℕ) (p : InitiatorPduValue) (rest : List ℕ) → IsInitiatorWritable limit p → parsed_initiator limit (initiator_bytes p ++ rest) ≡ Complete p (length (initiator_bytes p)) }
    ensures target { (limit : ℕ) (p : TargetPduValue) (rest : List ℕ) → IsTargetWritable limit p → parsed_target limit (target_bytes p ++ rest) ≡ Complete p (length (target_bytes p)) }
{}
