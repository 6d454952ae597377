use iscsi_keys::TARGET_MAX_RECV_DATA_SEGMENT_LENGTH;
use read_buffer::ReadBuffer;

/// As many bytes as are written at once: past this the answers are written.
pub(crate) const BATCH: usize = 65_536;

/// Room for the PDU with the longest data segment, and for others behind it.
pub(crate) const PDU_BUFFER: usize = TARGET_MAX_RECV_DATA_SEGMENT_LENGTH as usize + BATCH;

/// The bytes of a connection of which no PDU was made yet.
pub(crate) type PduBuffer = ReadBuffer<PDU_BUFFER>;
