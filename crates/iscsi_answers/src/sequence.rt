use iscsi_pdu::SerialNumber;

/// The sequence numbers that stand in an answer (RFC 7143, "Command Numbering and Acknowledging", "Response/Status Numbering and
/// Acknowledging").
#[derive(Clone, Copy)]
pub struct SequenceNumbers {
    pub stat_sn: SerialNumber,
    pub exp_cmd_sn: SerialNumber,
    pub max_cmd_sn: SerialNumber,
}
