ghost use Rattle.std.specs.Prelude.{◌≤◌};

/// How much goes to an initiator in one piece, in bytes.
#[derive(Clone, Copy)]
pub struct TransferLimits {
    /// The most of a data segment: the initiator's own MaxRecvDataSegmentLength.
    pub max_data_segment_length: u32,
    /// The most of a sequence of Data-In: MaxBurstLength.
    pub max_burst_length: u32,
    ghost some_segment: { 512 ≤ max_data_segment_length },
    ghost short_segment: { max_data_segment_length ≤ 16777215 },
    ghost some_burst: { 512 ≤ max_burst_length },
}

const LEAST: u32 = 512;

const MOST: u32 = 16_777_215;

impl TransferLimits {
    ghost use Rattle.std.specs.Prelude.{◌≡◌, min, max};

    /// With these lengths, each taken into the range that RFC 7143 gives both keys, 512 to 16,777,215.
    pub fn new(max_data_segment_length: u32, max_burst_length: u32) -> TransferLimits
        ensures segment { result.max_data_segment_length ≡ max 512 (min max_data_segment_length 16777215) }
        ensures burst { result.max_burst_length ≡ max 512 (min max_burst_length 16777215) }
    {
        TransferLimits {
            max_data_segment_length: max_data_segment_length.min(MOST).max(LEAST),
            max_burst_length: max_burst_length.min(MOST).max(LEAST),
        }
    }
}
