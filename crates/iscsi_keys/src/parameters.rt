ghost use Rattle.std.specs.Prelude.{◌≡◌};
ghost use Rattle.iscsi_keys.specs.Limits.{most_first_burst};

use crate::answer::KeyAnswer;
use crate::key::Key;
use scsi_cdb::Profile;

/// The target's own MaxRecvDataSegmentLength: the most bytes of a data segment that comes to it.
pub const TARGET_MAX_RECV_DATA_SEGMENT_LENGTH: u32 = 262_144;

/// The most bytes of data that come with a command unasked, in a library of a profile: the target's own FirstBurstLength.
pub(crate) fn most_first_burst(profile: Profile) -> u32
    ensures { result ≡ most_first_burst profile }
{
    match profile {
        Profile::Spec => 262_144,
        Profile::Hosts => 65_536,
    }
}

/// What a session goes by, as its login has agreed it. What isn't here has one value that no initiator can change: one
/// connection, one outstanding R2T, data in order, error recovery level 0.
#[derive(Clone, Copy)]
pub struct SessionParameters {
    /// The most bytes of a data segment that goes to the initiator: its own MaxRecvDataSegmentLength.
    pub max_send_data_segment_length: u32,
    pub max_burst_length: u32,
    pub first_burst_length: u32,
    pub initial_r2t: bool,
    pub immediate_data: bool,
    /// In seconds.
    pub default_time2wait: u32,
}

impl SessionParameters {
    ghost use Rattle.iscsi_keys.specs.Parameters.{agreed};

    /// Those of a login that says nothing of them.
    pub const DEFAULT: SessionParameters = SessionParameters {
        max_send_data_segment_length: 8192,
        max_burst_length: 262_144,
        first_burst_length: 65_536,
        initial_r2t: true,
        immediate_data: true,
        default_time2wait: 2,
    };

    /// With what the answer to a key has agreed, where `declared` is the number that the initiator has given. The first burst is
    /// never longer than a burst.
    pub fn agreed(self, key: Key, answer: KeyAnswer, declared: Option<u32>) -> SessionParameters
        ensures { result ≡ agreed self key answer declared }
    {
        let mut parameters = self;
        match (key, answer, declared) {
            (Key::MaxRecvDataSegmentLength, KeyAnswer::Number(_), Some(length)) => {
                parameters.max_send_data_segment_length = length;
            }
            (Key::MaxBurstLength, KeyAnswer::Number(length), _) => {
                parameters.max_burst_length = length;
                parameters.first_burst_length = self.first_burst_length.min(length);
            }
            (Key::FirstBurstLength, KeyAnswer::Number(length), _) => {
                parameters.first_burst_length = length;
            }
            (Key::InitialR2t, KeyAnswer::Boolean(said), _) => parameters.initial_r2t = said,
            (Key::ImmediateData, KeyAnswer::Boolean(said), _) => parameters.immediate_data = said,
            (Key::DefaultTime2Wait, KeyAnswer::Number(seconds), _) => {
                parameters.default_time2wait = seconds;
            }
            _ => {}
        }
        parameters
    }
}
