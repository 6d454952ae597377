ghost use Rattle.std.specs.Prelude.{◌≡◌, ◌<◌};
ghost use Rattle.iscsi_keys.specs.Keys.{range};

use crate::kind::{KeyKind, Range};
use crate::parameters::TARGET_MAX_RECV_DATA_SEGMENT_LENGTH;
use crate::word::Word;

/// How many keys there are.
pub const KEYS: usize = 24;

/// The keys of a login that the target knows (RFC 7143, "Login/Text Operational Text Keys", "iSCSI Security Text Keys and
/// Authentication Methods").
#[derive(Clone, Copy)]
pub enum Key {
    InitiatorName,
    InitiatorAlias,
    TargetName,
    SessionType,
    AuthMethod,
    HeaderDigest,
    DataDigest,
    MaxConnections,
    InitialR2t,
    ImmediateData,
    MaxRecvDataSegmentLength,
    MaxBurstLength,
    FirstBurstLength,
    DefaultTime2Wait,
    DefaultTime2Retain,
    MaxOutstandingR2t,
    DataPduInOrder,
    DataSequenceInOrder,
    ErrorRecoveryLevel,
    TaskReporting,
    IfMarker,
    OfMarker,
    IfMarkInt,
    OfMarkInt,
}

impl Key {
    ghost use Rattle.iscsi_keys.specs.Keys.{key_name, key_kind, key_place, is_of_data_transfer};

    /// Each of them once, in their order.
    pub const ALL: [Key; KEYS] = [
        Key::InitiatorName,
        Key::InitiatorAlias,
        Key::TargetName,
        Key::SessionType,
        Key::AuthMethod,
        Key::HeaderDigest,
        Key::DataDigest,
        Key::MaxConnections,
        Key::InitialR2t,
        Key::ImmediateData,
        Key::MaxRecvDataSegmentLength,
        Key::MaxBurstLength,
        Key::FirstBurstLength,
        Key::DefaultTime2Wait,
        Key::DefaultTime2Retain,
        Key::MaxOutstandingR2t,
        Key::DataPduInOrder,
        Key::DataSequenceInOrder,
        Key::ErrorRecoveryLevel,
        Key::TaskReporting,
        Key::IfMarker,
        Key::OfMarker,
        Key::IfMarkInt,
        Key::OfMarkInt,
    ];

    /// Its name, as it is written.
    pub fn name(self) -> &'static [u8]
        ensures { result.now ≡ key_name self }
    {
        match self {
            Key::InitiatorName => b"InitiatorName",
            Key::InitiatorAlias => b"InitiatorAlias",
            Key::TargetName => b"TargetName",
            Key::SessionType => b"SessionType",
            Key::AuthMethod => b"AuthMethod",
            Key::HeaderDigest => b"HeaderDigest",
            Key::DataDigest => b"DataDigest",
            Key::MaxConnections => b"MaxConnections",
            Key::InitialR2t => b"InitialR2T",
            Key::ImmediateData => b"ImmediateData",
            Key::MaxRecvDataSegmentLength => b"MaxRecvDataSegmentLength",
            Key::MaxBurstLength => b"MaxBurstLength",
            Key::FirstBurstLength => b"FirstBurstLength",
            Key::DefaultTime2Wait => b"DefaultTime2Wait",
            Key::DefaultTime2Retain => b"DefaultTime2Retain",
            Key::MaxOutstandingR2t => b"MaxOutstandingR2T",
            Key::DataPduInOrder => b"DataPDUInOrder",
            Key::DataSequenceInOrder => b"DataSequenceInOrder",
            Key::ErrorRecoveryLevel => b"ErrorRecoveryLevel",
            Key::TaskReporting => b"TaskReporting",
            Key::IfMarker => b"IFMarker",
            Key::OfMarker => b"OFMarker",
            Key::IfMarkInt => b"IFMarkInt",
            Key::OfMarkInt => b"OFMarkInt",
        }
    }

    /// Its place among all of them.
    pub fn place(self) -> usize
        ensures place { result ≡ key_place self }
        ensures within { result < 24 }
    {
        self as usize
    }

    /// How its value comes to be agreed, in which range, and the target's own value.
    pub fn kind(self) -> KeyKind
        ensures { result ≡ key_kind self }
    {
        match self {
            Key::InitiatorName | Key::InitiatorAlias | Key::TargetName | Key::SessionType =>
                KeyKind::Declared,
            Key::AuthMethod => KeyKind::AuthMethod,
            Key::HeaderDigest | Key::DataDigest => KeyKind::List(Word::None),
            Key::MaxConnections => KeyKind::Smaller(range(1, 65_535, 1)),
            Key::InitialR2t => KeyKind::Or(false),
            Key::ImmediateData => KeyKind::And(true),
            Key::MaxRecvDataSegmentLength => KeyKind::DeclaredNumber(range(
                512,
                16_777_215,
                TARGET_MAX_RECV_DATA_SEGMENT_LENGTH,
            )),
            Key::MaxBurstLength => KeyKind::Smaller(range(512, 16_777_215, 1_048_576)),
            Key::FirstBurstLength => KeyKind::Smaller(range(512, 16_777_215, 262_144)),
            Key::DefaultTime2Wait => KeyKind::Larger(range(0, 3_600, 0)),
            Key::DefaultTime2Retain => KeyKind::Smaller(range(0, 3_600, 0)),
            Key::MaxOutstandingR2t => KeyKind::Smaller(range(1, 65_535, 1)),
            Key::DataPduInOrder | Key::DataSequenceInOrder => KeyKind::Or(true),
            Key::ErrorRecoveryLevel => KeyKind::Smaller(range(0, 2, 0)),
            Key::TaskReporting => KeyKind::List(Word::Rfc3720),
            Key::IfMarker | Key::OfMarker => KeyKind::And(false),
            Key::IfMarkInt | Key::OfMarkInt => KeyKind::Obsolete,
        }
    }

    /// Whether a discovery session has no use for it: it says how data are transferred.
    pub fn is_of_data_transfer(self) -> bool
        ensures { result ≡ is_of_data_transfer self }
    {
        matches!(
            self,
            Key::MaxConnections
                | Key::InitialR2t
                | Key::ImmediateData
                | Key::MaxBurstLength
                | Key::FirstBurstLength
                | Key::MaxOutstandingR2t
                | Key::DataPduInOrder
                | Key::DataSequenceInOrder
                | Key::TaskReporting
        )
    }
}

fn range(least: u32, most: u32, own: u32) -> Range
    ensures { result ≡ range least most own }
{
    Range { least, most, own }
}
