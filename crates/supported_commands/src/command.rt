ghost use Rattle.std.specs.Prelude.{◌≡◌, ◌≤◌, length};
ghost use Rattle.supported_commands.specs.Commands.{has, usage_bytes, action_field, has_service_action};

use scsi_cdb::Kind;

/// CDB USAGE DATA of a command, by the length of its CDB: the operation code, then in each byte a 1 for each bit whose value can
/// change the answer; a service action is in byte 1 itself (SPC-4, "One_command parameter data format").
#[derive(Clone, Copy)]
pub(crate) enum CdbUsage {
    Six([u8; 6]),
    Ten([u8; 10]),
    Twelve([u8; 12]),
}

impl CdbUsage {
    pub(crate) fn bytes(&self) -> &[u8]
        ensures { result.now ≡ usage_bytes self.now }
    {
        match self {
            CdbUsage::Six(bytes) => bytes,
            CdbUsage::Ten(bytes) => bytes,
            CdbUsage::Twelve(bytes) => bytes,
        }
    }

    /// The length of the CDB, in bytes.
    pub(crate) fn length(self) -> u16
        ensures length { result ≡ length (usage_bytes self) }
        ensures longest { result ≤ 12 }
    {
        match self {
            CdbUsage::Six(_) => 6,
            CdbUsage::Ten(_) => 10,
            CdbUsage::Twelve(_) => 12,
        }
    }
}

/// Which kinds of unit support a command.
#[derive(Clone, Copy)]
pub(crate) enum Units {
    Both,
    Drives,
    Changers,
}

impl Units {
    pub(crate) fn has(self, kind: Kind) -> bool
        ensures { result ≡ has self kind }
    {
        match (self, kind) {
            (Units::Both, _) => true,
            (Units::Drives, Kind::Drive) => true,
            (Units::Drives, Kind::Changer) => false,
            (Units::Changers, Kind::Drive) => false,
            (Units::Changers, Kind::Changer) => true,
        }
    }
}

/// A command that is supported.
pub(crate) struct Command {
    pub(crate) operation_code: u8,
    pub(crate) service_action: Option<u16>,
    pub(crate) usage: CdbUsage,
    /// After how long a host may give the command up, in seconds (profile).
    pub(crate) recommended_seconds: u32,
    pub(crate) units: Units,
}

impl Command {
    pub(crate) fn has_service_action(&self) -> bool
        ensures { result ≡ has_service_action self.now }
    {
        self.service_action.is_some()
    }

    /// The SERVICE ACTION field: 0 of a command without service actions.
    pub(crate) fn action_field(&self) -> u16
        ensures { result ≡ action_field self.now }
    {
        self.service_action.unwrap_or(0)
    }
}
