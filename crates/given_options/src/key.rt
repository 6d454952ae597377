ghost use Rattle.std.specs.Prelude.{◌≡◌};
ghost use Rattle.given_options.specs.Keys.{key_text, option_text};

/// An option of `vtl serve` that a file of configuration may have too, as a key.
#[derive(Clone, Copy, Debug, PartialEq, Eq)]
pub enum ServeKey {
    Drives,
    Slots,
    Portals,
    Volumes,
    VolumeSize,
    Profile,
    LibraryId,
    Media,
    NewLibrary,
    WaitForFolder,
    Memory,
    VolumesLargerThanMemory,
    Socket,
    Control,
    Metrics,
    MetricsOpen,
    Sessions,
    Workers,
    Iscsi,
    TargetName,
    Hosts,
    AnyHost,
    Multipath,
    Chap,
    ChapDigests,
    NoAuthentication,
    Spans,
    Drain,
    KeepRecords,
    Records,
    Format,
    Grace,
    LoginTimeout,
    IdleTimeout,
    WriteTimeout,
    IdlePing,
    Log,
}

/// All of them.
pub const SERVE_KEYS: [ServeKey; 37] = [
    ServeKey::Drives,
    ServeKey::Slots,
    ServeKey::Portals,
    ServeKey::Volumes,
    ServeKey::VolumeSize,
    ServeKey::Profile,
    ServeKey::LibraryId,
    ServeKey::Media,
    ServeKey::NewLibrary,
    ServeKey::WaitForFolder,
    ServeKey::Memory,
    ServeKey::VolumesLargerThanMemory,
    ServeKey::Socket,
    ServeKey::Control,
    ServeKey::Metrics,
    ServeKey::MetricsOpen,
    ServeKey::Sessions,
    ServeKey::Workers,
    ServeKey::Iscsi,
    ServeKey::TargetName,
    ServeKey::Hosts,
    ServeKey::AnyHost,
    ServeKey::Multipath,
    ServeKey::Chap,
    ServeKey::ChapDigests,
    ServeKey::NoAuthentication,
    ServeKey::Spans,
    ServeKey::Drain,
    ServeKey::KeepRecords,
    ServeKey::Records,
    ServeKey::Format,
    ServeKey::Grace,
    ServeKey::LoginTimeout,
    ServeKey::IdleTimeout,
    ServeKey::WriteTimeout,
    ServeKey::IdlePing,
    ServeKey::Log,
];

impl ServeKey {
    /// Its name in a file: the name of the option, but for the hosts, which are a table there.
    pub fn text(self) -> &'static str
        ensures { result.now ≡ key_text self }
    {
        match self {
            ServeKey::Drives => "drives",
            ServeKey::Slots => "slots",
            ServeKey::Portals => "portals",
            ServeKey::Volumes => "volumes",
            ServeKey::VolumeSize => "volume-size",
            ServeKey::Profile => "profile",
            ServeKey::LibraryId => "library-id",
            ServeKey::Media => "media",
            ServeKey::NewLibrary => "new-library",
            ServeKey::WaitForFolder => "wait-for-folder",
            ServeKey::Memory => "memory",
            ServeKey::VolumesLargerThanMemory => "volumes-larger-than-memory",
            ServeKey::Socket => "socket",
            ServeKey::Control => "control",
            ServeKey::Metrics => "metrics",
            ServeKey::MetricsOpen => "metrics-open",
            ServeKey::Sessions => "sessions",
            ServeKey::Workers => "workers",
            ServeKey::Iscsi => "iscsi",
            ServeKey::TargetName => "target-name",
            ServeKey::Hosts => "hosts",
            ServeKey::AnyHost => "any-host",
            ServeKey::Multipath => "multipath",
            ServeKey::Chap => "chap",
            ServeKey::ChapDigests => "chap-digests",
            ServeKey::NoAuthentication => "no-authentication",
            ServeKey::Spans => "spans",
            ServeKey::Drain => "drain",
            ServeKey::KeepRecords => "keep-records",
            ServeKey::Records => "records",
            ServeKey::Format => "format",
            ServeKey::Grace => "grace",
            ServeKey::LoginTimeout => "login-timeout",
            ServeKey::IdleTimeout => "idle-timeout",
            ServeKey::WriteTimeout => "write-timeout",
            ServeKey::IdlePing => "idle-ping",
            ServeKey::Log => "log",
        }
    }

    /// The name of the option, without its hyphens.
    pub fn option(self) -> &'static str
        ensures { result.now ≡ option_text self }
    {
        if matches!(self, ServeKey::Hosts) {
            "host"
        } else {
            self.text()
        }
    }
}
