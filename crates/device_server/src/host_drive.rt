use inquiry_data::UnitIdentity;
use log_pages::LogCounters;

/// What a drive of the hosts' profile keeps besides.
#[derive(Clone, Copy)]
pub struct HostDrive {
    /// Which unit it is.
    pub identity: UnitIdentity,
    /// Of a volume in the bay that isn't loaded: an UNLOAD with HOLD left it so, and not one that ejected it. Nothing else looks at it
    /// (SSC-4, "LOAD UNLOAD command").
    pub held: bool,
    /// DCE (SSC-4, "Data Compression mode page"). Data are kept as they were sent, whatever it says.
    pub compression: bool,
    /// The counters of its log pages.
    pub counters: LogCounters,
}

impl HostDrive {
    ghost use Rattle.std.specs.Prelude.{◌≡◌};
    ghost use Rattle.device_server.specs.Hosts.{new_host_drive};

    /// What a drive keeps that was made as this unit.
    pub fn new(identity: UnitIdentity) -> HostDrive
        ensures { result ≡ new_host_drive identity }
    {
        HostDrive {
            identity,
            held: false,
            compression: true,
            counters: LogCounters::at_power_on(),
        }
    }
}
