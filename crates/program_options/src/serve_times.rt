ghost use Rattle.std.specs.Prelude.{◌≡◌};
ghost use Rattle.std.specs.Duration.{as_nanos};
ghost use Rattle.std.specs.Option.{option_map};
ghost use Rattle.program_options.specs.ServeTimes.{nanos_of, timeout_nanos};

use std::time::Duration;

/// How long a served library waits for its hosts (profile).
#[derive(Clone, Copy)]
pub struct ServeTimes {
    /// How long sessions go on once no more connections are accepted.
    pub grace: Duration,
    /// In which a connection's LOGIN has to come. `None`: it may take for ever.
    pub login: Option<Duration>,
    /// After which a session from which nothing came is ended. `None`: never.
    pub idle: Option<Duration>,
    /// After which a reply that can't be written ends its session. `None`: never.
    pub write: Option<Duration>,
    /// After which an iSCSI initiator from which nothing came is asked whether it is still there. `None`: never.
    pub ping: Option<Duration>,
}

impl ServeTimes {
    /// Seconds of each where nothing else is asked for.
    pub const DEFAULT_GRACE: u32 = 10;

    pub const DEFAULT_LOGIN: u32 = 10;

    pub const DEFAULT_IDLE: u32 = 0;

    pub const DEFAULT_WRITE: u32 = 30;

    pub const DEFAULT_PING: u32 = 30;

    /// The most seconds of grace that may be asked for (profile).
    pub const MAX_GRACE: u32 = 3600;

    /// The most seconds of any other that may be asked for (profile).
    pub const MAX_TIMEOUT: u32 = 86_400;

    /// Each in seconds, where 0 of any but the grace is never.
    pub fn of_seconds(grace: u32, login: u32, idle: u32, write: u32, ping: u32) -> ServeTimes
        ensures grace { as_nanos result.grace ≡ nanos_of grace }
        ensures login { option_map as_nanos result.login ≡ timeout_nanos login }
        ensures idle { option_map as_nanos result.idle ≡ timeout_nanos idle }
        ensures write { option_map as_nanos result.write ≡ timeout_nanos write }
        ensures ping { option_map as_nanos result.ping ≡ timeout_nanos ping }
    {
        ServeTimes {
            grace: Duration::from_secs(u64::from(grace)),
            login: timeout_of(login),
            idle: timeout_of(idle),
            write: timeout_of(write),
            ping: timeout_of(ping),
        }
    }
}

impl Default for ServeTimes {
    ghost is_default = { λ times. (as_nanos times.grace ≡ nanos_of 10)
        × (option_map as_nanos times.login ≡ timeout_nanos 10)
        × (option_map as_nanos times.idle ≡ timeout_nanos 0)
        × (option_map as_nanos times.write ≡ timeout_nanos 30)
        × (option_map as_nanos times.ping ≡ timeout_nanos 30) };

    fn default() -> ServeTimes {
        ServeTimes::of_seconds(
            ServeTimes::DEFAULT_GRACE,
            ServeTimes::DEFAULT_LOGIN,
            ServeTimes::DEFAULT_IDLE,
            ServeTimes::DEFAULT_WRITE,
            ServeTimes::DEFAULT_PING,
        )
    }
}

/// So many seconds, where 0 is never.
fn timeout_of(seconds: u32) -> Option<Duration>
    ensures { option_map as_nanos result ≡ timeout_nanos seconds }
{
    match seconds {
        0 => None,
        _ => Some(Duration::from_secs(u64::from(seconds))),
    }
}
