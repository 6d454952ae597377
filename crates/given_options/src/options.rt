ghost use Rattle.std.specs.Prelude.{◌≡◌};
ghost use Rattle.given_options.specs.Switches.{is_on};
ghost use Rattle.given_options.specs.Winning.{winning_library, winning_profile};

use crate::key::ServeKey;
use program_options::{
    ChapDigests, GivenLibrary, GivenProfile, NamedHost, PortalOptions, RecordFormat,
};
use std::net::SocketAddr;

/// The most sessions, and the most workers at a place (profile).
pub const MOST_SESSIONS: u8 = 64;

/// The most seconds for which a start may wait for its folder (profile).
pub const MOST_WAIT: u32 = 3600;

/// What a source says of how a library is served. It says nothing of what is `None`.
#[derive(Drop)]
pub struct GivenOptions {
    /// What the library is made of.
    pub library: GivenLibrary,
    /// How many bytes of blocks a volume takes.
    pub volume_size: Option<u64>,
    /// Which profile the library has, and which number.
    pub profile: GivenProfile,
    pub media: GivenMedia,
    pub place: GivenPlace,
    pub metrics: GivenMetrics,
    pub iscsi: GivenIscsi,
    pub records: GivenRecords,
    pub record_file: GivenRecordFile,
    pub times: GivenTimes,
    /// Whether all that goes on in sessions is logged.
    pub log: Option<bool>,
}

/// Where a library is kept, and how much memory it takes.
#[derive(Drop)]
pub struct GivenMedia {
    /// The path of its folder.
    pub folder: Option<String>,
    /// Whether a library is made in a folder that has none.
    pub new_library: Option<bool>,
    /// For how many seconds a start waits while another program has the folder.
    pub wait: Option<u32>,
    /// How many bytes of memory its volumes may take together.
    pub memory: Option<u64>,
    /// Whether they may hold more than that together, also where the library isn't kept.
    pub volumes_larger_than_memory: Option<bool>,
}

/// Where hosts connect by frames, where the library's status is asked for, for how long it is served, and to how many.
#[derive(Drop)]
pub struct GivenPlace {
    /// The path of the socket's file.
    pub socket: Option<String>,
    /// The path of the file of the socket at which the library's status is asked for.
    pub control: Option<String>,
    /// After how many connections the server ends.
    pub sessions: Option<u8>,
    /// How many sessions there may be at a time at each place.
    pub workers: Option<u8>,
}

/// Where the library's metrics are asked for, and by whom.
#[derive(Clone, Copy)]
pub struct GivenMetrics {
    pub address: Option<SocketAddr>,
    /// Whether other machines may read them.
    pub is_open: Option<bool>,
}

/// Where iSCSI initiators connect, which of them may log in, and what they must prove.
#[derive(Drop)]
pub struct GivenIscsi {
    pub portals: Option<Vec<PortalOptions>>,
    /// The target's iSCSI name.
    pub target_name: Option<String>,
    /// The hosts that are let in by name.
    pub hosts: Option<Vec<NamedHost>>,
    /// Whether every other name is let in too.
    pub any_host: Option<bool>,
    /// Whether sessions of one name may come from different addresses.
    pub multipath: Option<bool>,
    /// The path of the file with the hosts' secrets.
    pub chap: Option<String>,
    pub chap_digests: Option<ChapDigests>,
    /// Whether initiators need prove nothing.
    pub no_authentication: Option<bool>,
}

/// When and how records are printed.
#[derive(Clone, Copy)]
pub struct GivenRecords {
    pub spans: Option<bool>,
    pub drain: Option<bool>,
    pub keep_records: Option<bool>,
}

/// Into which file records are written, and in which form.
#[derive(Drop)]
pub struct GivenRecordFile {
    /// The path of the file.
    pub path: Option<String>,
    pub format: Option<RecordFormat>,
}

/// How many seconds a server waits for its hosts.
#[derive(Clone, Copy)]
pub struct GivenTimes {
    pub grace: Option<u32>,
    pub login: Option<u32>,
    pub idle: Option<u32>,
    pub write: Option<u32>,
    pub ping: Option<u32>,
}

/// What one source says of a library, and where that says nothing what another says.
fn library_over(first: GivenLibrary, second: GivenLibrary) -> GivenLibrary
    ensures { result ≡ winning_library first second }
{
    GivenLibrary {
        drives: first.drives.or(second.drives),
        slots: first.slots.or(second.slots),
        import_exports: first.import_exports.or(second.import_exports),
        volumes: first.volumes.or(second.volumes),
    }
}

/// The same of its profile and of its number, of which each may be from another source.
fn profile_over(first: GivenProfile, second: GivenProfile) -> GivenProfile
    ensures { result ≡ winning_profile first second }
{
    GivenProfile {
        profile: first.profile.or(second.profile),
        library_number: first.library_number.or(second.library_number),
    }
}

impl GivenMedia {
    ghost use Rattle.given_options.specs.Winning.{winning_media};

    /// What this says, and where it says nothing what the other says.
    fn over(self, other: GivenMedia) -> GivenMedia
        ensures { result ≡ winning_media self other }
    {
        GivenMedia {
            folder: self.folder.or(other.folder),
            new_library: self.new_library.or(other.new_library),
            wait: self.wait.or(other.wait),
            memory: self.memory.or(other.memory),
            volumes_larger_than_memory: self
                .volumes_larger_than_memory
                .or(other.volumes_larger_than_memory),
        }
    }
}

impl GivenPlace {
    ghost use Rattle.given_options.specs.Winning.{winning_place};

    fn over(self, other: GivenPlace) -> GivenPlace
        ensures { result ≡ winning_place self other }
    {
        GivenPlace {
            socket: self.socket.or(other.socket),
            control: self.control.or(other.control),
            sessions: self.sessions.or(other.sessions),
            workers: self.workers.or(other.workers),
        }
    }
}

impl GivenMetrics {
    ghost use Rattle.given_options.specs.Winning.{winning_metrics};

    fn over(self, other: GivenMetrics) -> GivenMetrics
        ensures { result ≡ winning_metrics self other }
    {
        GivenMetrics {
            address: self.address.or(other.address),
            is_open: self.is_open.or(other.is_open),
        }
    }
}

impl GivenIscsi {
    ghost use Rattle.given_options.specs.Winning.{winning_iscsi};

    fn over(self, other: GivenIscsi) -> GivenIscsi
        ensures { result ≡ winning_iscsi self other }
    {
        GivenIscsi {
            portals: self.portals.or(other.portals),
            target_name: self.target_name.or(other.target_name),
            hosts: self.hosts.or(other.hosts),
            any_host: self.any_host.or(other.any_host),
            multipath: self.multipath.or(other.multipath),
            chap: self.chap.or(other.chap),
            chap_digests: self.chap_digests.or(other.chap_digests),
            no_authentication: self.no_authentication.or(other.no_authentication),
        }
    }
}

impl GivenRecords {
    ghost use Rattle.given_options.specs.Winning.{winning_records};

    fn over(self, other: GivenRecords) -> GivenRecords
        ensures { result ≡ winning_records self other }
    {
        GivenRecords {
            spans: self.spans.or(other.spans),
            drain: self.drain.or(other.drain),
            keep_records: self.keep_records.or(other.keep_records),
        }
    }
}

impl GivenRecordFile {
    ghost use Rattle.given_options.specs.Winning.{winning_record_file};

    fn over(self, other: GivenRecordFile) -> GivenRecordFile
        ensures { result ≡ winning_record_file self other }
    {
        GivenRecordFile {
            path: self.path.or(other.path),
            format: self.format.or(other.format),
        }
    }
}

impl GivenTimes {
    ghost use Rattle.given_options.specs.Winning.{winning_times};

    fn over(self, other: GivenTimes) -> GivenTimes
        ensures { result ≡ winning_times self other }
    {
        GivenTimes {
            grace: self.grace.or(other.grace),
            login: self.login.or(other.login),
            idle: self.idle.or(other.idle),
            write: self.write.or(other.write),
            ping: self.ping.or(other.ping),
        }
    }
}

impl GivenOptions {
    ghost use Rattle.given_options.specs.Given.{is_given};
    ghost use Rattle.given_options.specs.Ranges.{AreGiven};
    ghost use Rattle.given_options.specs.Winning.{winning_options};

    /// What the command line says, of which this is, and where it says nothing what a file says. Of an option that may be given several
    /// times it is what one of them says, and not both.
    pub fn over(self, file: GivenOptions) -> GivenOptions
        ensures value { result ≡ winning_options self file }
        ensures given { AreGiven self → AreGiven file → AreGiven result }
    {
        GivenOptions {
            library: library_over(self.library, file.library),
            volume_size: self.volume_size.or(file.volume_size),
            profile: profile_over(self.profile, file.profile),
            media: self.media.over(file.media),
            place: self.place.over(file.place),
            metrics: self.metrics.over(file.metrics),
            iscsi: self.iscsi.over(file.iscsi),
            records: self.records.over(file.records),
            record_file: self.record_file.over(file.record_file),
            times: self.times.over(file.times),
            log: self.log.or(file.log),
        }
    }

    /// Whether an option is given. One that is switched off isn't.
    pub(crate) fn has(&self, key: ServeKey) -> bool
        ensures { result ≡ is_given key self.now }
    {
        match key {
            ServeKey::Drives => self.library.drives.is_some(),
            ServeKey::Slots => self.library.slots.is_some(),
            ServeKey::Portals => self.library.import_exports.is_some(),
            ServeKey::Volumes => self.library.volumes.is_some(),
            ServeKey::VolumeSize => self.volume_size.is_some(),
            ServeKey::Profile => self.profile.profile.is_some(),
            ServeKey::LibraryId => self.profile.library_number.is_some(),
            ServeKey::Media => self.media.folder.is_some(),
            ServeKey::NewLibrary => is_on(self.media.new_library),
            ServeKey::WaitForFolder => self.media.wait.is_some(),
            ServeKey::Memory => self.media.memory.is_some(),
            ServeKey::VolumesLargerThanMemory => is_on(self.media.volumes_larger_than_memory),
            ServeKey::Socket => self.place.socket.is_some(),
            ServeKey::Control => self.place.control.is_some(),
            ServeKey::Metrics => self.metrics.address.is_some(),
            ServeKey::MetricsOpen => is_on(self.metrics.is_open),
            ServeKey::Sessions => self.place.sessions.is_some(),
            ServeKey::Workers => self.place.workers.is_some(),
            ServeKey::Iscsi => self.iscsi.portals.is_some(),
            ServeKey::TargetName => self.iscsi.target_name.is_some(),
            ServeKey::Hosts => self.iscsi.hosts.is_some(),
            ServeKey::AnyHost => is_on(self.iscsi.any_host),
            ServeKey::Multipath => is_on(self.iscsi.multipath),
            ServeKey::Chap => self.iscsi.chap.is_some(),
            ServeKey::ChapDigests => self.iscsi.chap_digests.is_some(),
            ServeKey::NoAuthentication => is_on(self.iscsi.no_authentication),
            ServeKey::Spans => is_on(self.records.spans),
            ServeKey::Drain => is_on(self.records.drain),
            ServeKey::KeepRecords => is_on(self.records.keep_records),
            ServeKey::Records => self.record_file.path.is_some(),
            ServeKey::Format => self.record_file.format.is_some(),
            ServeKey::Grace => self.times.grace.is_some(),
            ServeKey::LoginTimeout => self.times.login.is_some(),
            ServeKey::IdleTimeout => self.times.idle.is_some(),
            ServeKey::WriteTimeout => self.times.write.is_some(),
            ServeKey::IdlePing => self.times.ping.is_some(),
            ServeKey::Log => is_on(self.log),
        }
    }
}

/// Whether a switch is given, and on.
fn is_on(switch: Option<bool>) -> bool
    ensures { result ≡ is_on switch }
{
    match switch {
        Some(on) => on,
        None => false,
    }
}
