//! The task of serving a library, by all that is given.

ghost use Rattle.std.specs.Prelude.{◌≡◌, ◌≤◌, true, All, IfOk, IfSome, None, OnOk, vec_len};
ghost use Rattle.program_options.specs.Options.{AreGivenInRange, AreInRange};
ghost use Rattle.program_options.specs.Portals.{IsGuarded};
ghost use Rattle.program_options.specs.Profiles.{is_fitting};
ghost use Rattle.given_options.specs.Ranges.{AreGiven};
ghost use Rattle.given_options.specs.Switches.{is_on};
ghost use Rattle.given_options.specs.Rules.{GoTogether};
ghost use Rattle.command_line.specs.Serving.{HasRoom, IsServedBy, IsTaskOf, TimesOf, audit_of, is_drained, media_of, name_of_target, record_file_of, served_profile, until_of};
ghost use Rattle.command_line.specs.Tasks.{IsDoable, IsIscsiOptions, IsMediaOptions, IsServeOptions};

use crate::task::{IscsiOptions, MediaOptions, RecordFileOptions, ServeAim, ServeOptions, Task};
use given_options::{
    GivenIscsi, GivenMedia, GivenMetrics, GivenOptions, GivenPlace, GivenRecordFile, GivenRecords,
    GivenTimes, open_portal,
};
use output_lines::Audit;
use program_options::{
    ChapDigests, CommandLineFault, GivenLibrary, GivenProfile, LibraryOptions, LibraryProfile,
    OptionFault, PortalOptions, RecordFormat, ServeTimes, ServeUntil, WithoutLibrary,
    most_strangers, number_of_target,
};
use std::alloc::{AllocError, Global};
use std::net::SocketAddr;

/// How many workers serve sessions until standard input ends, where nothing else is asked for.
const DEFAULT_WORKERS: u8 = 64;

/// The target's iSCSI name, where nothing else is asked for (profile).
const DEFAULT_TARGET_NAME: &str = "iqn.2026-11.localhost:vtl";

/// The task that given options name, where they keep all rules on options.
pub fn serve_task(
    alloc: Global,
    aim: ServeAim,
    given: GivenOptions,
) -> Result<Task, CommandLineFault>
    requires given { AreGiven given }
    requires together { GoTogether given }
    ensures doable { IfOk result IsDoable }
    ensures served { IfOk result (IsTaskOf aim given) }
{
    let audit = audit_of(given.records);
    let size = given
        .volume_size
        .unwrap_or(LibraryOptions::DEFAULT.volume_size);
    let library = given.library.options(size);
    look_at_volumes(&library, &given.media.folder)?;
    look_at_memory(alloc, &library, &given.media)?;
    look_at_number(given.profile, &given.media.folder)?;
    let profile = profile_of(given.profile, &given.iscsi.target_name);
    let serving = serve_options_of(alloc, given)?;
    Ok(match aim {
        ServeAim::Serve => Task::Serve(library, profile, serving, audit),
        ServeAim::Check => Task::CheckServe(library, profile, serving, audit),
    })
}

/// Looks whether each volume has a storage element. Of a library that is kept they are counted where its folder is opened.
fn look_at_volumes(library: &LibraryOptions, folder: &Option<String>) -> Result<(), OptionFault>
    ensures { OnOk result (folder.now ≡ None → library.now.volumes ≤ library.now.slots) }
{
    match folder {
        Some(_) => Ok(()),
        None => library.fits(),
    }
}

/// Looks whether all that the volumes may hold has room in memory, unless it needn't have. Of a library that is kept that is reported where
/// its folder is opened.
fn look_at_memory(
    alloc: Global,
    library: &LibraryOptions,
    media: &GivenMedia,
) -> Result<(), CommandLineFault>
    requires { AreInRange library.now }
    ensures { OnOk result (HasRoom media.now library.now) }
{
    let Some(memory) = media.memory else {
        return Ok(());
    };
    let size = library.size_of_all_volumes();
    if media.folder.is_some()
        || media.volumes_larger_than_memory.unwrap_or(false)
        || size <= memory
    {
        return Ok(());
    }
    let sizes = format!(in alloc; "{size} bytes of blocks, {memory} bytes of memory")?;
    Err(CommandLineFault::Word(OptionFault::VolumesLargerThanMemory, sizes))
}

/// Looks whether a number is given for the hosts' profile alone. Of a library that is kept that is decided where its folder is opened.
fn look_at_number(given: GivenProfile, folder: &Option<String>) -> Result<(), OptionFault>
    ensures { OnOk result (folder.now ≡ None → is_fitting given ≡ true) }
{
    if folder.is_some() || given.is_fitting() {
        Ok(())
    } else {
        Err(OptionFault::NumberWithoutHosts)
    }
}

/// The profile of a library that isn't kept, whose number comes from the target's name unless one is given.
fn profile_of(given: GivenProfile, target_name: &Option<String>) -> LibraryProfile
    ensures { result ≡ served_profile given target_name.now }
{
    given.made_profile(number_of_target(name_of_target(target_name)))
}

/// The name of the target, which is the usual one where none is given.
fn name_of_target(name: &Option<String>) -> &str
    ensures { result.now ≡ name_of_target name.now }
{
    match name {
        Some(name) => name.as_str(),
        None => DEFAULT_TARGET_NAME,
    }
}

/// Where a library is served and kept, for how long, and what is printed meanwhile.
fn serve_options_of(alloc: Global, given: GivenOptions) -> Result<ServeOptions, CommandLineFault>
    requires { AreGiven given }
    ensures some { IfOk result IsServeOptions }
    ensures served { IfOk result (IsServedBy given) }
{
    let GivenOptions {
        library,
        volume_size: _,
        profile,
        media,
        place,
        metrics,
        iscsi,
        records,
        record_file,
        times,
        log,
    } = given;
    let drain = is_drained(records, &place, iscsi.portals.is_some());
    let record_file = record_file_of(record_file);
    let metrics = metrics_of(alloc, metrics, drain || record_file.is_some())?;
    let until = until_of(&place);
    let (socket, control) = (place.socket, place.control);
    let iscsi = iscsi_options_of(alloc, iscsi)?;
    if socket.is_none() && iscsi.is_none() {
        return Err(CommandLineFault::Options(OptionFault::NoPlace));
    }
    Ok(ServeOptions {
        socket,
        control,
        metrics,
        iscsi,
        memory: media.memory,
        media: media_options_of(media, library, profile),
        until,
        drain,
        record_file,
        times: times_of(times),
        log: log.unwrap_or(false),
    })
}

/// Where metrics are asked for, if somewhere. Where other machines can read them that must be said, and records must be taken while the
/// library is served, as they are counted then.
fn metrics_of(
    alloc: Global,
    given: GivenMetrics,
    is_counted: bool,
) -> Result<Option<SocketAddr>, CommandLineFault>
    ensures same { IfOk result (λ metrics. metrics ≡ given.address) }
    ensures guarded { IfOk result (λ metrics. IfSome metrics (IsGuarded (is_on given.is_open))) }
    ensures counted { IfOk result (λ metrics. IfSome metrics (λ _. is_counted ≡ true)) }
{
    let Some(address) = given.address else {
        return Ok(None);
    };
    if !given.is_open.unwrap_or(false) && !address.ip().is_loopback() {
        let word = address.to_string(alloc)?;
        return Err(CommandLineFault::Word(OptionFault::OpenMetrics, word));
    }
    if is_counted {
        Ok(Some(address))
    } else {
        Err(CommandLineFault::Options(OptionFault::UncountedRecords))
    }
}

/// Where a library is kept, if it is to be, and what it has to agree with.
fn media_options_of(
    media: GivenMedia,
    given: GivenLibrary,
    profile: GivenProfile,
) -> Option<MediaOptions>
    requires { AreGivenInRange given }
    ensures media { IfSome result IsMediaOptions }
    ensures value { result ≡ media_of media given profile }
{
    let GivenMedia {
        folder,
        new_library,
        wait,
        memory: _,
        volumes_larger_than_memory: _,
    } = media;
    let without = if new_library.unwrap_or(false) {
        WithoutLibrary::Make
    } else {
        WithoutLibrary::Refuse
    };
    match folder {
        Some(folder) => Some(MediaOptions {
            folder,
            without,
            wait: wait.unwrap_or(0),
            given,
            profile,
        }),
        None => None,
    }
}

/// Into which file records are written, if they are, and in which form: in JSON where nothing else is asked for.
fn record_file_of(given: GivenRecordFile) -> Option<RecordFileOptions>
    ensures { result ≡ record_file_of given.path given.format }
{
    let format = given.format.unwrap_or(RecordFormat::Json);
    match given.path {
        Some(path) => Some(RecordFileOptions { path, format }),
        None => None,
    }
}

/// How long a library is served, and by how many workers.
fn until_of(place: &GivenPlace) -> ServeUntil
    ensures { result ≡ until_of place.now }
{
    match place.sessions {
        Some(sessions) => ServeUntil::Sessions(sessions),
        None => ServeUntil::InputEnds(place.workers.unwrap_or(DEFAULT_WORKERS)),
    }
}

/// What is printed of the records of a library that was served.
fn audit_of(records: GivenRecords) -> Audit
    ensures { result ≡ audit_of records }
{
    if records.spans.unwrap_or(false) {
        Audit::Spans
    } else {
        Audit::Lines
    }
}

/// How long a library waits for its hosts.
fn times_of(times: GivenTimes) -> ServeTimes
    ensures { TimesOf times result }
{
    ServeTimes::of_seconds(
        times.grace.unwrap_or(ServeTimes::DEFAULT_GRACE),
        times.login.unwrap_or(ServeTimes::DEFAULT_LOGIN),
        times.idle.unwrap_or(ServeTimes::DEFAULT_IDLE),
        times.write.unwrap_or(ServeTimes::DEFAULT_WRITE),
        times.ping.unwrap_or(ServeTimes::DEFAULT_PING),
    )
}

/// Whether records are handed out while a library is served. A server with portals serves for a long time, and would keep all of them.
fn is_drained(records: GivenRecords, place: &GivenPlace, has_portals: bool) -> bool
    ensures { result ≡ is_drained records place.now has_portals }
{
    let is_kept = records.keep_records.unwrap_or(false)
        || records.spans.unwrap_or(false)
        || place.sessions.is_some();
    records.drain.unwrap_or(false) || has_portals && !is_kept
}

/// What iSCSI initiators connect to, if any may.
fn iscsi_options_of(
    alloc: Global,
    given: GivenIscsi,
) -> Result<Option<IscsiOptions>, CommandLineFault>
    requires { IfSome given.portals (λ p. (1 ≤ vec_len p) × (vec_len p ≤ 4)) }
    ensures { IfOk result (λ iscsi. IfSome iscsi IsIscsiOptions) }
{
    let GivenIscsi {
        portals,
        target_name,
        hosts,
        any_host,
        multipath,
        chap,
        chap_digests,
        no_authentication,
    } = given;
    let Some(portals) = portals else {
        return Ok(None);
    };
    let is_said = chap.is_some() || no_authentication.unwrap_or(false);
    guard(alloc, &portals, is_said)?;
    let hosts = hosts.unwrap_or(Vec::new(alloc));
    let any_host = any_host.unwrap_or(false);
    if hosts.is_empty() && !any_host {
        return Err(CommandLineFault::Options(OptionFault::NobodyLetIn));
    }
    let most_strangers = most_strangers(any_host, hosts.len(), portals.len())?;
    Ok(Some(IscsiOptions {
        portals,
        target_name: name_or_default(alloc, target_name)?,
        hosts,
        any_host,
        most_strangers,
        multipath: multipath.unwrap_or(false),
        chap,
        chap_digests: chap_digests.unwrap_or(ChapDigests::Sha256AndMd5),
    }))
}

/// Looks whether it is said what initiators must prove at portals that other machines can reach.
fn guard(alloc: Global, portals: &[PortalOptions], is_said: bool) -> Result<(), CommandLineFault>
    ensures { OnOk result (All (λ portal. IsGuarded is_said portal.address) portals.now) }
{
    let Some(portal) = open_portal(portals, is_said) else {
        return Ok(());
    };
    let mut word = portal.address.to_string(alloc)?;
    if let Some(told) = &portal.told {
        word.push_str("=")?;
        word.push_str(told.as_str())?;
    }
    Err(CommandLineFault::Word(OptionFault::OpenAddress, word))
}

/// The same name, owned.
fn name_or_default(alloc: Global, name: Option<String>) -> Result<String, AllocError> {
    match name {
        Some(name) => Ok(name),
        None => String::from_str(alloc, DEFAULT_TARGET_NAME),
    }
}
