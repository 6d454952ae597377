ghost use Rattle.std.specs.Prelude.{◌≡◌, ◌≤◌, IfOk, IfSome, vec_len};
ghost use Rattle.program_options.specs.Options.{AreGivenInRange, IsWithin};
ghost use Rattle.given_options.specs.Ranges.{AreGiven};
ghost use Rattle.command_line.specs.Tasks.{IsAsked, IsClientOptions, IsDoable, MakesLibrary};

use crate::commands::program;
use crate::options::DEFAULT_CONTROL;
use crate::task::{Asked, ClientOptions, ServeAim, ServeLine, StatusOptions, Task};
use clap::ArgMatches;
use clap::parser::ValueSource;
use given_options::{
    GivenIscsi, GivenMedia, GivenMetrics, GivenOptions, GivenPlace, GivenRecordFile, GivenRecords,
    GivenTimes, MOST_SESSIONS, digests_by, format_by, hosts_by, library_number_by, memory_size_by,
    metrics_by, portals_by, profile_by, target_name_by, volume_size_by,
};
use inquiry_data::LibraryNumber;
use output_lines::{Audit, Explanations};
use permission_chart::class_named;
use program_options::{
    ChapDigests, CommandLineFault, GivenLibrary, GivenProfile, LibraryOptions, LibraryProfile,
    NamedHost, PortalOptions, nexus_of,
};
use scsi_cdb::{Class, Profile};
use scsi_nexus::TARGET_PORTS;
use std::alloc::{AllocError, Global};

/// The number of a library that a script runs through: its replies are the same each time (profile).
const SCRIPT_NUMBER: LibraryNumber = LibraryNumber { number: 0 };

/// What the words of a command line ask for, the first of them the program's own name.
pub fn asked_of(alloc: Global, words: &[String]) -> Result<Asked, CommandLineFault>
    ensures { IfOk result IsAsked }
{
    let matches = program(alloc)?.try_get_matches_from(words)?;
    match matches.subcommand_matches("serve") {
        Some(serve) => Ok(Asked::Serving(serve_line_of(alloc, serve)?)),
        None => Ok(Asked::Task(task_in(alloc, &matches)?)),
    }
}

/// The task of what `clap` has read, where no library is served.
fn task_in(alloc: Global, matches: &ArgMatches) -> Result<Task, CommandLineFault>
    ensures { IfOk result IsDoable }
{
    if let Some(client) = matches.subcommand_matches("client") {
        return Ok(Task::Client(client_options_of(alloc, client)?, explanations_of(client)));
    }
    if let Some(cells) = matches.subcommand_matches("cells") {
        return cells_task(alloc, cells);
    }
    if let Some(status) = matches.subcommand_matches("status") {
        return Ok(Task::Status(status_options_of(alloc, status)?));
    }
    if let Some(media) = matches.subcommand_matches("media") {
        return Ok(Task::CheckMedia(checked_folder_of(alloc, media)?));
    }
    if let Some(explain) = matches.subcommand_matches("explain") {
        return Ok(Task::Explain(text_of(alloc, explain.get_str("file"))?));
    }
    match matches.subcommand_matches("replay") {
        Some(replay) => replay_task(alloc, replay),
        // `clap` asks for a subcommand, and there is no other.
        None => Ok(Task::Replay(
            LibraryOptions::DEFAULT,
            LibraryProfile::Spec,
            Explanations::Off,
            Audit::Off,
        )),
    }
}

fn serve_line_of(alloc: Global, serve: &ArgMatches) -> Result<ServeLine, CommandLineFault>
    ensures { IfOk result (λ line. AreGiven line.given) }
{
    Ok(ServeLine {
        given: given_options_of(alloc, serve)?,
        configuration: text_of(alloc, serve.get_str("config"))?,
        aim: if serve.get_flag("check") {
            ServeAim::Check
        } else {
            ServeAim::Serve
        },
    })
}

fn replay_task(alloc: Global, replay: &ArgMatches) -> Result<Task, CommandLineFault>
    ensures { IfOk result IsDoable }
{
    let library = library_of(alloc, replay)?;
    let given = GivenProfile {
        profile: profile_in(alloc, replay)?,
        library_number: None,
    };
    Ok(Task::Replay(
        library,
        given.made_profile(SCRIPT_NUMBER),
        explanations_of(replay),
        audit_of(replay),
    ))
}

fn cells_task(alloc: Global, cells: &ArgMatches) -> Result<Task, CommandLineFault>
    ensures { IfOk result IsDoable }
{
    let profile = profile_in(alloc, cells)?.unwrap_or(Profile::Spec);
    Ok(Task::Cells(profile, class_of(alloc, cells, profile)?))
}

/// What a command says of the profile of a library, and of its number.
fn given_profile_of(alloc: Global, command: &ArgMatches) -> Result<GivenProfile, CommandLineFault> {
    Ok(GivenProfile {
        profile: profile_in(alloc, command)?,
        library_number: library_number_in(alloc, command)?,
    })
}

/// The profile that a command names, if it does.
fn profile_in(alloc: Global, command: &ArgMatches) -> Result<Option<Profile>, CommandLineFault> {
    match command.get_str("profile") {
        Some(word) => Ok(Some(profile_by(alloc, word)?)),
        None => Ok(None),
    }
}

/// The number of a library that a command names, if it does.
fn library_number_in(
    alloc: Global,
    command: &ArgMatches,
) -> Result<Option<LibraryNumber>, CommandLineFault> {
    match command.get_str("library-id") {
        Some(word) => Ok(Some(library_number_by(alloc, word)?)),
        None => Ok(None),
    }
}

/// What the library of a command is made of.
fn library_of(alloc: Global, command: &ArgMatches) -> Result<LibraryOptions, CommandLineFault>
    ensures { IfOk result MakesLibrary }
{
    let size = match volume_size_of(alloc, command)? {
        Some(size) => size,
        None => LibraryOptions::DEFAULT.volume_size,
    };
    let options = given_library_of(command).options(size);
    options.fits()?;
    Ok(options)
}

/// What a command says of how a library is served.
fn given_options_of(alloc: Global, command: &ArgMatches) -> Result<GivenOptions, CommandLineFault>
    ensures { IfOk result AreGiven }
{
    Ok(GivenOptions {
        library: given_library_of(command),
        volume_size: volume_size_of(alloc, command)?,
        profile: given_profile_of(alloc, command)?,
        media: given_media_of(alloc, command)?,
        place: given_place_of(alloc, command)?,
        metrics: given_metrics_of(alloc, command)?,
        iscsi: given_iscsi_of(alloc, command)?,
        records: GivenRecords {
            spans: switch_of(command, "spans"),
            drain: switch_of(command, "drain"),
            keep_records: switch_of(command, "keep-records"),
        },
        record_file: record_file_of(alloc, command)?,
        times: given_times_of(command),
        log: switch_of(command, "log"),
    })
}

/// How many bytes of blocks a volume takes, if a command says it.
fn volume_size_of(alloc: Global, command: &ArgMatches) -> Result<Option<u64>, CommandLineFault>
    ensures { IfOk result (IsWithin 1048576 68719476736) }
{
    if !is_said(command, "volume-size") {
        return Ok(None);
    }
    match command.get_str("volume-size") {
        Some(word) => Ok(Some(volume_size_by(alloc, word)?)),
        None => Ok(None),
    }
}

/// What a command says of a library.
fn given_library_of(command: &ArgMatches) -> GivenLibrary
    ensures { AreGivenInRange result }
{
    let least = LibraryOptions::MIN;
    let most = LibraryOptions::MAX;
    GivenLibrary {
        drives: said_number8(command, "drives", least.drives, most.drives),
        slots: said_number16(command, "slots", least.slots, most.slots),
        import_exports: said_number8(
            command,
            "portals",
            least.import_exports,
            most.import_exports,
        ),
        volumes: said_number16(command, "volumes", least.volumes, most.volumes),
    }
}

/// A number that was given. `clap` sees to it that it is in its range: the clamp says that to the prover alone.
fn said_number8(command: &ArgMatches, name: &str, least: u8, most: u8) -> Option<u8>
    requires { least ≤ most }
    ensures { IsWithin least most result }
{
    if !is_said(command, name) {
        return None;
    }
    let number = command.get_one::<u8>(name)?;
    Some(number.clamp(least, most))
}

/// The same of 16 bits.
fn said_number16(command: &ArgMatches, name: &str, least: u16, most: u16) -> Option<u16>
    requires { least ≤ most }
    ensures { IsWithin least most result }
{
    if !is_said(command, name) {
        return None;
    }
    let number = command.get_one::<u16>(name)?;
    Some(number.clamp(least, most))
}

/// The same of 32 bits, of which nothing needs the range.
fn said_number32(command: &ArgMatches, name: &str) -> Option<u32> {
    if is_said(command, name) {
        command.get_one::<u32>(name)
    } else {
        None
    }
}

/// Whether an option was given. Where it wasn't, `clap` may have a value in its place.
fn is_said(command: &ArgMatches, name: &str) -> bool {
    matches!(command.value_source(name), Some(ValueSource::CommandLine))
}

/// A switch, if it is given.
fn switch_of(command: &ArgMatches, name: &str) -> Option<bool> {
    if command.get_flag(name) {
        Some(true)
    } else {
        None
    }
}

fn given_media_of(alloc: Global, command: &ArgMatches) -> Result<GivenMedia, CommandLineFault> {
    let memory = match command.get_str("memory") {
        Some(word) => Some(memory_size_by(alloc, word)?),
        None => None,
    };
    Ok(GivenMedia {
        folder: text_of(alloc, command.get_str("media"))?,
        new_library: switch_of(command, "new-library"),
        wait: said_number32(command, "wait-for-folder"),
        memory,
        volumes_larger_than_memory: switch_of(command, "volumes-larger-than-memory"),
    })
}

fn given_place_of(alloc: Global, command: &ArgMatches) -> Result<GivenPlace, CommandLineFault>
    ensures { IfOk result (λ place. IsWithin 1 64 place.sessions × IsWithin 1 64 place.workers) }
{
    Ok(GivenPlace {
        socket: text_of(alloc, command.get_str("socket"))?,
        control: text_of(alloc, command.get_str("control"))?,
        sessions: said_number8(command, "sessions", 1, MOST_SESSIONS),
        workers: said_number8(command, "workers", 1, MOST_SESSIONS),
    })
}

/// Where a command has metrics asked for, and by whom.
fn given_metrics_of(alloc: Global, command: &ArgMatches) -> Result<GivenMetrics, CommandLineFault> {
    let address = match command.get_str("metrics") {
        Some(word) => Some(metrics_by(alloc, word)?),
        None => None,
    };
    Ok(GivenMetrics {
        address,
        is_open: switch_of(command, "metrics-open"),
    })
}

fn given_iscsi_of(alloc: Global, command: &ArgMatches) -> Result<GivenIscsi, CommandLineFault>
    ensures { IfOk result (λ iscsi. IfSome iscsi.portals (λ p. (1 ≤ vec_len p) × (vec_len p ≤ 4))) }
{
    Ok(GivenIscsi {
        portals: portals_of(alloc, command)?,
        target_name: target_name_of(alloc, command)?,
        hosts: hosts_of(alloc, command)?,
        any_host: switch_of(command, "any-host"),
        multipath: switch_of(command, "multipath"),
        chap: text_of(alloc, command.get_str("chap"))?,
        chap_digests: digests_of(alloc, command)?,
        no_authentication: switch_of(command, "no-authentication"),
    })
}

/// Into which file a command has records written, and in which form.
fn record_file_of(
    alloc: Global,
    command: &ArgMatches,
) -> Result<GivenRecordFile, CommandLineFault> {
    let format = match command.get_str("format") {
        Some(word) => Some(format_by(alloc, word)?),
        None => None,
    };
    Ok(GivenRecordFile {
        path: text_of(alloc, command.get_str("records"))?,
        format,
    })
}

/// How long a command has a library wait for its hosts.
fn given_times_of(command: &ArgMatches) -> GivenTimes {
    GivenTimes {
        grace: said_number32(command, "grace"),
        login: said_number32(command, "login-timeout"),
        idle: said_number32(command, "idle-timeout"),
        write: said_number32(command, "write-timeout"),
        ping: said_number32(command, "idle-ping"),
    }
}

/// Where iSCSI initiators connect.
fn portals_of(
    alloc: Global,
    command: &ArgMatches,
) -> Result<Option<Vec<PortalOptions>>, CommandLineFault>
    ensures { IfOk result (λ portals. IfSome portals (λ p. (1 ≤ vec_len p) × (vec_len p ≤ 4))) }
{
    match command.get_strs("iscsi") {
        Some(words) => Ok(Some(portals_by(alloc, words)?)),
        None => Ok(None),
    }
}

/// The hosts that a command lets in by name.
fn hosts_of(
    alloc: Global,
    command: &ArgMatches,
) -> Result<Option<Vec<NamedHost>>, CommandLineFault> {
    match command.get_strs("host") {
        Some(words) => Ok(Some(hosts_by(alloc, words)?)),
        None => Ok(None),
    }
}

/// By which digests initiators may prove that a name is theirs.
fn digests_of(
    alloc: Global,
    command: &ArgMatches,
) -> Result<Option<ChapDigests>, CommandLineFault> {
    match command.get_str("chap-digests") {
        Some(word) => Ok(Some(digests_by(alloc, word)?)),
        None => Ok(None),
    }
}

/// The target's iSCSI name.
fn target_name_of(alloc: Global, command: &ArgMatches) -> Result<Option<String>, CommandLineFault> {
    match command.get_str("target-name") {
        Some(word) => Ok(Some(target_name_by(alloc, word)?)),
        None => Ok(None),
    }
}

/// The folder that is to be checked.
fn checked_folder_of(alloc: Global, media: &ArgMatches) -> Result<String, AllocError> {
    // `clap` asks for the subcommand, of which there is no other, and for the folder.
    let folder = match media.subcommand_matches("check") {
        Some(check) => check.get_str("dir").unwrap_or(""),
        None => "",
    };
    String::from_str(alloc, folder)
}

/// Where a command asks for the status of a library, and how it is printed.
fn status_options_of(alloc: Global, command: &ArgMatches) -> Result<StatusOptions, AllocError> {
    let path = command.get_str("control").unwrap_or(DEFAULT_CONTROL);
    Ok(StatusOptions {
        control: String::from_str(alloc, path)?,
        watch: command.get_flag("watch"),
        json: command.get_flag("json"),
    })
}

/// Whether a command wants replies in words, too.
fn explanations_of(command: &ArgMatches) -> Explanations {
    if command.get_flag("explain") {
        Explanations::On
    } else {
        Explanations::Off
    }
}

/// What a command wants of the records.
fn audit_of(command: &ArgMatches) -> Audit {
    if command.get_flag("spans") {
        Audit::Spans
    } else if command.get_flag("audit") {
        Audit::Lines
    } else {
        Audit::Off
    }
}

/// The value of an option that need not be given.
fn text_of(alloc: Global, value: Option<&str>) -> Result<Option<String>, AllocError> {
    match value {
        Some(text) => Ok(Some(String::from_str(alloc, text)?)),
        None => Ok(None),
    }
}

/// Where a client's command connects to its library, and as which host.
fn client_options_of(alloc: Global, command: &ArgMatches) -> Result<ClientOptions, CommandLineFault>
    ensures { IfOk result IsClientOptions }
{
    // As above: `clap` sees to it that none of the three is absent or out of its range.
    let port = command
        .get_one::<u16>("port")
        .unwrap_or(1)
        .clamp(1, TARGET_PORTS);
    let nexus = nexus_of(command.get_str("sas").unwrap_or(""), port)?;
    let socket = String::from_str(alloc, command.get_str("socket").unwrap_or(""))?;
    let profile = profile_in(alloc, command)?.unwrap_or(Profile::Spec);
    Ok(ClientOptions {
        socket,
        nexus,
        profile,
    })
}

/// The class of a profile's commands that is asked for by its name, if one is.
fn class_of(
    alloc: Global,
    command: &ArgMatches,
    profile: Profile,
) -> Result<Option<Class>, CommandLineFault> {
    let Some(name) = command.get_str("class") else {
        return Ok(None);
    };
    match class_named(profile, name) {
        Some(class) => Ok(Some(class)),
        None => Err(CommandLineFault::NoClass(String::from_str(alloc, name)?)),
    }
}
