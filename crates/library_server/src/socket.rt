//! The library at a Unix socket and portals of iSCSI.

ghost use Rattle.std.specs.Prelude.{◌≡◌, ◌+◌, ◌<◌, ◌≤◌, vec_len};
ghost use Rattle.tape_medium.specs.Limits.{capacity_limit};
ghost use Rattle.command_line.specs.Tasks.{IsServeOptions, MakesServed};
ghost use Rattle.program_options.specs.ServeUntil.{workers_of};
ghost use Rattle.library_server.specs.Places.{count_of};
ghost use Rattle.library_server.specs.Serving.{telling_of, term_of};

use crate::control::ControlSocket;
use crate::iscsi_target::{PortalTarget, target_of};
use crate::locked_media::locked_media;
use crate::metrics::{MetricsSocket, open_metrics};
use crate::notice::{Notice, tell};
use crate::places::{Places, open_places};
use crate::recording::{RecordSink, sink_of};
use crate::saved_library::{FolderKeeper, SavedLibrary, saved_library};
use crate::server_fault::ServerFault;
use crate::serving::{ServiceMeans, serve_library};
use crate::socket_fault::SocketFault;
use crate::socket_file::{SocketFile, make_control_file};
use command_line::ServeOptions;
use library_start::{Device, library_within};
use output_lines::{Audit, RecordOutput};
use program_options::{LibraryOptions, LibraryProfile, MAX_READS, ServeTimes, ServeUntil};
use scsi_cdb::Profile;
use server::{
    LiveSessions, LoginTerms, PollSource, ServeLimits, ServeTerm, Teller, Telling, WaitTimes,
};
use std::alloc::{AllocError, Global};
use std::fs::Files;
use std::io::{self, Read, Write};
use std::net::{Net, SocketAddr, TcpListener, TcpStream};
use std::random::RandomSource;
use std::sync::Wait;
use std::thread::{self, Threads};
use std::time::Clock;
use tape_medium::MemoryLimit;
use target_core::TargetCore;

/// Serves a library at a socket whose file it makes, at portals of iSCSI, or at both, writes the lines that are wanted of the
/// records to standard output, and tells on `errors` what happens. The file is removed at the end, if it is still its own. If a process
/// listens at one of the places already, or another file is there, nothing is served and that stays; a socket's file at which no process
/// listens is taken away. A library that is kept is read from its folder by `files`, and written there, which threads share: a bound can't be.
/// Its profile is that of its folder.
#[tactic(auto, using(crate::proofs::PlaceLemmas::some_places, crate::proofs::PlaceLemmas::few_places))]
pub fn serve<
    R: AllocGlobal
        + Clock
        + Files
        + Input
        + Net<Listener = TcpListener, Stream = TcpStream>
        + Print
        + RandomSource
        + Sync
        + Threads
        + Wait,
    E: Write + Send,
>(
    rt: &R,
    files: &HostRuntime,
    options: LibraryOptions,
    profile: LibraryProfile,
    serving: ServeOptions,
    audit: Audit,
    errors: &mut E,
) -> Result<(), SocketFault>
    requires library { MakesServed options serving.media }
    requires some { IsServeOptions serving }
{
    let ServeOptions {
        socket,
        control,
        metrics,
        iscsi,
        media,
        memory,
        until,
        drain,
        record_file,
        times,
        log,
    } = serving;
    let mut made = target_of(rt, iscsi)?;
    let media = locked_media(rt, files, media, errors)?;
    let sink = sink_of(rt.alloc(), files, record_file, &made.target.access.hosts)?;
    let service = ServiceOptions {
        until,
        times,
        terms: terms_of(&made, until),
        records: if sink.is_some() {
            RecordOutput::AtTheEnd(Audit::Off)
        } else {
            RecordOutput::new(drain, audit)
        },
        files,
        sink: sink.as_ref(),
        telling: telling_of(log),
    };
    match &media {
        Some(media) => {
            let size = options.volume_size;
            let kept = saved_library(rt.alloc(), files, media, size, memory, errors)?;
            let SavedLibrary { core, keeper } = kept;
            made.target.profile = core.profile();
            let places = ServedAt {
                socket,
                control,
                metrics,
                made: &made,
            };
            serve_at(rt, core, Some(&keeper), places, service, errors)
        }
        None => {
            let limit = memory_limit(rt.alloc(), memory)?;
            let core = library_within(rt.alloc(), &options, profile, &limit)?;
            made.target.profile = core.profile();
            let places = ServedAt {
                socket,
                control,
                metrics,
                made: &made,
            };
            serve_at(rt, core, None, places, service, errors)
        }
    }
}

/// The limit on the memory of all volumes, where there is one.
pub(crate) fn memory_limit(alloc: Global, memory: Option<u64>) -> Result<MemoryLimit, AllocError> {
    match memory {
        Some(most) => MemoryLimit::new(alloc, most),
        None => Ok(MemoryLimit::none()),
    }
}

/// Tells that so many volumes of a size may hold more bytes of blocks together than they may take of memory, where that is so.
pub(crate) fn tell_larger<E: Write>(
    count: usize,
    volume_size: u64,
    memory: Option<u64>,
    errors: &mut E,
) {
    let size = volume_size.saturating_mul(count as u64);
    match memory {
        Some(memory) if memory < size => tell(errors, &Notice::LargerThanMemory { size, memory }),
        Some(_) | None => {}
    }
}

/// How a library is served wherever that is.
#[derive(Clone, Copy)]
struct ServiceOptions<'a, 'f> {
    until: ServeUntil,
    times: ServeTimes,
    /// On which initiators of iSCSI are let in, where they may come.
    terms: Option<LoginTerms>,
    records: RecordOutput,
    /// By which the system is asked how much memory the server has.
    files: &'f HostRuntime,
    /// The file into which records are written, if they are.
    sink: Option<&'a RecordSink<'f>>,
    telling: Telling,
}

/// Where a library is served, and where its status is asked for.
#[derive(Drop)]
struct ServedAt<'a> {
    /// The path of the socket's file, if there is to be one.
    socket: Option<String>,
    /// The same of the control socket.
    control: Option<String>,
    /// Where its metrics are asked for, if somewhere.
    metrics: Option<SocketAddr>,
    made: &'a PortalTarget,
}

/// On which terms initiators are let in at the portals of a target, if it has some.
fn terms_of(made: &PortalTarget, until: ServeUntil) -> Option<LoginTerms> {
    if made.portals.is_empty() {
        return None;
    }
    Some(LoginTerms {
        most_sessions: until.workers(),
        paths: made.paths,
        most_strangers: made.most_strangers,
    })
}

/// Serves a library at a socket, at portals or at both, and tells before where they are.
fn serve_at<
    'f,
    R: AllocGlobal
        + Clock
        + Files
        + Input
        + Net<Listener = TcpListener, Stream = TcpStream>
        + Print
        + RandomSource
        + Sync
        + Threads
        + Wait,
    E: Write + Send,
>(
    rt: &R,
    core: TargetCore<Device>,
    keeper: Option<&FolderKeeper<'f>>,
    at: ServedAt<'_>,
    service: ServiceOptions<'_, 'f>,
    errors: &mut E,
) -> Result<(), SocketFault>
    requires some { 1 ≤ workers_of service.until }
    requires some_places { 0 < vec_len at.made.now.portals + count_of at.socket }
    requires few_places { vec_len at.made.now.portals + count_of at.socket ≤ 5 }
{
    let ServedAt {
        socket,
        control,
        metrics,
        made,
    } = at;
    let metrics = open_metrics(rt, metrics)?;
    let control = open_control(rt, control, errors)?;
    let opened = open_places(rt, &made.portals, &made.target, socket, errors);
    let places = match opened {
        Ok(places) => places,
        Err(fault) => {
            leave_control(rt, &control);
            return Err(fault);
        }
    };
    let units = core.all().len();
    let served = match tell_places(rt.alloc(), &places, units, service.until, errors) {
        Ok(()) => {
            let teller = Teller::new(service.telling, errors);
            let asked = match &control {
                Some((_, socket)) => Some(socket),
                None => None,
            };
            let kept = KeptAt {
                keeper,
                control: asked,
                metrics: metrics.as_ref(),
                places: &places,
            };
            serve_until(rt, core, kept, service, &teller).map_err(SocketFault::from)
        }
        Err(error) => Err(SocketFault::from(error)),
    };
    // What the sessions came to is told in any case.
    places.leave(rt);
    leave_control(rt, &control);
    served
}

/// Where the library's status is asked for, if somewhere.
fn open_control<R: AllocGlobal + Files + Net, E: Write>(
    rt: &R,
    path: Option<String>,
    errors: &mut E,
) -> Result<Option<(SocketFile, ControlSocket)>, SocketFault> {
    match path {
        Some(path) => Ok(Some(make_control_file(rt, path, errors)?)),
        None => Ok(None),
    }
}

/// Removes the file of the control socket, if there is one and it is still its own.
fn leave_control<R: Files>(rt: &R, control: &Option<(SocketFile, ControlSocket)>) {
    if let Some((file, _)) = control {
        file.leave(rt);
    }
}

/// What keeps a library's tapes, where its status is asked for, and where it is served.
#[derive(Clone, Copy)]
struct KeptAt<'a, 'f, 'd> {
    keeper: Option<&'a FolderKeeper<'f>>,
    control: Option<&'a ControlSocket>,
    metrics: Option<&'a MetricsSocket>,
    places: &'a Places<'d>,
}

/// What is told of sessions.
fn telling_of(log: bool) -> Telling
    ensures { result ≡ telling_of log }
{
    if log {
        Telling::Everything
    } else {
        Telling::Faults
    }
}

/// Tells where so many units are served.
fn tell_places<E: Write>(
    alloc: Global,
    places: &Places<'_>,
    units: usize,
    until: ServeUntil,
    errors: &mut E,
) -> Result<(), AllocError> {
    let text = places.text(alloc)?;
    let serving = Notice::Serving {
        places: text.as_str(),
        count: places.doors.len(),
        units,
        workers: until.workers(),
    };
    tell(errors, &serving);
    Ok(())
}

/// Serves a target for a term, in a second thread: this one waits for the end of standard input, where that ends the term.
fn serve_until<
    'f,
    R: AllocGlobal
        + Clock
        + Files
        + Input
        + PollSource
        + Print
        + RandomSource
        + Sync
        + Threads
        + Wait,
    E: Write + Send,
>(
    rt: &R,
    core: TargetCore<Device>,
    kept: KeptAt<'_, 'f, '_>,
    service: ServiceOptions<'_, 'f>,
    teller: &Teller<E>,
) -> Result<(), ServerFault>
    requires some { 1 ≤ workers_of service.until }
    requires doors { (0 < vec_len kept.places.now.doors) × (vec_len kept.places.now.doors ≤ 5) }
{
    let KeptAt {
        keeper,
        control,
        metrics,
        places,
    } = kept;
    let ServiceOptions {
        until,
        times,
        terms,
        records,
        files,
        sink,
        telling: _,
    } = service;
    let sessions = LiveSessions::new(rt.alloc(), terms);
    let (served, ()) = thread::join(
        rt,
        || -> Result<(), ServerFault>
            requires some { 1 ≤ workers_of until }
            requires doors { (0 < vec_len places.now.doors) × (vec_len places.now.doors ≤ 5) }
        {
            let mut writer = io::writer(rt);
            let limits = limits_of(until, times, core.profile(), &sessions);
            let means = ServiceMeans {
                rt,
                alloc: rt.alloc(),
                records,
                files,
                keeper,
                sink,
                control,
                metrics,
                teller,
            };
            serve_library(&means, core, &places.doors, limits, &mut writer)
        },
        || match until {
            ServeUntil::Sessions(_) => {}
            ServeUntil::InputEnds(_) => {
                await_end_of_input(rt);
                sessions.close(rt, times.grace);
                places.shut_down();
                sessions.end_after(rt, times.grace);
            }
        },
    );
    served
}

/// How many sessions are served with a library of a profile, for which term, and how long hosts are waited for.
fn limits_of(
    until: ServeUntil,
    times: ServeTimes,
    profile: Profile,
    sessions: &LiveSessions,
) -> ServeLimits<'_>
    ensures workers { result.workers ≡ workers_of until }
    ensures term { result.term ≡ term_of until }
{
    ServeLimits {
        workers: until.workers(),
        spare: sessions.spare_workers(),
        term: term_of(until),
        times: WaitTimes {
            login: times.login,
            idle: times.idle,
            write: times.write,
            ping: times.ping,
        },
        profile,
        sessions,
    }
}

/// How many sessions a term has.
fn term_of(until: ServeUntil) -> ServeTerm
    ensures { result ≡ term_of until }
{
    match until {
        ServeUntil::Sessions(count) => ServeTerm::Sessions(u64::from(count)),
        ServeUntil::InputEnds(_) => ServeTerm::UntilClosed,
    }
}

/// Waits until standard input ends or can't be read.
fn await_end_of_input<R: Input>(rt: &R) {
    let mut reader = rt.reader();
    let mut buffer = [0u8; 512];
    for _turn in 0..MAX_READS {
        match reader.read(&mut buffer) {
            Ok(0) | Err(_) => return,
            Ok(_) => {}
        }
    }
}
