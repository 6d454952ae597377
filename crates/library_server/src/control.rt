//! The control socket, at which each client that connects is told the status of a library. No client is heard there, and nothing of the
//! library changes.

ghost use Rattle.std.specs.Prelude.{◌≤◌, IfOk, string_bytes};
ghost use Rattle.library_server.specs.Status.{IsStatus};

use crate::server_state::summary_of_server;
use crate::serving::ServiceMeans;
use crate::session_summaries::sessions_of;
use kept_unit::Ledgers;
use library_start::Device;
use library_status::status_text;
use lun_router::{Library, Pass};
use server::{Event, LiveSessions};
use status_reader::read_library;
use std::alloc::AllocError;
use std::io::{self, ErrorKind, Write};
use std::net::Shutdown;
use std::os::fd::OwnedFd;
use std::os::unix::net::{UnixListener, UnixStream};
use std::sync::Wait;
use std::sync::atomic::{AtomicBool, Ordering};
use std::thread;
use std::time::{Clock, Duration, Instant};

/// How many milliseconds a client has to take the status, and again as many if it takes some of it at last.
const SEND_TIME: u64 = 1_000;

/// How many milliseconds pass where a connection couldn't be accepted.
const PAUSE: u64 = 500;

/// Where the status of a library is asked for, until it is shut down.
#[derive(Drop)]
pub struct ControlSocket {
    listener: UnixListener,
    /// A second descriptor of the listener, as a stream, which can be shut down.
    second: UnixStream,
    is_over: AtomicBool,
}

impl ControlSocket {
    pub(crate) fn new(listener: UnixListener) -> io::Result<ControlSocket> {
        let second = UnixStream::from(OwnedFd::from(listener.try_clone()?));
        Ok(ControlSocket {
            listener,
            second,
            is_over: AtomicBool::new(false),
        })
    }

    /// From now on no client is answered, and a wait for a connection ends.
    pub(crate) fn shut_down(&self) {
        self.is_over.store(true, Ordering::SeqCst);
        // A listener can always be shut down.
        let _ = self.second.shutdown(Shutdown::Both);
    }

    /// Answers one connection after another, until the socket is shut down.
    pub(crate) fn answer_all<B: Ledgers, R: Clock + Wait, E: Write>(
        &self,
        means: &ServiceMeans<'_, '_, R, E>,
        library: &Library<B, Device, Pass>,
        sessions: &LiveSessions,
    ) {
        let (rt, teller) = (means.rt, means.teller);
        'turns: for _turn in rt.forever() {
            let accepted = self.listener.accept();
            if self.is_over.load(Ordering::SeqCst) {
                return;
            }
            match accepted {
                Ok((stream, _)) => answer(means, library, sessions, &stream),
                Err(_) => {
                    teller.tell(rt, &Event::NotAccepted);
                    thread::sleep(rt, Duration::from_millis(PAUSE));
                }
            }
        }
    }
}

/// Sends the status of a library, and reports it if that fails.
fn answer<B: Ledgers, R: Clock + Wait, E: Write>(
    means: &ServiceMeans<'_, '_, R, E>,
    library: &Library<B, Device, Pass>,
    sessions: &LiveSessions,
    stream: &UnixStream,
) {
    let (rt, teller) = (means.rt, means.teller);
    let is_sent = match status_of(means, library, sessions) {
        Ok(text) => send(rt, stream, text.as_bytes()).is_ok(),
        Err(_) => false,
    };
    if !is_sent {
        teller.tell(rt, &Event::StatusUnsent);
    }
}

/// The status of a library, of the sessions that go on and of the server: a line of JSON and a picture. May wait for calls at units.
fn status_of<B: Ledgers, R: Wait, E: Write>(
    means: &ServiceMeans<'_, '_, R, E>,
    library: &Library<B, Device, Pass>,
    sessions: &LiveSessions,
) -> Result<String, AllocError>
    ensures { IfOk result (λ text. IsStatus B.profile library.now.units (string_bytes text)) }
{
    let (rt, alloc) = (means.rt, means.alloc);
    let summary = read_library(rt, alloc, library)?;
    let live = sessions_of(rt, alloc, sessions)?;
    let server = summary_of_server(alloc, means.files, means.keeper)?;
    let text = status_text(alloc, &summary, &live, &server)?;
    Ok(text)
}

/// Sends a text, in a limited time: a client that takes it slowly, or never, doesn't get all.
fn send<R: Clock>(rt: &R, stream: &UnixStream, text: &[u8]) -> io::Result<()> {
    let time = Duration::from_millis(SEND_TIME);
    stream.set_write_timeout(Some(time))?;
    let begun = Instant::now(rt)?;
    let mut writer = stream;
    let mut rest = text;
    'pieces: for _piece in 0..text.len() {
        if rest.is_empty() {
            return Ok(());
        }
        if begun.elapsed(rt)? > time {
            return Err(io::Error::from(ErrorKind::TimedOut));
        }
        let sent = writer.write(rest)?;
        rest = rest.get(sent..).unwrap_or(&[]);
    }
    if rest.is_empty() {
        Ok(())
    } else {
        Err(io::Error::from(ErrorKind::WriteZero))
    }
}
