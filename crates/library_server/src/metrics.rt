//! The metrics socket, at which each client that asks by HTTP is told what is counted of a library. Nothing of the library changes.

use crate::metrics_page::MetricsPage;
use crate::serving::ServiceMeans;
use crate::socket_fault::SocketFault;
use crate::timed_stream::TimedStream;
use http_server::{Config, Connection, serve};
use http1::Limits;
use kept_unit::Ledgers;
use library_start::Device;
use lun_router::{Library, Pass};
use program_options::ListenFault;
use record_lines::RecordCounts;
use server::{Event, LiveSessions};
use std::alloc::Global;
use std::hash::RandomState;
use std::io::{self, Read, Write};
use std::net::{Net, Shutdown, SocketAddr, TcpListener, TcpStream};
use std::os::fd::OwnedFd;
use std::os::unix::net::UnixStream;
use std::random::RandomSource;
use std::sync::atomic::{AtomicBool, Ordering};
use std::sync::{Mutex, Wait};
use std::thread;
use std::time::{Clock, Duration, Instant};

/// How many milliseconds pass where a connection couldn't be accepted.
const PAUSE: u64 = 500;

/// How many bytes the head of a request may have.
const MOST_HEAD: usize = 8 * 1024;

/// How many times what is left of a refused request is read.
const MOST_READS: usize = 4_096;

/// Where the metrics of a library are asked for, until it is shut down, and what is counted.
#[derive(Drop)]
pub struct MetricsSocket {
    listener: TcpListener,
    /// A second descriptor of the listener, as a stream, which can be shut down.
    second: UnixStream,
    is_over: AtomicBool,
    /// How often records of each kind were taken out of units.
    pub(crate) counts: Mutex<RecordCounts>,
}

/// Listens for clients that ask for metrics, if that is wanted.
pub(crate) fn open_metrics<R: AllocGlobal + Net<Listener = TcpListener, Stream = TcpStream>>(
    rt: &R,
    address: Option<SocketAddr>,
) -> Result<Option<MetricsSocket>, SocketFault> {
    let Some(address) = address else {
        return Ok(None);
    };
    match MetricsSocket::at(rt, address) {
        Ok(socket) => Ok(Some(socket)),
        Err(error) => {
            let text = address.to_string(rt.alloc())?;
            Err(ListenFault::of_portal(text, error.kind()).into())
        }
    }
}

impl MetricsSocket {
    fn at<R: AllocGlobal + Net<Listener = TcpListener, Stream = TcpStream>>(
        rt: &R,
        address: SocketAddr,
    ) -> io::Result<MetricsSocket> {
        let listener = TcpListener::bind(rt, address)?;
        let second = UnixStream::from(OwnedFd::from(listener.try_clone()?));
        Ok(MetricsSocket {
            listener,
            second,
            is_over: AtomicBool::new(false),
            counts: Mutex::new(RecordCounts::new(rt.alloc())),
        })
    }

    /// From now on no client is answered, and a wait for a connection ends.
    pub(crate) fn shut_down(&self) {
        self.is_over.store(true, Ordering::SeqCst);
        // A listener can always be shut down.
        let _ = self.second.shutdown(Shutdown::Both);
    }

    /// Answers one connection after another, until the socket is shut down.
    pub(crate) fn answer_all<B: Ledgers, R: Clock + RandomSource + Wait, E: Write>(
        &self,
        means: &ServiceMeans<'_, '_, R, E>,
        library: &Library<B, Device, Pass>,
        sessions: &LiveSessions,
    ) {
        let (rt, teller) = (means.rt, means.teller);
        'turns: for _turn in rt.forever() {
            let accepted = self.listener.accept();
            if self.is_over.load(Ordering::SeqCst) {
                return;
            }
            match accepted {
                Ok((stream, _)) => {
                    let mut page = MetricsPage {
                        means,
                        library,
                        sessions,
                        counts: &self.counts,
                        is_told: false,
                    };
                    let answered = answer(rt, means.alloc, &stream, &mut page);
                    if answered.is_err() || !page.is_told {
                        teller.tell(rt, &Event::MetricsUnsent);
                    }
                }
                Err(_) => {
                    teller.tell(rt, &Event::NotAccepted);
                    thread::sleep(rt, Duration::from_millis(PAUSE));
                }
            }
        }
    }
}

/// Reads the request of a connection and sends its answer, in a limited time. A request with a body, or with a longer head, is refused.
fn answer<B: Ledgers, R: Clock + RandomSource + Wait, E: Write>(
    rt: &R,
    alloc: Global,
    stream: &TcpStream,
    page: &mut MetricsPage<'_, '_, '_, B, R, E>,
) -> io::Result<()> {
    let config = Config {
        limits: Limits {
            max_head_len: MOST_HEAD,
            max_extensions_len: MOST_HEAD,
            max_trailers_len: MOST_HEAD,
        },
        max_body_len: 0,
        max_pending: 64 * 1024,
        read_size: MOST_HEAD,
    };
    let mut connection = Connection::new(alloc, RandomState::new(rt)?, config);
    let begun = Instant::now(rt)?;
    let mut reader = TimedStream { rt, stream, begun };
    let mut writer = TimedStream { rt, stream, begun };
    serve(&mut connection, page, &mut reader, &mut writer)?;
    stream.shutdown(Shutdown::Write)?;
    read_rest(&mut reader)
}

/// Reads what a client sends behind its request, until it closes the connection or the time is over: where bytes are left, the system
/// takes the answer back.
fn read_rest<R: Read>(reader: &mut R) -> io::Result<()> {
    let mut buffer = [0u8; 512];
    for _turn in 0..MOST_READS {
        if reader.read(&mut buffer)? == 0 {
            return Ok(());
        }
    }
    Ok(())
}
