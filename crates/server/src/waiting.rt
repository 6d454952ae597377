//! A wait for a connection and for another thread at once.
ghost use Rattle.std.specs.Prelude.{◌≡◌, IfOk};
ghost use Rattle.mio.specs.Events.{items};
ghost use Rattle.server.specs.Waits.{has_token};

use mio::unix::SourceFd;
use mio::{Events, Interest, Poll, Token, Waker};
use std::alloc::Global;
use std::io;
use std::net::Net;
use std::os::fd::RawFd;
use std::time::Duration;

/// The token of the connection.
const SOCKET: usize = 0;

/// The token by which a session is woken.
const WOKEN: usize = 1;

/// How a wait has ended. Neither: its time is up, or a signal came.
#[derive(Clone, Copy)]
pub(crate) struct Waited {
    pub has_input: bool,
    pub is_woken: bool,
}

/// A source of what sessions wait by, which is shared among their threads, as a handle of the bound `Net` can't be.
pub trait PollSource {
    /// A poll of nothing. Fails where there are no descriptors.
    fn new_poll(&self) -> io::Result<Poll>;
}

impl<N: Net> PollSource for N {
    fn new_poll(&self) -> io::Result<Poll> {
        Poll::new(self)
    }
}

/// What a session waits by that another thread may wake.
#[derive(Drop)]
pub(crate) struct Waiting {
    poll: Poll,
    events: Events,
    socket: RawFd,
}

impl Waiting {
    /// For the connection with a descriptor, which stays as it is: its reads and writes wait as before. Fails where there are no
    /// descriptors, or no memory.
    pub fn new(polls: &impl PollSource, alloc: Global, socket: RawFd) -> io::Result<Waiting> {
        let poll = polls.new_poll()?;
        poll.registry()
            .register(&mut SourceFd(&socket), Token(SOCKET), Interest::READABLE)?;
        Ok(Waiting {
            poll,
            events: Events::with_capacity(alloc, 4)?,
            socket,
        })
    }

    /// By which another thread ends a wait: the one that is under way, or else the next. There is one at most.
    pub fn waker(&self) -> io::Result<Waker> {
        Waker::new(self.poll.registry(), Token(WOKEN))
    }

    /// Waits until something is there to be read, or the session is woken, or the time is up. `None`: for ever. What is there to be read
    /// is reported again as long as it is.
    pub fn wait(&mut self, time: Option<Duration>) -> io::Result<Waited>
        ensures input { IfOk result (λ waited. waited.has_input ≡ has_token 0 (items self.new.events)) }
        ensures woken { IfOk result (λ waited. waited.is_woken ≡ has_token 1 (items self.new.events)) }
    {
        let socket = self.socket;
        // The system reports an event once. By this it reports again what is still there.
        self.poll
            .registry()
            .reregister(&mut SourceFd(&socket), Token(SOCKET), Interest::READABLE)?;
        self.poll.poll(&mut self.events, time)?;
        Ok(Waited {
            has_input: has_token(&self.events, SOCKET),
            is_woken: has_token(&self.events, WOKEN),
        })
    }
}

/// Whether an event has a token.
fn has_token(events: &Events, token: usize) -> bool
    ensures { result ≡ has_token token (items events.now) }
{
    events.iter().any(|event| event.token() == Token(token))
}
