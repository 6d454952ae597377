ghost use Rattle.std.specs.Prelude.{◌≡◌};

use crate::door::{Door, NewConnection};
use crate::event::Event;
use crate::teller::Teller;
use live_sessions::LiveSessions;
use scsi_cdb::Profile;
use std::io::Write;
use std::sync::Wait;
use std::sync::atomic::{AtomicU64, Ordering};
use std::thread;
use std::time::{Clock, Duration};

/// How many milliseconds the workers of a door pause where a connection couldn't be accepted.
const PAUSE: u64 = 500;

/// How many sessions there are.
#[derive(Clone, Copy)]
pub enum ServeTerm {
    /// So many, whose faults are the server's.
    Sessions(u64),
    /// As many as come until no more may begin. Their faults are reported, and are none of the server's.
    UntilClosed,
}

/// How long hosts are waited for. `None`: for ever.
#[derive(Clone, Copy)]
pub struct WaitTimes {
    /// In which a connection's LOGIN, or the login phase of iSCSI, has to come to its end.
    pub login: Option<Duration>,
    /// After which a session from which nothing came is ended.
    pub idle: Option<Duration>,
    /// After which a reply that can't be written ends its session as a write that failed.
    pub write: Option<Duration>,
    /// After which an initiator of iSCSI from which nothing came is asked whether it is still there.
    pub ping: Option<Duration>,
}

/// How hosts are served: by how many workers, in how many sessions in all, and for how long.
#[derive(Clone, Copy, Drop)]
pub struct ServeLimits<'a> {
    /// So many at each door. Each has a seat of its own, and serves one session at a time.
    pub workers: u8,
    /// So many more, which serve sessions at portals only.
    pub spare: u8,
    pub term: ServeTerm,
    pub times: WaitTimes,
    /// That of the library, which sessions at a socket have their limits from.
    pub profile: Profile,
    /// Once these are closed no session begins. A worker that waits for a connection then waits on until one comes or the
    /// door is shut down.
    pub sessions: &'a LiveSessions,
}

/// Where workers get their connections, each from one of the doors.
#[derive(Drop)]
pub struct Acceptor<'a> {
    pub doors: &'a [Door<'a>],
    pub limits: ServeLimits<'a>,
    /// How many connections have been accepted.
    accepted: AtomicU64,
}

/// What came of asking for a connection.
#[derive(Drop)]
pub(crate) enum Connection {
    /// A connection, with its place in the order of accepting, from 1 on.
    Accepted(NewConnection, u64),
    /// No more are served.
    NoMore,
    /// It couldn't be accepted.
    Failed,
}

impl<'a> Acceptor<'a> {
    /// Nothing was accepted yet.
    pub fn new(doors: &'a [Door<'a>], limits: ServeLimits<'a>) -> Acceptor<'a>
        ensures limits { result.limits ≡ limits.entry }
        ensures doors { result.doors ≡ doors.entry }
    {
        Acceptor {
            doors,
            limits,
            accepted: AtomicU64::new(0),
        }
    }

    pub(crate) fn doors(&self) -> &'a [Door<'a>]
        ensures { result ≡ self.now.doors }
    {
        self.doors
    }

    /// The door of the worker with this place among all, if it has one: each door has as many workers, and the last ones of a socket serve
    /// no session.
    pub(crate) fn door_of(&self, place: usize) -> Option<&'a Door<'a>> {
        let count = self.doors.len();
        let door = self.doors.get(place.checked_rem(count)?)?;
        let is_spare = place.checked_div(count)? >= usize::from(self.limits.workers);
        if is_spare && door.portal().is_none() {
            None
        } else {
            Some(door)
        }
    }

    /// Waits for the next connection of a door. One of its workers at a time does, so that the numbers of those that come in there
    /// are the order of accepting; where that fails all of them pause.
    pub(crate) fn accept<R: Clock + Wait, E: Write>(
        &self,
        rt: &R,
        door: &Door<'_>,
        teller: &Teller<E>,
    ) -> Connection {
        let _turn = door.turn.lock(rt);
        if self.is_over(rt) {
            return Connection::NoMore;
        }
        match door.accept() {
            // It came too late.
            Ok(_) if self.limits.sessions.is_closed(rt) => Connection::NoMore,
            Ok(connection) => self.number(connection),
            // The door was shut down.
            Err(_) if self.is_over(rt) => Connection::NoMore,
            Err(_) => {
                teller.tell(rt, &Event::NotAccepted);
                thread::sleep(rt, Duration::from_millis(PAUSE));
                Connection::Failed
            }
        }
    }

    /// Whether no session may begin any more.
    fn is_over<R: Wait>(&self, rt: &R) -> bool {
        let accepted = self.accepted.load(Ordering::SeqCst);
        let is_full = match self.limits.term {
            ServeTerm::Sessions(count) => accepted >= count,
            ServeTerm::UntilClosed => false,
        };
        is_full || self.limits.sessions.is_closed(rt)
    }

    /// Gives a connection its number, unless that is one too many. With the last one the doors are shut, since others may
    /// be waited for there.
    fn number(&self, connection: NewConnection) -> Connection {
        let number = self
            .accepted
            .fetch_add(1, Ordering::SeqCst)
            .saturating_add(1);
        match self.limits.term {
            ServeTerm::Sessions(count) if number > count => Connection::NoMore,
            ServeTerm::Sessions(count) => {
                if number == count {
                    self.shut_doors();
                }
                Connection::Accepted(connection, number)
            }
            ServeTerm::UntilClosed => Connection::Accepted(connection, number),
        }
    }

    fn shut_doors(&self) {
        for door in self.doors {
            door.shut_down();
        }
    }
}
