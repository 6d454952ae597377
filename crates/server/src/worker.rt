ghost use Rattle.server.specs.SeatService.{DoesForWorker};
ghost use Rattle.server.specs.Sessions.{ComesBySessions, Leaves};

use crate::acceptor::{Acceptor, Connection};
use crate::door::{Door, NewConnection};
use crate::event::{EndedSession, Event};
use crate::faulty_session::{Cause, FaultySession, first_accepted};
use crate::logged_in::shown_name;
use crate::refused_login::RefusedLogin;
use crate::serving::serve_connection;
use crate::session_flags::SessionFlags;
use crate::teller::Teller;
use crate::waiting::PollSource;
use crate::worker_service::{SessionSoFar, WorkerService};
use iscsi_session::IscsiFault;
use live_sessions::{Entry, LiveSessions};
use session::SeatService;
use std::alloc::Global;
use std::io::{self, Write};
use std::random::RandomSource;
use std::sync::Wait;
use std::time::{Clock, Duration, Instant};
use tape_keeper::TapeKeeper;

/// A worker's service, and the fault of the session that was accepted first of those that it served.
#[derive(Drop)]
pub(crate) struct Worker<'a, S: SeatService, K: TapeKeeper, R: Wait, E: Write> {
    pub service: WorkerService<'a, S, K, R, E>,
    pub fault: Option<FaultySession>,
}

/// A connection that has become a session.
#[derive(Clone, Copy)]
pub(crate) struct NewSession<'v, 'd> {
    pub connection: &'v NewConnection,
    pub door: &'v Door<'d>,
    /// Its place in the order of accepting, from 1 on.
    pub number: u64,
    /// Its key among the sessions that go on.
    pub key: usize,
    /// What may be the target's part of its session's identifier.
    pub tsih: u16,
}

impl<
    'a,
    S: SeatService,
    K: TapeKeeper,
    R: Clock + PollSource + RandomSource + Wait,
    E: Write,
> Worker<'a, S, K, R, E> {
    /// Serves one connection of its door after another, until no more are to be. After each it asks that the records so far be
    /// handed out, where they are while the library is served. Its place among the workers says which door is its own.
    pub fn work(&mut self, alloc: Global, acceptor: &Acceptor<'_>, place: usize)
        ensures { ComesBySessions S.notes S.settles S.count self.old.service self.new.service }
    {
        let rt = self.service.rt;
        let teller = self.service.teller;
        let Some(door) = acceptor.door_of(place) else {
            return;
        };
        'turns: for _turn in rt.forever() {
            match acceptor.accept(rt, door, teller) {
                Connection::Accepted(connection, number) => {
                    self.serve_one(alloc, acceptor, door, &connection, number);
                    self.service.finish();
                }
                Connection::NoMore => return,
                Connection::Failed => {}
            }
        }
    }

    /// Serves one connection, unless no session may begin any more, and reports what came of it.
    fn serve_one(
        &mut self,
        alloc: Global,
        acceptor: &Acceptor<'_>,
        door: &Door<'_>,
        connection: &NewConnection,
        number: u64,
    )
        ensures { Leaves (DoesForWorker S.notes S.settles) S.count self.old.service self.new.service }
    {
        let rt = self.service.rt;
        let teller = self.service.teller;
        let sessions = acceptor.limits.sessions;
        match begin(rt, sessions, connection, number, self.service.flags) {
            Ok(Entry::Begins { key, tsih }) => {
                let new_session = NewSession {
                    connection,
                    door,
                    number,
                    key,
                    tsih,
                };
                let fault = self.serve_and_tell(alloc, acceptor, new_session);
                sessions.forget(rt, key);
                self.fault = first_accepted(self.fault, fault);
            }
            Ok(Entry::Ended) => {}
            Ok(Entry::Crowded(address)) => teller.tell(rt, &Event::Crowded(address)),
            // There is no second descriptor, or no room for it.
            Err(_) => teller.tell(rt, &Event::NotAccepted),
        }
    }

    /// Serves a session, reports when it begins and ends, and answers its fault, if it had one.
    fn serve_and_tell(
        &mut self,
        alloc: Global,
        acceptor: &Acceptor<'_>,
        new_session: NewSession<'_, '_>,
    ) -> Option<FaultySession>
        ensures { Leaves (DoesForWorker S.notes S.settles) S.count self.old.service self.new.service }
    {
        let rt = self.service.rt;
        let teller = self.service.teller;
        let number = new_session.number;
        self.service.session = SessionSoFar::new(new_session.door.replies());
        self.service.flags.begin();
        teller.tell(rt, &Event::Begins(number));
        let begun = Instant::now(rt);
        let ended = serve_connection(alloc, &mut self.service, acceptor, new_session);
        self.service.flags.end(rt);
        let seconds = match begun {
            Ok(begun) => begun.elapsed(rt).unwrap_or(Duration::ZERO).as_secs(),
            Err(_) => 0,
        };
        if let Err(session) = ended {
            tell_failure(rt, acceptor.limits.sessions, teller, new_session, session);
        }
        let ended_session = EndedSession {
            number,
            nexus: self.service.session.nexus,
            end: ended.ok(),
            commands: self.service.session.commands,
            seconds,
        };
        teller.tell(rt, &Event::Ends(ended_session));
        ended.err()
    }
}

/// Enters a session, where one may begin.
fn begin<R: Clock + Wait>(
    rt: &R,
    sessions: &LiveSessions,
    connection: &NewConnection,
    number: u64,
    flags: &SessionFlags,
) -> io::Result<Entry> {
    // What its status shows from now on is its own.
    flags.counts().begin();
    let counts = flags.shared_counts()?;
    sessions.begin(rt, &connection.stream, number, connection.origin, counts)
}

/// Reports a session that had a fault; a login that was refused at a portal with where it came from, its name, and why there was no
/// room for it.
fn tell_failure<R: Wait, E: Write>(
    rt: &R,
    sessions: &LiveSessions,
    teller: &Teller<E>,
    new_session: NewSession<'_, '_>,
    session: FaultySession,
) {
    match (session.cause, new_session.connection.origin) {
        (Cause::Iscsi(IscsiFault::Refused(_)), Some(origin)) => {
            if let Some(refused) = sessions.refused(rt, new_session.key) {
                let login = RefusedLogin {
                    session,
                    peer: origin.peer,
                    name: shown_name(refused.name.as_slice()),
                    no_room: refused.no_room,
                };
                teller.tell_refused(rt, &login);
            }
        }
        _ => teller.tell(rt, &Event::Fails(session)),
    }
}
