use crate::end_notice::EndNotice;
use crate::live_list::{Entry, LiveList, RefusedInitiator};
use crate::live_session::{Connected, Initiator, Origin, SessionReport};
use crate::login_terms::{LoginTerms, SPARE_WORKERS};
use crate::no_room::NoRoom;
use crate::reset_counts::ResetCounts;
use crate::session_counts::SessionCounts;
use crate::session_totals::SessionTotals;
use iscsi_pdu::LoginStatus;
use iscsi_session::{Entrant, Joined, NexusEnd, SessionIdentity};
use scsi_nexus::Nexus;
use std::alloc::{AllocError, Global};
use std::io;
use std::os::unix::net::UnixStream;
use std::sync::{Arc, Condvar, Mutex, Wait};
use std::time::{Clock, Duration, SystemTime};

/// How many seconds a session is waited for whose place another one takes, and a nexus that is being lost.
const END_OF_SESSION: u64 = 5;

/// The sessions that go on, so that they can be ended from outside, and on which terms initiators are let in beside them.
#[derive(Drop)]
pub struct LiveSessions {
    live: Mutex<LiveList>,
    /// Told whenever one has ended, or its nexus has entered the directory.
    changed: Condvar,
    /// On which initiators of iSCSI are let in, where they may come.
    terms: Option<LoginTerms>,
    /// The resets that sessions have made, those of frames and those of iSCSI.
    resets: ResetCounts,
    /// Given once none may begin.
    end_notice: EndNotice,
}

/// How a session has ended whose place another one takes.
#[derive(Clone, Copy)]
pub enum EndInPlace {
    /// In time. It was this one in the order of accepting.
    Ended(u64),
    /// There was none any more.
    WasGone,
    /// Not in time.
    GoesOn,
}

impl LiveSessions {
    /// None goes on, and sessions may begin, those of iSCSI on these terms, if there are some.
    pub fn new(alloc: Global, terms: Option<LoginTerms>) -> LiveSessions {
        LiveSessions {
            live: Mutex::new(LiveList::new(alloc)),
            changed: Condvar::new(),
            terms,
            resets: ResetCounts::new(),
            end_notice: EndNotice::new(),
        }
    }

    /// How many workers more there are at each door than sessions may log in: those hear, at portals, who hasn't logged in yet.
    pub fn spare_workers(&self) -> u8 {
        match self.terms {
            Some(_) => SPARE_WORKERS,
            None => 0,
        }
    }

    /// The resets that are made, to which those who make them add.
    pub fn resets(&self) -> &ResetCounts {
        &self.resets
    }

    /// Whether and when all sessions are to end.
    pub fn end_notice(&self) -> &EndNotice {
        &self.end_notice
    }

    /// Whether no more sessions may begin.
    pub fn is_closed<R: Wait>(&self, rt: &R) -> bool {
        self.live.lock(rt).is_closed
    }

    /// From now on no session begins, and those of iSCSI that go on ask for a logout within the grace, of which whole seconds are told.
    pub fn close<R: Wait>(&self, rt: &R, grace: Duration) {
        self.live.lock(rt).is_closed = true;
        self.end_notice
            .give(u16::try_from(grace.as_secs()).unwrap_or(u16::MAX));
    }

    /// Waits until all sessions have ended, and shuts the streams of those down that go on after so long: each then reads
    /// the end of its input, and a write that waits fails.
    pub fn end_after<R: Clock + Wait>(&self, rt: &R, grace: Duration) {
        let live = self.live.lock(rt);
        let (live, _) = self
            .changed
            .wait_timeout_while(rt, live, grace, |live| !live.is_empty());
        live.shut_all_down();
    }

    /// Enters a session of a place in the order of accepting by a second descriptor of its stream and what its thread counts, where one
    /// may begin.
    pub fn begin<R: Clock + Wait>(
        &self,
        rt: &R,
        stream: &UnixStream,
        number: u64,
        origin: Option<Origin>,
        counts: Arc<SessionCounts, Global>,
    ) -> io::Result<Entry> {
        let connected = Connected {
            stream: stream.try_clone()?,
            start: SystemTime::now(rt).ok(),
            counts,
        };
        Ok(self.live.lock(rt).begin(connected, number, origin)?)
    }

    /// What is to be reported of the sessions that go on.
    pub fn reports<R: Wait>(
        &self,
        rt: &R,
        alloc: Global,
    ) -> Result<Vec<SessionReport>, AllocError> {
        self.live.lock(rt).reports(alloc)
    }

    /// What came and went in all sessions.
    pub fn totals<R: Wait>(&self, rt: &R) -> SessionTotals {
        self.live.lock(rt).totals()
    }

    /// Forgets a session that has ended, by its key. Its own thread counts nothing in it any more.
    pub fn forget<R: Wait>(&self, rt: &R, key: usize) {
        let mut live = self.live.lock(rt);
        live.forget(key);
        self.changed.notify_all();
    }

    /// The session of an ISID that lives as a nexus, if there is one.
    pub fn living<R: Wait>(&self, rt: &R, nexus: Nexus, isid: u64) -> Option<SessionIdentity> {
        self.live.lock(rt).living(nexus, isid)
    }

    /// Shuts down the session of an initiator, and waits until it has ended.
    pub fn end<R: Clock + Wait>(&self, rt: &R, initiator: Initiator) -> EndInPlace {
        let live = self.live.lock(rt);
        let Some(number) = live.shut_down(initiator) else {
            return EndInPlace::WasGone;
        };
        let time = Duration::from_secs(END_OF_SESSION);
        let (live, _) = self
            .changed
            .wait_timeout_while(rt, live, time, |live| live.has(initiator));
        if live.has(initiator) {
            EndInPlace::GoesOn
        } else {
            EndInPlace::Ended(number)
        }
    }

    /// Notes the name that the initiator of a session has given.
    pub fn note_name<R: Wait>(&self, rt: &R, key: usize, name: &[u8]) {
        if let Some(live) = self.live.lock(rt).session_mut(key) {
            live.note_name(name);
        }
    }

    /// Lets a session in as one of discovery, or says how it is refused.
    pub fn admit_discovery<R: Wait>(&self, rt: &R, key: usize) -> Result<(), LoginStatus> {
        let mut live = self.live.lock(rt);
        match live.admit_discovery(key, self.terms) {
            Ok(()) => Ok(()),
            Err(no_room) => Err(refused_in(&mut live, key, no_room)),
        }
    }

    /// Lets a session in as one of a nexus, once that isn't about to change, or says how it is refused.
    pub fn admit<R: Clock + Wait>(
        &self,
        rt: &R,
        key: usize,
        entrant: &Entrant,
    ) -> Result<Joined, LoginStatus> {
        let nexus = entrant.nexus;
        let live = self.live.lock(rt);
        let time = Duration::from_secs(END_OF_SESSION);
        let (mut live, _) = self
            .changed
            .wait_timeout_while(rt, live, time, |live| live.is_changing(nexus));
        if live.is_changing(nexus) {
            return Err(refused_in(&mut live, key, NoRoom::Loss));
        }
        match live.admit(key, entrant, self.terms) {
            Ok(joined) => Ok(joined),
            Err(no_room) => Err(refused_in(&mut live, key, no_room)),
        }
    }

    /// The nexus of a session that is one of a nexus.
    pub fn nexus_of<R: Wait>(&self, rt: &R, key: usize) -> Option<Nexus> {
        self.live.lock(rt).nexus_of(key)
    }

    /// How many sessions a nexus has.
    pub fn count_of<R: Wait>(&self, rt: &R, nexus: Nexus) -> usize {
        self.live.lock(rt).count_of(nexus)
    }

    /// Notes the key in the directory of the nexus of a session.
    pub fn note_key<R: Wait>(&self, rt: &R, key: usize, directory_key: usize) {
        let mut live = self.live.lock(rt);
        if let Some(session) = live.session_mut(key) {
            session.note_key(directory_key);
        }
        self.changed.notify_all();
    }

    /// Notes that a session isn't let in after all, since its nexus has a session at the Unix socket, or for want of memory.
    pub fn withdraw<R: Wait>(&self, rt: &R, key: usize, status: LoginStatus) {
        let mut live = self.live.lock(rt);
        if let Some(session) = live.session_mut(key) {
            session.withdraw();
            if status == LoginStatus::OutOfResources {
                session.note_no_room(NoRoom::Socket);
            }
        }
        self.changed.notify_all();
    }

    /// Ends a session of a nexus, and says what becomes of that.
    pub fn leave<R: Wait>(&self, rt: &R, key: usize, nexus: Nexus) -> NexusEnd {
        self.live.lock(rt).leave(key, nexus)
    }

    /// What is to be told of a session whose initiator wasn't let in, if something is.
    pub fn refused<R: Wait>(&self, rt: &R, key: usize) -> Option<RefusedInitiator> {
        self.live.lock(rt).refused(key)
    }
}

/// Notes why a session isn't let in, and says how its initiator is told.
fn refused_in(live: &mut LiveList, key: usize, no_room: NoRoom) -> LoginStatus {
    if let Some(session) = live.session_mut(key) {
        session.note_no_room(no_room);
    }
    no_room.status()
}
