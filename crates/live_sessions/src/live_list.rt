//! The sessions that go on, and who is let in beside them.

use crate::live_session::{
    Connected, Initiator, InitiatorName, LiveSession, Origin, SessionReport, Standing,
};
use crate::login_terms::{LoginTerms, MOST_BEFORE_LOGIN, MOST_OF_NEXUS, Paths};
use crate::no_room::NoRoom;
use crate::session_totals::SessionTotals;
use arrayvec::ArrayVec;
use iscsi_login::Admission;
use iscsi_session::{Entrant, Joined, NexusEnd, SessionIdentity};
use scsi_nexus::Nexus;
use slab::Slab;
use std::alloc::{AllocError, Global};
use std::net::IpAddr;
use unit_attention::SLOTS;

/// What comes of a connection.
#[derive(Clone, Copy)]
pub enum Entry {
    /// A session with this key, and what may be the target's part of its session's identifier.
    Begins { key: usize, tsih: u16 },
    /// No session may begin any more.
    Ended,
    /// As many connections of its address as may be there haven't logged in.
    Crowded(IpAddr),
}

/// What is told of a session whose initiator wasn't let in.
#[derive(Drop)]
pub struct RefusedInitiator {
    pub name: InitiatorName,
    pub no_room: Option<NoRoom>,
}

/// The sessions of a nexus beside which another one would come in.
#[derive(Clone, Copy)]
struct Beside {
    count: usize,
    /// The key of the nexus in the directory.
    key: Option<usize>,
    /// Whether one of them comes from the same address.
    is_near: bool,
    /// The address of one that doesn't.
    far: Option<IpAddr>,
}

impl Beside {
    fn note(&mut self, live: &LiveSession, standing: Standing, address: Option<IpAddr>) {
        self.count = self.count.saturating_add(1);
        match standing {
            Standing::IsIn(key) => self.key = Some(key),
            Standing::Enters | Standing::IsLost => {}
        }
        if live.address() == address {
            self.is_near = true;
        } else {
            self.far = live.address();
        }
    }

    /// How one more is let in by where it comes from, if it is.
    fn joined(&self, paths: Paths) -> Result<Joined, NoRoom> {
        let Some(key) = self.key else {
            return Ok(Joined::First);
        };
        if self.count >= MOST_OF_NEXUS {
            return Err(NoRoom::Nexus);
        }
        match self.far {
            Some(address) if !self.is_near && paths == Paths::SameAddress => {
                Err(NoRoom::Address(address))
            }
            Some(_) | None => Ok(Joined::Beside(key)),
        }
    }
}

/// Whether sessions may begin, and those that go on.
#[derive(Drop)]
pub(crate) struct LiveList {
    pub is_closed: bool,
    sessions: Slab<LiveSession>,
    /// What came and went in those that have ended.
    ended: SessionTotals,
    /// The nexuses of hosts that aren't named which were let in: no more than a logical unit has slots.
    strangers: ArrayVec<Nexus, SLOTS>,
    /// Whether it was told that one more wasn't.
    has_told_stranger: bool,
    /// The last that was given as the target's part of a session's identifier.
    last_tsih: u16,
}

impl LiveList {
    /// Sessions may begin, and none has.
    pub fn new(alloc: Global) -> LiveList {
        LiveList {
            is_closed: false,
            sessions: Slab::new(alloc),
            ended: SessionTotals::default(),
            strangers: ArrayVec::new(),
            has_told_stranger: false,
            last_tsih: 0,
        }
    }

    pub fn is_empty(&self) -> bool {
        self.sessions.is_empty()
    }

    /// Enters a session, where one may begin.
    pub fn begin(
        &mut self,
        connected: Connected,
        number: u64,
        origin: Option<Origin>,
    ) -> Result<Entry, AllocError> {
        if self.is_closed {
            return Ok(Entry::Ended);
        }
        let tsih = self.new_tsih();
        let live = LiveSession::new(connected, number, origin, tsih);
        if let Some(address) = live.address() {
            if self.count_waiting(address) >= MOST_BEFORE_LOGIN {
                return Ok(Entry::Crowded(address));
            }
        }
        let key = self.sessions.insert(live).map_err(AllocError::from)?;
        Ok(Entry::Begins { key, tsih })
    }

    /// What is to be reported of the sessions that go on.
    pub fn reports(&self, alloc: Global) -> Result<Vec<SessionReport>, AllocError> {
        let mut reports = Vec::new(alloc);
        for (_, live) in self.sessions.iter() {
            reports.push(live.report())?;
        }
        Ok(reports)
    }

    /// What came and went in all sessions.
    pub fn totals(&self) -> SessionTotals {
        let mut totals = self.ended;
        totals.sessions = self.sessions.len();
        for (_, live) in self.sessions.iter() {
            totals.add(live.counts());
        }
        totals
    }

    /// Forgets a session that has ended, but for what came and went in it.
    pub fn forget(&mut self, key: usize) {
        if let Some(live) = self.sessions.try_remove(key) {
            self.ended.add(live.counts());
        }
    }

    pub fn session_mut(&mut self, key: usize) -> Option<&mut LiveSession> {
        self.sessions.get_mut(key)
    }

    /// The session of an ISID that lives as a nexus, if there is one.
    pub fn living(&self, nexus: Nexus, isid: u64) -> Option<SessionIdentity> {
        for (_, live) in self.sessions.iter() {
            if let Some(member) = live.member_of(nexus) {
                let session = member.initiator.session;
                if session.isid == isid {
                    return Some(session);
                }
            }
        }
        None
    }

    pub fn has(&self, initiator: Initiator) -> bool {
        self.sessions.iter().any(|(_, live)| live.is_of(initiator))
    }

    /// Shuts the stream of an initiator's session down, and says which in the order of accepting that is, if there is one.
    pub fn shut_down(&self, initiator: Initiator) -> Option<u64> {
        for (_, live) in self.sessions.iter() {
            if live.is_of(initiator) {
                live.shut_down();
                return Some(live.number());
            }
        }
        None
    }

    /// Shuts the streams of all down.
    pub fn shut_all_down(&self) {
        for (_, live) in self.sessions.iter() {
            live.shut_down();
        }
    }

    /// Whether a nexus is about to enter the directory, or to leave it.
    pub fn is_changing(&self, nexus: Nexus) -> bool {
        self.sessions
            .iter()
            .any(|(_, live)| live.is_changing(nexus))
    }

    /// The nexus of a session that is one of a nexus.
    pub fn nexus_of(&self, key: usize) -> Option<Nexus> {
        Some(self.sessions.get(key)?.member()?.initiator.nexus)
    }

    /// How many sessions a nexus has.
    pub fn count_of(&self, nexus: Nexus) -> usize {
        self.sessions
            .iter()
            .filter(|(_, live)| live.member_of(nexus).is_some())
            .count()
    }

    /// Lets a session in as one of discovery.
    pub fn admit_discovery(&mut self, key: usize, terms: Option<LoginTerms>) -> Result<(), NoRoom> {
        let terms = terms.ok_or(NoRoom::Portal)?;
        self.place_for(key, terms.most_sessions)?.enter_discovery();
        Ok(())
    }

    /// Lets a session in as one of a nexus that isn't about to change.
    pub fn admit(
        &mut self,
        key: usize,
        entrant: &Entrant,
        terms: Option<LoginTerms>,
    ) -> Result<Joined, NoRoom> {
        let terms = terms.ok_or(NoRoom::Portal)?;
        let joined = self.beside(key, entrant)?.joined(terms.paths)?;
        self.place_for(key, terms.most_sessions)?;
        self.admit_stranger(entrant, terms.most_strangers)?;
        if let Some(live) = self.sessions.get_mut(key) {
            match joined {
                Joined::First => live.enter(entrant, Standing::Enters),
                Joined::Beside(key) => live.enter(entrant, Standing::IsIn(key)),
            }
        }
        Ok(joined)
    }

    /// Ends a session of a nexus, and says what becomes of that.
    pub fn leave(&mut self, key: usize, nexus: Nexus) -> NexusEnd {
        let goes_on = self.sessions.iter().any(|(other, live)| other != key
            && live.member_of(nexus).is_some());
        let end = if goes_on {
            NexusEnd::GoesOn
        } else {
            NexusEnd::Lost
        };
        if let Some(live) = self.sessions.get_mut(key) {
            live.leave(end);
        }
        end
    }

    /// What is to be told of an initiator that wasn't let in, if something is: of hosts that aren't named that the first wasn't.
    pub fn refused(&mut self, key: usize) -> Option<RefusedInitiator> {
        let live = self.sessions.get(key)?;
        let refused = RefusedInitiator {
            name: live.name_copy(),
            no_room: live.no_room(),
        };
        if let Some(NoRoom::Stranger) = refused.no_room {
            if self.has_told_stranger {
                return None;
            }
            self.has_told_stranger = true;
        }
        Some(refused)
    }

    /// The sessions of its nexus beside which a session would come in, where none of them objects to it.
    fn beside(&self, key: usize, entrant: &Entrant) -> Result<Beside, NoRoom> {
        let mut beside = Beside {
            count: 0,
            key: None,
            is_near: false,
            far: None,
        };
        let Some(own) = self.sessions.get(key) else {
            return Ok(beside);
        };
        for (_, live) in self.sessions.iter() {
            if let Some(no_room) = live.objection(entrant, own.name()) {
                return Err(no_room);
            }
            if let Some(member) = live.member_of(entrant.nexus) {
                beside.note(live, member.standing, own.address());
            }
        }
        Ok(beside)
    }

    /// A session that logs in, where its portal has room for one.
    fn place_for(&mut self, key: usize, most: u8) -> Result<&mut LiveSession, NoRoom> {
        let group = match self.sessions.get(key) {
            Some(live) => live.group(),
            None => None,
        };
        if self.count_in(group) >= usize::from(most) {
            return Err(NoRoom::Portal);
        }
        self.sessions.get_mut(key).ok_or(NoRoom::Portal)
    }

    /// Notes the nexus of a host that isn't named, unless as many others as may be were let in.
    fn admit_stranger(&mut self, entrant: &Entrant, most: u8) -> Result<(), NoRoom> {
        match entrant.admission {
            Admission::Listed(_) => return Ok(()),
            Admission::Other(_) => {}
        }
        let nexus = entrant.nexus;
        if self.strangers.iter().any(|other| *other == nexus) {
            return Ok(());
        }
        if self.strangers.len() >= usize::from(most) {
            return Err(NoRoom::Stranger);
        }
        self.strangers.try_push(nexus).map_err(|_| NoRoom::Stranger)
    }

    /// How many connections of an address are before their login.
    fn count_waiting(&self, address: IpAddr) -> usize {
        self.sessions
            .iter()
            .filter(|(_, live)| live.waits_from(address))
            .count()
    }

    /// How many sessions have logged in at the portal of a group.
    fn count_in(&self, group: Option<u16>) -> usize {
        let Some(group) = group else {
            return 0;
        };
        self.sessions
            .iter()
            .filter(|(_, live)| live.is_in_at(group))
            .count()
    }

    /// A target's part of a session's identifier that no session has.
    fn new_tsih(&mut self) -> u16 {
        for _ in 0..u16::MAX {
            self.last_tsih = self.last_tsih.wrapping_add(1).max(1);
            let tsih = self.last_tsih;
            if !self.sessions.iter().any(|(_, live)| live.has_tsih(tsih)) {
                return tsih;
            }
        }
        // There are fewer sessions than that.
        self.last_tsih
    }
}
