use crate::event::Event;
use crate::logged_in::{LoggedIn, shown_name};
use crate::record_drain::RecordDrain;
use crate::session_flags::SessionFlags;
use crate::teller::Teller;
use iscsi_pdu::{LoginStatus, SerialNumber};
use iscsi_session::{Entrant, Joined, NexusEnd, SessionIdentity, SessionRegister};
use live_sessions::{EndInPlace, Initiator, LiveSessions, Origin, ResetCounts};
use scsi_nexus::Nexus;
use std::cell::Cell;
use std::io::Write;
use std::sync::Wait;
use std::time::Clock;
use tape_keeper::TapeKeeper;
use tickets::{Outcome, ReplyTicket};

/// The sessions that go on, as one of them sees them, by its key, and the teller that reports when it has logged in.
#[derive(Drop)]
pub(crate) struct SessionsBeside<'a, K: TapeKeeper, R: Clock + Wait, E: Write> {
    pub rt: &'a R,
    pub sessions: &'a LiveSessions,
    pub keeper: &'a K,
    /// Where records are handed out, if they are.
    pub drain: Option<&'a RecordDrain>,
    /// Those of the session that sees them so.
    pub flags: &'a SessionFlags,
    pub key: usize,
    /// Its place in the order of accepting, from 1 on.
    pub number: u64,
    pub origin: Option<Origin>,
    pub teller: &'a Teller<E>,
    /// The command number that was last reported to be missing.
    pub missing: Cell<Option<u32>>,
    /// The resets that it has made or seen: of those that all sessions have made, each one that isn't among these is another's.
    pub seen: ResetCounts,
}

impl<'a, K: TapeKeeper, R: Clock + Wait, E: Write> SessionsBeside<'a, K, R, E> {
    /// Reports that the session was let in and joined others of its nexus.
    fn tell_joined(&self, nexus: Nexus) {
        let count = self.sessions.count_of(self.rt, nexus);
        if let Some(origin) = self.origin {
            let joins = Event::Joins {
                number: self.number,
                nexus,
                count: count as u64,
                address: origin.peer.ip().to_canonical(),
            };
            self.teller.tell(self.rt, &joins);
        }
    }
}

impl<'a, K: TapeKeeper, R: Clock + Wait, E: Write> SessionRegister for SessionsBeside<'a, K, R, E> {
    fn living(&self, nexus: Nexus, isid: u64) -> Option<SessionIdentity> {
        self.sessions.living(self.rt, nexus, isid)
    }

    fn end(&self, nexus: Nexus, session: SessionIdentity) -> bool {
        match self.sessions.end(self.rt, Initiator { nexus, session }) {
            EndInPlace::Ended(ended) => {
                let takes_place = Event::TakesPlace {
                    number: self.number,
                    nexus,
                    ended,
                };
                self.teller.tell(self.rt, &takes_place);
                true
            }
            EndInPlace::WasGone => true,
            EndInPlace::GoesOn => false,
        }
    }

    fn note_name(&self, name: &[u8]) {
        self.sessions.note_name(self.rt, self.key, name);
    }

    fn enter_discovery(&self) -> Result<(), LoginStatus> {
        self.sessions.admit_discovery(self.rt, self.key)
    }

    fn enter(&self, entrant: &Entrant) -> Result<Joined, LoginStatus> {
        self.sessions.admit(self.rt, self.key, entrant)
    }

    fn note_key(&self, key: usize) {
        self.sessions.note_key(self.rt, self.key, key);
    }

    fn withdraw(&self, status: LoginStatus) {
        self.sessions.withdraw(self.rt, self.key, status);
    }

    fn note_login(&self, nexus: Nexus, name: &[u8], joined: Joined) {
        let login = LoggedIn {
            number: self.number,
            nexus,
            name: shown_name(name),
        };
        self.teller.tell_login(self.rt, &login);
        match joined {
            Joined::First => {}
            Joined::Beside(_) => self.tell_joined(nexus),
        }
    }

    fn leave(&self, nexus: Nexus) -> NexusEnd {
        self.sessions.leave(self.rt, self.key, nexus)
    }

    fn was_reset(&self, unit: u8) -> bool {
        let count = self.sessions.resets().of(unit);
        if self.seen.of(unit) == count {
            return false;
        }
        self.seen.set(unit, count);
        true
    }

    // The session's worker has counted it among all. It is one more here, and not as many as there are: a reset that another session
    // has made meanwhile would be lost by that.
    fn note_reset(&self, unit: u8) {
        self.seen.add(unit);
    }

    fn ends_within(&self) -> Option<u16> {
        self.sessions.end_notice().ends_within()
    }

    fn note_holding(&self, is_holding: bool) {
        self.flags.note_holding(is_holding);
    }

    fn note_missing(&self, number: Option<SerialNumber>) {
        let number = match number {
            Some(missing) => Some(missing.number),
            None => None,
        };
        if number == self.missing.get() {
            return;
        }
        self.missing.set(number);
        let nexus = self.sessions.nexus_of(self.rt, self.key);
        if let (Some(command), Some(nexus)) = (number, nexus) {
            let awaits = Event::Awaits {
                number: self.number,
                nexus,
                command,
            };
            self.teller.tell(self.rt, &awaits);
        }
    }

    fn outcome_of(&self, ticket: ReplyTicket) -> Option<Outcome> {
        if let (Some(drain), Some(record)) = (self.drain, ticket.handed_out) {
            if drain.is_full(self.rt, record) {
                return None;
            }
        }
        let outcome = match ticket.kept {
            Some(kept) => self.keeper.outcome_of(self.rt, kept)?,
            None => Outcome::Kept,
        };
        if ticket.handed_out.is_some() {
            self.flags.note_paced();
        }
        Some(outcome)
    }
}
