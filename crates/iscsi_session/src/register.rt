//! Where the sessions of all portals are noted, and who is let in beside whom.
use crate::claiming::SessionIdentity;
use iscsi_login::Admission;
use iscsi_pdu::{LoginStatus, SerialNumber};
use scsi_nexus::Nexus;
use tickets::{Outcome, ReplyTicket};

/// A login that has come to its last response, and asks to be let in.
#[derive(Clone, Copy)]
pub struct Entrant {
    /// The SAS address of its initiator, at the portal group.
    pub nexus: Nexus,
    pub session: SessionIdentity,
    /// Whether its initiator is a host that is named.
    pub admission: Admission,
    /// The place among the secrets of what it has proved, where something was to be proved.
    pub proved: Option<usize>,
}

/// How a session is let in.
#[derive(Clone, Copy)]
pub enum Joined {
    /// As the only one of its nexus, which is to enter the directory.
    First,
    /// Beside others, whose nexus has this key in the directory.
    Beside(usize),
}

/// What becomes of a nexus when a session of it ends.
#[derive(Clone, Copy)]
pub enum NexusEnd {
    /// It is lost, since this was its last session.
    Lost,
    /// It goes on, since another session of it does.
    GoesOn,
}

/// Where the sessions that live are noted, those of all portals.
pub trait SessionRegister {
    ghost use Rattle.std.specs.Prelude.{◌≡◌, ℕ, IsTrue, IfSome};
    ghost use Rattle.scsi_nexus.specs.declared.nexus.Nexus.{Nexus};
    ghost use Rattle.tickets.specs.declared.ticket.Outcome.{Outcome};
    ghost use Rattle.tickets.specs.declared.ticket.ReplyTicket.{ReplyTicket};

    // That another session of a nexus goes on, as far as the implementation of the register says what that means.
    ghost others: { Self → Nexus → Type 0 } = { λ _ _. Unit {0} };

    // That another session has reset a unit, in the same way.
    ghost resets: { Self → ℕ → Type 0 } = { λ _ _. Unit {0} };

    // That all sessions are to end within so many seconds, in the same way.
    ghost ends: { Self → ℕ → Type 0 } = { λ _ _. Unit {0} };

    // That what a ticket is for ended so, in the same way.
    ghost settles: { Self → ReplyTicket → Outcome → Type 0 } = { λ _ _ _. Unit {0} };

    /// The session of an ISID that lives as a nexus, if there is one.
    fn living(&self, nexus: Nexus, isid: u64) -> Option<SessionIdentity>;

    /// Has a session end: its connection is closed. Whether it has ended in time and, where it was the last of its nexus, that is lost at every
    /// unit.
    fn end(&self, nexus: Nexus, session: SessionIdentity) -> bool;

    /// Notes the name that the initiator of the caller has given, which is empty where it has given none.
    fn note_name(&self, name: &[u8]);

    /// Lets the caller in as a discovery session, or says how it is refused.
    fn enter_discovery(&self) -> Result<(), LoginStatus>;

    /// Lets the caller in as a session of a nexus, or says how it is refused. Where the nexus is being lost it waits for the end of that. Where it is
    /// let in as the first, either `note_key` or `withdraw` is to follow.
    fn enter(&self, entrant: &Entrant) -> Result<Joined, LoginStatus>;

    /// Notes the key in the directory of the nexus of the caller, which was let in as its first session.
    fn note_key(&self, key: usize);

    /// Notes that the session of the caller lives, whose initiator has given this name.
    fn note_login(&self, nexus: Nexus, name: &[u8], joined: Joined);

    /// Notes that the caller isn't let in after all, and is refused so: the directory doesn't take its nexus.
    fn withdraw(&self, status: LoginStatus);

    /// Notes that the session of the caller ends, and says what becomes of its nexus. One that is lost takes no session until the caller has left.
    fn leave(&self, nexus: Nexus) -> NexusEnd
        ensures { result ≡ NexusEnd.GoesOn → others self.now nexus };

    /// Whether another session has reset a unit since this was last asked of the unit, or since the session of the caller began.
    /// It is asked whenever something was read, before commands go on that waited.
    fn was_reset(&self, unit: u8) -> bool
        ensures { IsTrue result → resets self.now unit };

    /// Notes that a reset which the session's service has made of a unit is the session's own: the service has others know of it.
    fn note_reset(&self, unit: u8);

    /// Within how many seconds all sessions are to end. `None`: they may go on. It is asked whenever a read has ended.
    fn ends_within(&self) -> Option<u16>
        ensures { IfSome result (ends self.now) };

    /// Notes whether the session of the caller holds replies. It is told whenever a read has ended, behind those replies that were sent then, and
    /// before commands are carried out of which others may have to be held.
    fn note_holding(&self, is_holding: bool);

    /// Notes the number of the command that hasn't come while others, behind it, were passed over for that, if there is one. It is told whenever a read was given up in which
    /// nothing came for a while.
    fn note_missing(&self, number: Option<SerialNumber>);

    /// How what a held reply waits for ended, if it has. It is asked of each whenever a read has ended.
    fn outcome_of(&self, ticket: ReplyTicket) -> Option<Outcome>
        ensures { IfSome result (settles self.now ticket) };
}
