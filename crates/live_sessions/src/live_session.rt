//! A session that goes on, and how far it has come.

use crate::no_room::NoRoom;
use crate::session_counts::SessionCounts;
use arrayvec::ArrayVec;
use iscsi_keys::{LONGEST_NAME, is_same_name};
use iscsi_session::{Entrant, NexusEnd, SessionIdentity};
use scsi_nexus::Nexus;
use std::alloc::Global;
use std::net::{IpAddr, Shutdown, SocketAddr};
use std::os::unix::net::UnixStream;
use std::sync::Arc;
use std::time::SystemTime;

/// The iSCSI name that an initiator has given, empty where it has given none.
pub type InitiatorName = ArrayVec<u8, LONGEST_NAME>;

/// Who a session of iSCSI is.
#[derive(Clone, Copy, PartialEq, Eq)]
pub struct Initiator {
    pub nexus: Nexus,
    pub session: SessionIdentity,
}

/// Where a connection came from, and the portal group that it came to.
#[derive(Clone, Copy)]
pub struct Origin {
    pub peer: SocketAddr,
    pub group: u16,
}

/// What is to be reported of a session that goes on.
#[derive(Drop)]
pub struct SessionReport {
    /// Its place in the order of accepting, from 1 on.
    pub number: u64,
    /// Of whom it is, once its host is let in.
    pub nexus: Option<Nexus>,
    /// The name that its initiator has given, empty where it has given none.
    pub name: InitiatorName,
    /// The address that it came from, at a portal.
    pub address: Option<IpAddr>,
    /// When it began, where the clock could be read.
    pub start: Option<SystemTime>,
    /// How many commands it has sent.
    pub commands: u64,
    /// How many bytes came, and were sent.
    pub received: u64,
    pub sent: u64,
}

/// How the nexus of a session stands.
#[derive(Clone, Copy)]
pub(crate) enum Standing {
    /// It hasn't entered the directory yet.
    Enters,
    /// It has this key in the directory.
    IsIn(usize),
    /// It is being lost.
    IsLost,
}

/// A session that was let in as one of a nexus.
#[derive(Clone, Copy)]
pub(crate) struct Member {
    pub initiator: Initiator,
    /// The place among the secrets of what its initiator has proved.
    pub proved: Option<usize>,
    pub standing: Standing,
}

/// How far a session has come.
#[derive(Clone, Copy)]
enum Stage {
    /// Nobody has logged in, or it is one of frames.
    BeforeLogin,
    Discovery,
    Normal(Member),
    /// It has left its nexus to others.
    HasLeft,
}

/// What a session begins with.
#[derive(Drop)]
pub(crate) struct Connected {
    /// A second descriptor of its stream.
    pub stream: UnixStream,
    /// When it began, where the clock could be read.
    pub start: Option<SystemTime>,
    /// What its own thread counts.
    pub counts: Arc<SessionCounts, Global>,
}

/// A session that goes on.
#[derive(Drop)]
pub(crate) struct LiveSession {
    stream: UnixStream,
    /// Its place in the order of accepting, from 1 on.
    number: u64,
    /// Where it came from, at a portal.
    origin: Option<Origin>,
    /// When it began, where the clock could be read.
    start: Option<SystemTime>,
    /// What its own thread counts.
    counts: Arc<SessionCounts, Global>,
    /// What is the target's part of its session's identifier, unless it takes the place of another connection.
    tsih: u16,
    name: InitiatorName,
    stage: Stage,
    /// Why its initiator wasn't let in, where its login was as it should be.
    no_room: Option<NoRoom>,
}

impl LiveSession {
    /// One that has just begun.
    pub fn new(
        connected: Connected,
        number: u64,
        origin: Option<Origin>,
        tsih: u16,
    ) -> LiveSession {
        let Connected {
            stream,
            start,
            counts,
        } = connected;
        LiveSession {
            stream,
            number,
            origin,
            start,
            counts,
            tsih,
            name: ArrayVec::new(),
            stage: Stage::BeforeLogin,
            no_room: None,
        }
    }

    pub fn number(&self) -> u64 {
        self.number
    }

    pub fn name(&self) -> &[u8] {
        self.name.as_slice()
    }

    pub fn name_copy(&self) -> InitiatorName {
        let mut name = ArrayVec::new();
        // There is as much room.
        let _ = name.try_extend_from_slice(self.name());
        name
    }

    /// What is to be reported of it.
    pub fn report(&self) -> SessionReport {
        SessionReport {
            number: self.number,
            nexus: self.counts.nexus(),
            name: self.name_copy(),
            address: self.address(),
            start: self.start,
            commands: self.counts.commands(),
            received: self.counts.received(),
            sent: self.counts.sent(),
        }
    }

    /// What its own thread counts.
    pub fn counts(&self) -> &SessionCounts {
        &self.counts
    }

    /// Why its initiator wasn't let in, where its login was as it should be.
    pub fn no_room(&self) -> Option<NoRoom> {
        self.no_room
    }

    /// The address that it came from, at a portal.
    pub fn address(&self) -> Option<IpAddr> {
        Some(self.origin?.peer.ip().to_canonical())
    }

    /// It as one of a nexus, if it is.
    pub fn member_of(&self, nexus: Nexus) -> Option<Member> {
        let member = self.member()?;
        if member.initiator.nexus == nexus {
            Some(member)
        } else {
            None
        }
    }

    pub fn is_of(&self, initiator: Initiator) -> bool {
        match self.member() {
            Some(member) => member.initiator == initiator,
            None => false,
        }
    }

    /// Whether its nexus is about to enter the directory, or to leave it.
    pub fn is_changing(&self, nexus: Nexus) -> bool {
        match self.member_of(nexus) {
            Some(member) => match member.standing {
                Standing::Enters | Standing::IsLost => true,
                Standing::IsIn(_) => false,
            },
            None => false,
        }
    }

    /// Whether it came from the address, and nobody has logged in.
    pub fn waits_from(&self, address: IpAddr) -> bool {
        match self.stage {
            Stage::BeforeLogin => self.address() == Some(address),
            Stage::Discovery | Stage::Normal(_) | Stage::HasLeft => false,
        }
    }

    /// Whether its initiator has logged in at the portal of this group.
    pub fn is_in_at(&self, group: u16) -> bool {
        match self.stage {
            Stage::BeforeLogin => false,
            Stage::Discovery | Stage::Normal(_) | Stage::HasLeft => self.group() == Some(group),
        }
    }

    /// The portal group that it came to.
    pub fn group(&self) -> Option<u16> {
        Some(self.origin?.group)
    }

    pub fn has_tsih(&self, tsih: u16) -> bool {
        let of_member = match self.member() {
            Some(member) => member.initiator.session.tsih == tsih,
            None => false,
        };
        of_member || self.tsih == tsih
    }

    /// Why an entrant of this name can't be one of the same nexus as this session, wherever it comes from.
    pub fn objection(&self, entrant: &Entrant, name: &[u8]) -> Option<NoRoom> {
        let member = self.member_of(entrant.nexus)?;
        if !is_same_name(self.name(), name) {
            Some(NoRoom::Name)
        } else if member.proved != entrant.proved {
            Some(NoRoom::Secret)
        } else if member.initiator.session.isid == entrant.session.isid {
            Some(NoRoom::Isid)
        } else {
            None
        }
    }

    /// Notes the name of its initiator. One that is longer than a name may be isn't noted, and isn't let in.
    pub fn note_name(&mut self, name: &[u8]) {
        self.name.clear();
        let _ = self.name.try_extend_from_slice(name);
    }

    /// Notes why its initiator isn't let in.
    pub fn note_no_room(&mut self, no_room: NoRoom) {
        self.no_room = Some(no_room);
    }

    pub fn enter_discovery(&mut self) {
        self.stage = Stage::Discovery;
    }

    pub fn enter(&mut self, entrant: &Entrant, standing: Standing) {
        self.stage = Stage::Normal(Member {
            initiator: Initiator {
                nexus: entrant.nexus,
                session: entrant.session,
            },
            proved: entrant.proved,
            standing,
        });
    }

    /// Its nexus has this key in the directory.
    pub fn note_key(&mut self, key: usize) {
        self.stand(Standing::IsIn(key));
    }

    /// Notes how its nexus stands, if it is one of a nexus.
    fn stand(&mut self, standing: Standing) {
        if let Some(member) = self.member() {
            self.stage = Stage::Normal(Member { standing, ..member });
        }
    }

    /// Its initiator isn't let in after all.
    pub fn withdraw(&mut self) {
        self.stage = Stage::BeforeLogin;
    }

    /// It ends.
    pub fn leave(&mut self, end: NexusEnd) {
        match end {
            NexusEnd::Lost => self.stand(Standing::IsLost),
            NexusEnd::GoesOn => self.stage = Stage::HasLeft,
        }
    }

    /// Shuts its stream down, of which it then reads the end.
    pub fn shut_down(&self) {
        // One that can't be has ended by itself.
        let _ = self.stream.shutdown(Shutdown::Both);
    }

    /// It as one of a nexus, if it is one.
    pub fn member(&self) -> Option<Member> {
        match self.stage {
            Stage::Normal(member) => Some(member),
            Stage::BeforeLogin | Stage::Discovery | Stage::HasLeft => None,
        }
    }
}
