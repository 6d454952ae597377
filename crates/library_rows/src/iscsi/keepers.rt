//! A keeper that settles what a script says, and units whose commands it keeps.

use iscsi_pdu::{LoginStatus, SerialNumber};
use iscsi_session::{Entrant, Joined, KeepingService, NexusEnd, SessionIdentity, SessionRegister};
use judgement::ReceivedCommand;
use library_start::{Device, unit_at};
use logical_unit::{Done, EventKind};
use scsi_cdb::{Profile, commands_at};
use scsi_nexus::Nexus;
use session::{Service, SessionFault};
use std::alloc::Global;
use std::cell::{Cell, RefCell};
use tape_server::TapeDrive;
use tickets::{Outcome, Progress, ReplyTicket, Ticket};

/// How many units there are. The last of them is absent.
pub(super) const UNITS: u8 = 4;

const ABSENT: u8 = 3;

/// What is kept of a filemark has its unit's number, of a load, a move and what has data these.
const LOADED: u8 = 7;

const MOVED: u8 = 8;

const DATA: u8 = 9;

/// How keeping a thing ended up to a number.
#[derive(Clone, Copy)]
pub(super) enum Settlement {
    Kept(u8, u64),
    Lost(u8, u64),
}

/// A keeper, and the register of sessions that goes with it.
#[derive(Drop)]
pub(super) struct Keeper {
    things: Cell<[Progress; 10]>,
    /// The unit that another session has reset, until that is told.
    reset: Cell<Option<u8>>,
    /// What it settles once it is asked for the outcome of a filemark at unit 2.
    meanwhile: Cell<&'static [Settlement]>,
    /// Whether its session held replies at the end of its last look.
    is_holding: Cell<bool>,
}

impl Keeper {
    pub(super) fn new() -> Keeper {
        Keeper {
            things: Cell::new([Progress::new(); 10]),
            reset: Cell::new(None),
            meanwhile: Cell::new(&[]),
            is_holding: Cell::new(false),
        }
    }

    /// Whether its session held replies at the end of its last look.
    pub(super) fn is_holding(&self) -> bool {
        self.is_holding.get()
    }

    /// Is asked to keep a thing.
    fn ask(&self, thing: u8) -> Ticket {
        let mut things = self.things.get();
        let number = match things.get_mut(usize::from(thing)) {
            Some(progress) => progress.ask(),
            None => 0,
        };
        self.things.set(things);
        Ticket {
            thing: u32::from(thing),
            number,
        }
    }

    fn settle(&self, thing: u8, number: u64, outcome: Outcome) {
        let mut things = self.things.get();
        if let Some(progress) = things.get_mut(usize::from(thing)) {
            progress.settle(number, outcome);
        }
        self.things.set(things);
    }

    pub(super) fn settle_all(&self, settlements: &[Settlement]) {
        for settlement in settlements {
            match *settlement {
                Settlement::Kept(thing, number) => self.settle(thing, number, Outcome::Kept),
                Settlement::Lost(thing, number) => self.settle(thing, number, Outcome::Lost),
            }
        }
    }

    pub(super) fn settle_later(&self, settlements: &'static [Settlement]) {
        self.meanwhile.set(settlements);
    }

    /// Another session has reset a unit.
    pub(super) fn note_reset(&self, unit: u8) {
        self.reset.set(Some(unit));
    }
}

impl SessionRegister for Keeper {
    fn living(&self, _nexus: Nexus, _isid: u64) -> Option<SessionIdentity> {
        None
    }

    fn end(&self, _nexus: Nexus, _session: SessionIdentity) -> bool {
        false
    }

    fn note_name(&self, _name: &[u8]) {}

    fn enter_discovery(&self) -> Result<(), LoginStatus> {
        Ok(())
    }

    fn enter(&self, _entrant: &Entrant) -> Result<Joined, LoginStatus> {
        Ok(Joined::First)
    }

    fn note_key(&self, _key: usize) {}

    fn note_login(&self, _nexus: Nexus, _name: &[u8], _joined: Joined) {}

    fn withdraw(&self, _status: LoginStatus) {}

    fn leave(&self, _nexus: Nexus) -> NexusEnd {
        NexusEnd::Lost
    }

    fn was_reset(&self, unit: u8) -> bool {
        if self.reset.get() == Some(unit) {
            self.reset.set(None);
            true
        } else {
            false
        }
    }

    fn note_reset(&self, _unit: u8) {}

    fn ends_within(&self) -> Option<u16> {
        None
    }

    fn note_holding(&self, is_holding: bool) {
        self.is_holding.set(is_holding);
    }

    fn note_missing(&self, _number: Option<SerialNumber>) {}

    fn outcome_of(&self, ticket: ReplyTicket) -> Option<Outcome> {
        let ticket = ticket.kept?;
        if ticket.thing == 2 {
            self.settle_all(self.meanwhile.get());
            self.meanwhile.set(&[]);
        }
        let things = self.things.get();
        let progress = things.get(ticket.thing as usize)?;
        progress.outcome_of(ticket.number)
    }
}

/// A command that was handed over: its operation code, its unit, and how often it was, one behind another.
pub(super) type Handed = (u8, u8, u8);

/// Units that answer BUSY, but for the absent one, and what was asked of them.
#[derive(Drop)]
pub(super) struct Units<'k> {
    pub(super) keeper: &'k Keeper,
    /// The commands that were handed over, and of each how often, one behind another.
    pub(super) handed: Vec<Handed>,
    /// The commands that were to be kept, by operation code and how many bytes were sent with them.
    pub(super) asked: RefCell<Vec<(u8, usize)>>,
    pub(super) losses: u64,
}

impl<'k> Units<'k> {
    pub(super) fn new(alloc: Global, keeper: &'k Keeper) -> Units<'k> {
        Units {
            keeper,
            handed: Vec::new(alloc),
            asked: RefCell::new(Vec::new(alloc)),
            losses: 0,
        }
    }

    fn note_handed(&mut self, operation: u8, lun: u8) {
        if let Some(last) = self.handed.last_mut() {
            if last.0 == operation && last.1 == lun {
                last.2 = last.2.saturating_add(1);
                return;
            }
        }
        let _ = self.handed.push((operation, lun, 1));
    }

    /// What the reply to a command waits for.
    fn ticket_of(&self, operation: u8, lun: u8) -> Option<Ticket> {
        match operation {
            0x10 => Some(self.keeper.ask(lun)),
            0x12 => Some(self.keeper.ask(DATA)),
            0x1B => {
                let ticket = self.keeper.ask(LOADED);
                self.keeper.settle(LOADED, ticket.number, Outcome::Kept);
                Some(ticket)
            }
            0xA5 => Some(self.keeper.ask(MOVED)),
            _ => None,
        }
    }
}

/// The operation code of a CDB.
fn operation_of(cdb: &[u8]) -> u8 {
    cdb.first().copied().unwrap_or(0xFF)
}

impl Service for Units<'_> {
    ghost notes = { λ _ _ _. Unit {0} };

    ghost count = { λ _. 4 };

    fn submit<'a>(
        &mut self,
        alloc: Global,
        nexus: Nexus,
        lun: u8,
        cdb: &'a [u8],
        bytes: &'a [u8],
    ) -> Done<'a> {
        self.note_handed(operation_of(cdb), lun);
        if lun == ABSENT {
            let received = ReceivedCommand::new(nexus, commands_at(Profile::Spec, lun), cdb, bytes);
            Done::absent(alloc, lun, &received)
        } else {
            Done::busy(alloc, Some(nexus), lun, EventKind::Command { cdb, bytes })
        }
    }

    /// The reset of a drive that was there for it alone.
    fn reset(&mut self, alloc: Global, lun: u8) -> Done<'static> {
        match unit_at(alloc, lun, UNITS, Device::Tape(TapeDrive::new())) {
            Ok(mut unit) => unit.carry_out_reset(alloc),
            Err(_) => Done::busy(alloc, None, lun, EventKind::Reset),
        }
    }

    fn lose(&mut self, alloc: Global, nexus: Nexus, lun: u8) -> Done<'static> {
        self.losses = self.losses.saturating_add(1);
        Done::absent_loss(alloc, nexus, lun)
    }

    fn units(&self) -> u8 {
        4
    }

    fn login(&mut self, _nexus: Nexus) -> Result<usize, SessionFault> {
        Ok(7)
    }

    fn logout(&mut self, _key: usize) {}
}

impl KeepingService for Units<'_> {
    ghost waits = { λ _ _. Unit {0} };

    fn ticket_for(&self, done: &Done<'_>, length: usize) -> Option<ReplyTicket> {
        let operation = match done.asked() {
            EventKind::Command { cdb, .. } => operation_of(cdb),
            EventKind::Loss | EventKind::Reset => 0xFF,
        };
        if let Ok(mut asked) = self.asked.try_borrow_mut() {
            let _ = asked.push((operation, length));
        }
        let kept = self.ticket_of(operation, done.lun())?;
        Some(ReplyTicket {
            kept: Some(kept),
            handed_out: None,
        })
    }

    fn join(&mut self, _nexus: Nexus) {}
}
