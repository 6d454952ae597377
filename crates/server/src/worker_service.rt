ghost use Rattle.server.specs.SeatService.{MaySettle};

use crate::event::Event;
use crate::keeping::KeepTeller;
use crate::record_drain::RecordDrain;
use crate::session_flags::SessionFlags;
use crate::teller::Teller;
use iscsi_session::KeepingService;
use live_sessions::ResetCounts;
use logical_unit::{ActKind, Done};
use scsi_cdb::Class;
use scsi_nexus::Nexus;
use scsi_sense::{Status, is_carried_out};
use session::{SeatService, Service, SessionFault};
use std::alloc::Global;
use std::io::Write;
use std::marker::Model;
use std::sync::Wait;
use tape_keeper::{CarriedOutCommand, TapeKeeper};
use tickets::{Outcome, RecordTicket, ReplyTicket, Ticket};

/// A seat that has noted so many calls since they were settled is settled again.
const MANY: usize = 1024;

/// How many records a session of iSCSI may leave at units that are full, but for those whose replies were sent, before it waits itself: as
/// many as replies may be held, and some resets.
const MOST_UNPACED: u32 = 96;

/// As `WorkerService::note_record`, where records are handed out.
fn note_record_with<S: SeatService, R: Wait>(
    rt: &R,
    service: &mut S,
    drain: &RecordDrain,
    record: RecordTicket,
) -> bool
    ensures { MaySettle S.settles service.old service.new }
{
    let is_full = drain.ask_within_session(rt, record);
    if service.noted() >= MANY {
        settle_with(service, drain);
    }
    is_full
}

/// As `WorkerService::finish`, where records are handed out.
fn finish_with<S: SeatService, R: Wait>(rt: &R, service: &mut S, drain: &RecordDrain)
    ensures { MaySettle S.settles service.old service.new }
{
    drain.ask(rt);
    settle_with(service, drain);
}

/// Settles the seat by what was handed out so far. Where that finds no room, it is tried again later.
#[cold]
#[inline(never)]
fn settle_with<S: SeatService>(service: &mut S, drain: &RecordDrain)
    ensures { MaySettle S.settles service.old service.new }
{
    let Ok(()) = service.settle(&drain.numbers()) else {
        return;
    };
}

/// The last record that a call left at its unit. With number 0 there is none.
fn record_of(done: &Done<'_>) -> RecordTicket {
    RecordTicket {
        lun: done.lun(),
        number: done.receipt().reply.number,
    }
}

/// Whether a command that was carried out wrote blocks or filemarks.
fn has_written(done: &Done<'_>) -> bool {
    matches!(
        done.act(),
        Some(ActKind::Command(Class::Write)) | Some(ActKind::Command(Class::WriteFilemarks))
    )
}

/// What a session does with a reply that waits, for something to be kept or for records to be handed out.
#[derive(Clone, Copy)]
pub(crate) enum Replies {
    /// It waits itself, and answers nothing else meanwhile: a session of frames, whose host reads one reply after another.
    InPlace,
    /// It holds the reply and goes on: a session of iSCSI.
    Held,
}

/// What is known of a session that goes on.
#[derive(Clone, Copy)]
pub(crate) struct SessionSoFar {
    pub replies: Replies,
    /// The nexus that asked last to be let in.
    pub nexus: Option<Nexus>,
    /// How many commands it has sent.
    pub commands: u64,
    /// The last record that it has left at a unit which was full by it.
    pub awaited: Option<RecordTicket>,
    /// Whether its last command has left it.
    pub is_full: bool,
    /// The unit at which a write of its was BUSY for want of memory, and none was carried out since.
    pub without_memory: Option<u8>,
}

impl SessionSoFar {
    ghost use Rattle.std.specs.Prelude.{◌≡◌, None};

    /// One whose host isn't logged in yet.
    pub fn new(replies: Replies) -> SessionSoFar
        ensures replies { result.replies ≡ replies }
        ensures nobody { result.nexus ≡ None }
        ensures none { result.commands ≡ 0 }
    {
        SessionSoFar {
            replies,
            nexus: None,
            commands: 0,
            awaited: None,
            is_full: false,
            without_memory: None,
        }
    }

    /// Notes that a command was carried out: if it wrote at the unit that had no memory, there is memory again.
    fn note_memory(&mut self, done: &Done<'_>) {
        if self.without_memory == Some(done.lun()) && has_written(done) {
            self.without_memory = None;
        }
    }
}

/// What a worker serves its sessions by, one after another. It has a library's service, and also asks that records be handed out
/// where a unit has many of them, settles its seat, has tapes kept, reports commands that were BUSY, and counts resets.
#[derive(Drop)]
pub(crate) struct WorkerService<'a, S: SeatService, K: TapeKeeper, R: Wait, E: Write> {
    pub seat_service: S,
    pub keeper: &'a K,
    pub rt: &'a R,
    /// Where records are handed out, if they are.
    pub drain: Option<&'a RecordDrain>,
    pub teller: &'a Teller<E>,
    pub flags: &'a SessionFlags,
    /// The flags of all workers' sessions, its own among them.
    pub sessions: &'a [SessionFlags],
    /// The resets of all sessions, which end the tasks that wait in those of iSCSI.
    pub resets: &'a ResetCounts,
    pub session: SessionSoFar,
}

impl<'a, S: SeatService, K: TapeKeeper, R: Wait, E: Write> Model for WorkerService<'a, S, K, R, E> {
    ghost Value = { S };

    ghost view = { λ p. p.seat_service };
}

impl<'a, S: SeatService, K: TapeKeeper, R: Wait, E: Write> WorkerService<'a, S, K, R, E> {
    ghost use Rattle.std.specs.Prelude.{◌≡◌};
    ghost use Rattle.server.specs.Keeping.{KeepsWhereSaid};

    /// Reports a command that was BUSY, and whether because no slot was free. A host sends what finds no memory again and again: that is
    /// reported once, until a write is carried out there.
    #[cold]
    #[inline(never)]
    fn tell_busy(&mut self, nexus: Nexus, lun: u8)
        ensures { self.new ≡ self.old }
    {
        if !self.seat_service.has_room(nexus, lun) {
            self.teller.tell(self.rt, &Event::NoSlot(nexus, lun));
        } else if self.session.without_memory != Some(lun) {
            self.session.without_memory = Some(lun);
            self.teller.tell(self.rt, &Event::Busy(nexus, lun));
        }
    }

    /// Begins to keep what a command left, if it was carried out, and with which so many bytes were sent, and gives the ticket that its
    /// reply has to wait for: also a write that ended at early warning.
    fn begin_to_keep(&self, done: &Done<'_>, length: usize) -> Option<Ticket>
        ensures { KeepsWhereSaid K.says_kept done.now result }
    {
        let reply = &done.receipt().reply;
        if !is_carried_out(reply.status, reply.sense) {
            return None;
        }
        let class = match done.act() {
            Some(ActKind::Command(class)) => class,
            Some(ActKind::Invalid)
            | Some(ActKind::Loss)
            | Some(ActKind::Reset)
            | Some(ActKind::Medium)
            | None => return None,
        };
        let command = CarriedOutCommand {
            lun: done.lun(),
            class,
            is_immediate: done.is_immediate(),
            volume: done.volume(),
            length,
        };
        let listener = KeepTeller {
            rt: self.rt,
            teller: self.teller,
            sessions: self.sessions,
        };
        self.keeper.begin(self.rt, &listener, command)
    }

    /// Keeps what a command left that was carried out, where its session waits for that. Where it is lost the session's replies are sent no
    /// more.
    fn keep_in_place(&self, done: &Done<'_>, length: usize) {
        match self.session.replies {
            Replies::Held => {}
            Replies::InPlace => self.keep_and_wait(done, length),
        }
    }

    /// Keeps what a command left that was carried out, and waits for that.
    #[inline(never)]
    fn keep_and_wait(&self, done: &Done<'_>, length: usize) {
        if let Some(ticket) = self.begin_to_keep(done, length) {
            self.await_kept(ticket);
        }
    }

    /// Waits until what a ticket is for is kept. Where it is lost the session's replies are sent no more.
    fn await_kept(&self, ticket: Ticket) {
        match self.keeper.await_outcome(self.rt, ticket) {
            Outcome::Kept => {}
            Outcome::Lost => self.flags.lose(),
        }
    }

    /// Does what a command needs next, with which so many bytes were sent: keeps it or reports it, and notes its record.
    #[inline(never)]
    fn note_command(&mut self, nexus: Nexus, done: &Done<'_>, length: usize)
        ensures { MaySettle S.settles self.old self.new }
    {
        self.session.commands = self.session.commands.saturating_add(1);
        self.flags.counts().note_command();
        let reply = &done.receipt().reply;
        if reply.status == Status::Busy {
            self.tell_busy(nexus, done.lun());
        }
        if is_carried_out(reply.status, reply.sense) {
            self.session.note_memory(done);
            self.keep_in_place(done, length);
        }
        let record = record_of(done);
        self.session.is_full = self.note_record(record);
        if self.session.is_full {
            self.pace(record);
        }
    }

    /// Asks that records be handed out where the unit has many, up to this one, and settles the seat where it has noted many calls. Whether
    /// the unit is full.
    fn note_record(&mut self, record: RecordTicket) -> bool
        ensures { MaySettle S.settles self.old self.new }
    {
        match self.drain {
            Some(drain) => note_record_with(self.rt, &mut self.seat_service, drain, record),
            None => false,
        }
    }

    /// Waits until the unit of a record isn't full any more.
    fn await_room(&self, record: RecordTicket) {
        match self.drain {
            Some(drain) => drain.await_room(self.rt, record),
            None => {}
        }
    }

    /// After a record by which a unit is full a session of frames waits. One of iSCSI goes on, and its reply waits: but task management drops
    /// replies, and a reset and a loss have none. So that their records have a bound too, it waits once it has left many.
    #[cold]
    #[inline(never)]
    fn pace(&mut self, record: RecordTicket)
        ensures { self.new ≡ self.old }
    {
        self.session.awaited = Some(record);
        match self.session.replies {
            Replies::InPlace => self.await_room(record),
            Replies::Held => {
                if self.flags.unpaced() >= MOST_UNPACED {
                    self.await_room(record);
                    self.flags.forget_unpaced();
                    self.session.is_full = false;
                }
            }
        }
    }

    /// After the loss of its nexus a session of frames waits too. One of iSCSI doesn't: others may wait for its end.
    fn end_behind(&mut self, record: RecordTicket)
        ensures { self.new ≡ self.old }
    {
        self.session.awaited = Some(record);
        match self.session.replies {
            Replies::InPlace => self.await_room(record),
            Replies::Held => {}
        }
    }

    /// Asks after a session that all records be handed out, and settles the seat. Where it has left records at a unit that is full, it waits
    /// before the next session.
    pub fn finish(&mut self)
        ensures { MaySettle S.settles self.old self.new }
    {
        match self.drain {
            Some(drain) => finish_with(self.rt, &mut self.seat_service, drain),
            None => {}
        }
        if let Some(record) = self.session.awaited {
            self.await_room(record);
        }
    }

    /// The record of the last command, if its unit is full by it.
    fn record_to_await(&self, done: &Done<'_>) -> Option<RecordTicket> {
        if self.session.is_full {
            Some(record_of(done))
        } else {
            None
        }
    }

    /// The library's service, once there are no more sessions.
    pub fn into_seat_service(self) -> S
        ensures { result ≡ self.entry }
    {
        let WorkerService { seat_service, .. } = self;
        seat_service
    }
}

impl<'a, S: SeatService, K: TapeKeeper, R: Wait, E: Write> Service
    for WorkerService<'a, S, K, R, E> {
    ghost use Rattle.server.specs.SeatService.{DoesForWorker};

    ghost notes = { DoesForWorker S.notes S.settles };

    ghost count = { S.count };

    fn submit<'b>(
        &mut self,
        alloc: Global,
        nexus: Nexus,
        lun: u8,
        cdb: &'b [u8],
        bytes: &'b [u8],
    ) -> Done<'b> {
        let done = self.seat_service.submit(alloc, nexus, lun, cdb, bytes);
        self.note_command(nexus, &done, bytes.len());
        done
    }

    fn reset(&mut self, alloc: Global, lun: u8) -> Done<'static> {
        let done = self.seat_service.reset(alloc, lun);
        let reply = &done.receipt().reply;
        // It counts before it is answered, and only if the unit has carried it out.
        if reply.status == Status::Good {
            self.resets.add(lun);
        }
        let record = record_of(&done);
        if self.note_record(record) {
            self.flags.note_unpaced();
            self.pace(record);
        }
        done
    }

    fn lose(&mut self, alloc: Global, nexus: Nexus, lun: u8) -> Done<'static> {
        let done = self.seat_service.lose(alloc, nexus, lun);
        let record = record_of(&done);
        if self.note_record(record) {
            self.end_behind(record);
        }
        done
    }

    fn units(&self) -> u8 {
        self.seat_service.units()
    }

    fn login(&mut self, nexus: Nexus) -> Result<usize, SessionFault> {
        self.session.nexus = Some(nexus);
        let entered = self.seat_service.login(nexus);
        if entered.is_ok() {
            self.flags.come_in();
            self.flags.counts().note_nexus(nexus);
        }
        entered
    }

    fn logout(&mut self, key: usize) {
        self.seat_service.logout(key)
    }
}

impl<'a, S: SeatService, K: TapeKeeper, R: Wait, E: Write> KeepingService
    for WorkerService<'a, S, K, R, E> {
    ghost use Rattle.server.specs.Keeping.{WaitsWhereKept};

    ghost waits = { WaitsWhereKept K.says_kept };

    fn ticket_for(&self, done: &Done<'_>, length: usize) -> Option<ReplyTicket> {
        let kept = self.begin_to_keep(done, length);
        let handed_out = self.record_to_await(done);
        if kept.is_none() && handed_out.is_none() {
            return None;
        }
        if handed_out.is_some() {
            self.flags.note_unpaced();
        }
        self.flags.hold();
        Some(ReplyTicket { kept, handed_out })
    }

    fn join(&mut self, nexus: Nexus) {
        self.session.nexus = Some(nexus);
        self.flags.come_in();
        self.flags.counts().note_nexus(nexus);
    }
}
