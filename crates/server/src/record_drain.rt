//! Where workers ask that a library's records be handed out while it is served, which one thread does.

use crate::handed_out::HandedOut;
use std::sync::atomic::{AtomicBool, Ordering};
use std::sync::{Condvar, Mutex, Wait};
use std::time::{Clock, Duration};
use tickets::RecordTicket;

/// A unit with so many records hands them out within a session.
const MANY: u64 = 4096;

/// Where a unit has so many, its hosts wait for the thread that writes. With what eight sessions may leave in addition, they are
/// fewer than 8,192: a trail's room is doubled as it grows, and needn't be doubled again.
const MOST: u64 = 6144;

/// After so many seconds records that are written into a file are taken again.
const SECONDS: u64 = 1;

/// What the thread that writes is at.
#[derive(Clone, Copy)]
enum Phase {
    /// It hasn't begun, or has ended.
    Absent,
    /// It waits until it is asked.
    Waiting,
    /// It takes and writes records.
    Writing,
}

/// What the thread that writes is at, and what it is asked.
#[derive(Clone, Copy)]
struct DrainState {
    phase: Phase,
    /// Whether it was asked since it began to take records the last time.
    is_due: bool,
    /// Whether no worker will ask any more.
    is_over: bool,
}

impl DrainState {
    /// Whether records are being handed out, or will be as soon as the thread goes on.
    fn is_under_way(&self) -> bool {
        match self.phase {
            Phase::Absent => false,
            Phase::Waiting => self.is_due,
            Phase::Writing => true,
        }
    }
}

/// Where workers ask that records be handed out, and one thread does it: no worker writes, and so none is held up by the reader of
/// the lines, but where a unit has very many records. Then a session of frames waits, and one of iSCSI holds its replies.
#[derive(Drop)]
pub struct RecordDrain {
    handed_out: HandedOut,
    /// Whether lines couldn't be written the last time.
    is_failing: AtomicBool,
    state: Mutex<DrainState>,
    /// Notified when handing out is due, and when no worker will ask any more.
    asked: Condvar,
    /// Notified when a unit's records were taken, and when the thread is done with all.
    went_on: Condvar,
}

impl RecordDrain {
    /// Nothing was handed out.
    pub fn new() -> RecordDrain {
        RecordDrain {
            handed_out: HandedOut::new(),
            is_failing: AtomicBool::new(false),
            state: Mutex::new(DrainState {
                phase: Phase::Absent,
                is_due: false,
                is_over: false,
            }),
            asked: Condvar::new(),
            went_on: Condvar::new(),
        }
    }

    /// Up to which number each unit's records were handed out, by LUN.
    pub(crate) fn numbers(&self) -> [u64; 5] {
        self.handed_out.numbers()
    }

    /// Notes that a unit's records up to a number were taken, so that commands which wait for that go on.
    pub fn note<R: Wait>(&self, rt: &R, lun: u8, last: u64) {
        self.handed_out.note(lun, last);
        // A thread that has looked at the numbers and is about to wait has the lock until it does.
        drop(self.state.lock(rt));
        self.went_on.notify_all();
    }

    /// Whether a unit's record of this number is one too many to be kept within a session. Where lines can't be
    /// written, that is asked once for each so many records.
    fn has_many(&self, lun: u8, number: u64) -> bool {
        let waiting = self.handed_out.waiting(lun, number);
        waiting >= MANY && (!self.is_failing.load(Ordering::SeqCst) || waiting % MANY == 0)
    }

    /// Asks that the records so far be handed out.
    pub(crate) fn ask<R: Wait>(&self, rt: &R) {
        self.state.lock(rt).is_due = true;
        self.asked.notify_all();
    }

    /// Asks that the records so far be handed out, within a session, where a unit has many, up to this one. Whether the unit is full.
    pub(crate) fn ask_within_session<R: Wait>(&self, rt: &R, record: RecordTicket) -> bool {
        if !self.has_many(record.lun, record.number) {
            return false;
        }
        self.ask(rt);
        self.is_full(rt, record)
    }

    /// Whether very many records of a unit wait, up to this one, and are being handed out or will be.
    pub(crate) fn is_full<R: Wait>(&self, rt: &R, record: RecordTicket) -> bool {
        self.handed_out.waiting(record.lun, record.number) >= MOST
            && self.state.lock(rt).is_under_way()
    }

    /// Waits until they are fewer, or couldn't be written.
    pub(crate) fn await_room<R: Wait>(&self, rt: &R, record: RecordTicket) {
        let state = self.state.lock(rt);
        let _state = self.went_on.wait_while(rt, state, |state| {
            state.is_under_way() && self.handed_out.waiting(record.lun, record.number) >= MOST
        });
    }

    /// No worker will ask any more: what is due is still handed out.
    pub(crate) fn end<R: Wait>(&self, rt: &R) {
        self.state.lock(rt).is_over = true;
        self.asked.notify_all();
    }

    /// Waits until records are to be handed out, or no worker will ask any more. Whether they are.
    pub fn await_turn<R: Wait>(&self, rt: &R) -> bool {
        let mut state = self.state.lock(rt);
        state.phase = Phase::Waiting;
        self.went_on.notify_all();
        let mut state = self
            .asked
            .wait_while(rt, state, |state| !state.is_due && !state.is_over);
        let is_due = state.is_due;
        state.is_due = false;
        state.phase = if is_due {
            Phase::Writing
        } else {
            Phase::Absent
        };
        is_due
    }

    /// Waits until records are to be handed out, a second has passed, or no worker will ask any more. Whether they are to be taken.
    pub fn await_second<R: Clock + Wait>(&self, rt: &R) -> bool {
        let mut state = self.state.lock(rt);
        state.phase = Phase::Waiting;
        self.went_on.notify_all();
        let pause = Duration::from_secs(SECONDS);
        let (mut state, _) = self
            .asked
            .wait_timeout_while(rt, state, pause, |state| !state.is_due && !state.is_over);
        let is_turn = state.is_due || !state.is_over;
        state.is_due = false;
        state.phase = if is_turn {
            Phase::Writing
        } else {
            Phase::Absent
        };
        is_turn
    }

    /// Notes whether lines can't be written now. Whether they couldn't the last time.
    pub fn note_failing(&self, is_failing: bool) -> bool {
        self.is_failing.swap(is_failing, Ordering::SeqCst)
    }
}
