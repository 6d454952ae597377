//! The requests of a keeper, which its threads share: what is to be kept is asked for here, and its threads take that and say how it ended. The
//! lock is held for a moment only: nothing is copied and nobody is told meanwhile, and no other lock is taken.

ghost use Rattle.std.specs.Prelude.{◌≡◌, IfOk, IfSome, Some};
ghost use Rattle.saved_media.specs.Items.{item_at, numbered};
ghost use Rattle.saved_media.specs.Saving.{IsAskedFor, kept_ticket, lost_ticket};
ghost use Rattle.saved_media.specs.declared.item.KeptItem.TheVariants as kept_item;
ghost use Rattle.tickets.specs.declared.ticket.Outcome.TheVariants as outcome;

use crate::conditions::Conditions;
use crate::item::{ItemNumbers, KeptItem};
use crate::requests::{Requests, TURN, Task};
use std::alloc::{AllocError, Global};
use std::sync::{Condvar, Mutex, Wait};
use std::time::{Clock, Duration, Instant};
use tape_keeper::KeepPlace;
use tickets::{Outcome, Ticket};

/// The requests, and conditions by which threads wait.
#[derive(Drop)]
pub(crate) struct SharedRequests {
    /// Those of what may be asked for.
    numbers: ItemNumbers,
    requests: Mutex<Requests>,
    /// Something is to be done, or the library ends.
    asked: Conditions,
    /// Something is settled, or the library ends.
    settled: Condvar,
}

impl SharedRequests {
    /// Nothing was asked for of a library with so many images.
    pub fn new(alloc: Global, images: usize) -> Result<SharedRequests, AllocError>
        ensures { IfOk result (λ requests. requests.numbers.images ≡ numbered images) }
    {
        let numbers = ItemNumbers::new(images);
        Ok(SharedRequests {
            numbers,
            requests: Mutex::new(Requests::new(alloc, numbers)?),
            asked: Conditions::new(),
            settled: Condvar::new(),
        })
    }

    /// Asks that an item be kept, at a place.
    pub fn ask<R: Wait>(&self, rt: &R, item: KeptItem, place: KeepPlace) -> Ticket
        ensures { IsAskedFor self.now.numbers.images item result }
    {
        let mut requests = self.requests.lock(rt);
        let ticket = requests.ask(self.numbers, item, place);
        self.asked.notify(place, requests.is_served(place));
        ticket
    }

    /// Takes what is to be done next by a thread at a place.
    pub fn next<R: Wait>(&self, rt: &R, place: KeepPlace) -> Option<Task>
        ensures { IfSome result (λ task. item_at self.now.numbers.images task.until.thing ≡ Some task.item) }
    {
        self.requests.lock(rt).next(self.numbers, place)
    }

    /// Notes how a task ended.
    pub fn settle<R: Wait>(&self, rt: &R, task: Task, outcome: Outcome) {
        self.requests.lock(rt).settle(task, outcome);
        self.settled.notify_all();
    }

    /// How keeping what a ticket is for ended, if it has.
    pub fn outcome_of<R: Wait>(&self, rt: &R, ticket: Ticket) -> Option<Outcome>
        ensures kept { ticket ≡ kept_ticket → result ≡ Some outcome.Kept }
        ensures lost { ticket ≡ lost_ticket → result ≡ Some outcome.Lost }
    {
        self.requests.lock(rt).outcome_of(ticket)
    }

    /// Waits until keeping what a ticket is for has ended, and says how.
    pub fn await_outcome<R: Wait>(&self, rt: &R, ticket: Ticket) -> Outcome
        ensures kept { ticket ≡ kept_ticket → result ≡ outcome.Kept }
        ensures lost { ticket ≡ lost_ticket → result ≡ outcome.Lost }
    {
        let requests = self.requests.lock(rt);
        let requests = self.settled.wait_while(
            rt,
            requests,
            |requests| requests.outcome_of(ticket).is_none(),
        );
        requests.outcome_of(ticket).unwrap_or(Outcome::Lost)
    }

    /// Notes that so many bytes more were written to the volume in a drive. Where that makes too many, what the reply has to wait for.
    pub fn add<R: Wait>(&self, rt: &R, lun: u8, bytes: u64) -> Option<Ticket>
        ensures { IfSome result (IsAskedFor self.now.numbers.images (kept_item.Backlog lun)) }
    {
        let mut requests = self.requests.lock(rt);
        if requests.add(lun, bytes) {
            let place = KeepPlace::Drive(lun);
            self.asked.notify(place, requests.is_served(place));
        }
        requests.wait_for_backlog(self.numbers, lun)
    }

    /// How many items were asked for that are still to be kept.
    pub fn awaited<R: Wait>(&self, rt: &R) -> usize {
        self.requests.lock(rt).awaited()
    }

    /// How many bytes aren't copied yet at a drive.
    pub fn behind<R: Wait>(&self, rt: &R, lun: u8) -> u64 {
        self.requests.lock(rt).behind(lun)
    }

    /// So many fewer are. Whether that settles something.
    pub fn take<R: Wait>(&self, rt: &R, lun: u8, bytes: u64) -> bool {
        let is_settled = self.requests.lock(rt).take(self.numbers, lun, bytes);
        self.wake_settled(is_settled)
    }

    /// They couldn't be copied. Whether that settles something.
    pub fn stick<R: Wait>(&self, rt: &R, lun: u8) -> bool {
        let is_settled = self.requests.lock(rt).stick(self.numbers, lun);
        self.wake_settled(is_settled)
    }

    /// Wakes the threads that wait for something to be settled, if something is.
    fn wake_settled(&self, is_settled: bool) -> bool {
        if is_settled {
            self.settled.notify_all();
        }
        is_settled
    }

    /// Whether a thread at a place copies what isn't copied yet at a drive.
    pub fn looks_after<R: Wait>(&self, rt: &R, place: KeepPlace, lun: u8) -> bool {
        self.requests.lock(rt).looks_after(place, lun)
    }

    /// Waits until something is to be done by a thread at a place, for a turn at most where something will be by then, or the library ends.
    /// Whether it goes on.
    pub fn await_turn<R: Clock + Wait>(&self, rt: &R, place: KeepPlace) -> bool {
        let mut requests = self.requests.lock(rt);
        requests.serve(place);
        let asked = self.asked.at(place);
        let requests = asked.wait_while(rt, requests, |requests| requests.is_asleep(place));
        let turn = Duration::from_millis(TURN);
        let (requests, _) = asked.wait_timeout_while(
            rt,
            requests,
            turn,
            |requests| requests.is_idle(place),
        );
        !requests.is_over()
    }

    /// Whether what couldn't be copied is to be tried again: a turn after the last time, or where no clock says how long that is.
    pub fn is_retry_due<R: Clock + Wait>(&self, rt: &R) -> bool {
        match Instant::now(rt) {
            Ok(now) => self.requests.lock(rt).is_retry_due(now),
            Err(_) => true,
        }
    }

    /// The library ends: nobody waits any more.
    pub fn end<R: Wait>(&self, rt: &R) {
        self.requests.lock(rt).end(self.numbers);
        self.asked.notify_all();
        self.settled.notify_all();
    }
}
