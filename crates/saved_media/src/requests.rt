//! What a keeper is asked for, and how far that is done.

ghost use Rattle.std.specs.Prelude.{◌≡◌, ◌<◌, ◌-◌, ◌^◌, IfOk, IfSome, Some, slice_get, vec_len};
ghost use Rattle.saved_media.specs.Items.{item_at};
ghost use Rattle.saved_media.specs.Saving.{IsAskedFor, kept_ticket, lost_ticket};
ghost use Rattle.saved_media.specs.declared.item.KeptItem.TheVariants as kept_item;
ghost use Rattle.tickets.specs.declared.ticket.Outcome.TheVariants as outcome;
ghost use Rattle.tickets.specs.Progresses.{next_number};

use crate::backlog::Backlogs;
use crate::item::{ItemNumbers, KeptItem};
use crate::job::Job;
use crate::queues::{Queued, Queues};
use std::alloc::{AllocError, Global};
use std::time::{Duration, Instant};
use tape_keeper::KeepPlace;
use tickets::{Outcome, Ticket};

/// After so many milliseconds what was written is copied, and what couldn't be kept is tried again.
pub(crate) const TURN: u64 = 500;

/// The drives of a library, by LUN.
const DRIVES: [u8; 4] = [1, 2, 3, 4];

/// A ticket of nothing, which is kept.
pub(crate) const KEPT: Ticket = Ticket {
    thing: 0,
    number: 0,
};

/// A ticket of something that nobody can keep.
pub(crate) const LOST: Ticket = Ticket {
    thing: u32::MAX,
    number: u64::MAX,
};

/// An item that is to be kept now.
#[derive(Clone, Copy)]
pub(crate) struct Task {
    pub item: KeptItem,
    /// Where it was queued.
    pub place: KeepPlace,
    /// What was asked for up to here, before it is copied, is kept then.
    until: Ticket,
}

/// What a keeper is asked for, for one thread at a time.
#[derive(Drop)]
pub(crate) struct Requests {
    /// That of each item, by its number. So `KEPT` is of one, and `LOST` of none.
    jobs: Vec<Job>,
    ghost some: { 0 < vec_len jobs },
    ghost few: { vec_len jobs < 2 ^ 32 - 1 },
    queues: Queues,
    backlogs: Backlogs,
    /// When what couldn't be copied was tried again the last time.
    retried: Option<Instant>,
    /// Whether the library ends.
    is_over: bool,
}

/// The jobs of so many items, for which nobody has asked.
fn jobs_of(alloc: Global, count: usize) -> Result<Vec<Job>, AllocError>
    ensures { IfOk result (λ jobs. vec_len jobs ≡ count) }
{
    let mut jobs = Vec::with_capacity(alloc, count)?;
    for _number in 0..count {
        jobs.push(Job::new())?;
    }
    Ok(jobs)
}

impl Requests {
    /// Nothing was asked for of a library whose items have these numbers. Later no memory is needed any more.
    pub fn new(alloc: Global, numbers: ItemNumbers) -> Result<Requests, AllocError> {
        let count = numbers.count() as usize;
        Ok(Requests {
            jobs: jobs_of(alloc, count)?,
            queues: Queues::new(alloc, count)?,
            backlogs: Backlogs::default(),
            retried: None,
            is_over: false,
        })
    }

    pub fn is_over(&self) -> bool {
        self.is_over
    }

    /// The library ends: nobody waits to write on.
    pub fn end(&mut self, numbers: ItemNumbers) {
        self.is_over = true;
        for lun in DRIVES {
            let _ = self.settle_backlog(numbers, lun);
        }
    }

    /// Takes a request for an item, and queues it at a place if it isn't queued yet.
    pub fn ask(&mut self, numbers: ItemNumbers, item: KeptItem, place: KeepPlace) -> Ticket
        ensures { IsAskedFor numbers.images item result }
    {
        match numbers.number_of(item) {
            Some(thing) => Ticket {
                thing,
                number: self.ask_for(thing, place),
            },
            None => LOST,
        }
    }

    /// Takes a request for the item with a number, and answers the number of the request. It is lost where the item has no job, as each has.
    fn ask_for(&mut self, thing: u32, place: KeepPlace) -> u64
        ensures some { 0 < result }
        ensures next { IfSome (slice_get self.old.jobs.items thing) (λ job. result ≡ next_number job.progress) }
    {
        let Some(job) = self.jobs.get_mut(thing as usize) else {
            return LOST.number;
        };
        let number = job.ask();
        if !job.is_queued() {
            if self.queues.push(place, thing) {
                job.queue();
            } else {
                job.settle(number, Outcome::Lost);
            }
        }
        number
    }

    /// Takes what is to be done next by a thread at a place, as far as it was asked for by now. Nothing is once the library ends, where all is
    /// kept for the last time.
    pub fn next(&mut self, numbers: ItemNumbers, place: KeepPlace) -> Option<Task>
        ensures { IfSome result (λ task. item_at numbers.images task.until.thing ≡ Some task.item) }
    {
        if self.is_over {
            return None;
        }
        let Queued { place, number } = self.queues.next(place)?;
        let item = numbers.item_at(number)?;
        let job = self.jobs.get_mut(number as usize)?;
        let until = Ticket {
            thing: number,
            number: job.start(),
        };
        Some(Task { item, place, until })
    }

    /// Notes how a task ended.
    pub fn settle(&mut self, task: Task, outcome: Outcome) {
        if let Some(job) = self.jobs.get_mut(task.until.thing as usize) {
            job.settle(task.until.number, outcome);
        }
    }

    /// How keeping what a ticket is for ended, if it has. Nothing more is kept for a reply once the library ends.
    pub fn outcome_of(&self, ticket: Ticket) -> Option<Outcome>
        ensures kept { ticket ≡ kept_ticket → result ≡ Some outcome.Kept }
        ensures lost { ticket ≡ lost_ticket → result ≡ Some outcome.Lost }
    {
        let Some(job) = self.jobs.get(ticket.thing as usize) else {
            return Some(Outcome::Lost);
        };
        match job.outcome_of(ticket.number) {
            None if self.is_over => Some(Outcome::Lost),
            outcome => outcome,
        }
    }

    /// How many items were asked for that are still to be kept.
    pub fn awaited(&self) -> usize {
        self.jobs.iter().filter(|job| job.is_awaited()).count()
    }

    /// How many bytes aren't copied yet at a drive.
    pub fn behind(&self, lun: u8) -> u64 {
        self.backlogs.at(lun).bytes()
    }

    /// So many bytes more were written to the volume in a drive. Whether its thread has to know: something isn't copied now, or many bytes aren't.
    pub fn add(&mut self, lun: u8, bytes: u64) -> bool {
        let before = self.backlogs.at(lun);
        let mut backlog = before;
        backlog.add(bytes);
        self.backlogs.set(lun, backlog);
        before.is_some() != backlog.is_some() || before.is_many() != backlog.is_many()
    }

    /// So many bytes of what wasn't copied at a drive were. Whether that settles what waited for it.
    pub fn take(&mut self, numbers: ItemNumbers, lun: u8, bytes: u64) -> bool {
        let mut backlog = self.backlogs.at(lun);
        backlog.take(bytes);
        self.backlogs.set(lun, backlog);
        self.settle_backlog(numbers, lun)
    }

    /// What isn't copied yet at a drive couldn't be. Whether that settles what waited for it.
    pub fn stick(&mut self, numbers: ItemNumbers, lun: u8) -> bool {
        let mut backlog = self.backlogs.at(lun);
        backlog.stick();
        self.backlogs.set(lun, backlog);
        self.settle_backlog(numbers, lun)
    }

    /// Whether a host that wrote to a drive's volume has to wait until less of it waits to be copied.
    fn is_full(&self, lun: u8) -> bool {
        self.backlogs.at(lun).is_too_much() && !self.is_over
    }

    /// What the reply to a WRITE at a drive has to wait for, if too much of its volume waits to be copied.
    pub fn wait_for_backlog(&mut self, numbers: ItemNumbers, lun: u8) -> Option<Ticket>
        ensures { IfSome result (IsAskedFor numbers.images (kept_item.Backlog lun)) }
    {
        if !self.is_full(lun) {
            return None;
        }
        let thing = numbers.number_of(KeptItem::Backlog(lun))?;
        let job = self.jobs.get_mut(thing as usize)?;
        let number = job.ask();
        Some(Ticket { thing, number })
    }

    /// Settles what waits for the backlog of a drive, if that isn't too much. Whether something waited.
    fn settle_backlog(&mut self, numbers: ItemNumbers, lun: u8) -> bool {
        if self.is_full(lun) {
            return false;
        }
        let Some(thing) = numbers.number_of(KeptItem::Backlog(lun)) else {
            return false;
        };
        match self.jobs.get_mut(thing as usize) {
            Some(job) => job.settle_all(),
            None => false,
        }
    }

    /// Whether a thread of its own has come to a place.
    pub fn is_served(&self, place: KeepPlace) -> bool {
        self.queues.is_served(place)
    }

    /// A thread of its own is at a place.
    pub fn serve(&mut self, place: KeepPlace) {
        self.queues.serve(place);
    }

    /// Whether a thread at a place copies what isn't copied yet at a drive: it is its own, or no thread has come there.
    pub fn looks_after(&self, place: KeepPlace, lun: u8) -> bool {
        match place {
            KeepPlace::Drive(own) if own == lun => true,
            KeepPlace::Drive(_) | KeepPlace::Changer | KeepPlace::Upkeep => {
                !self.queues.is_served(KeepPlace::Drive(lun))
            }
        }
    }

    /// Whether nothing has to be done at once by a thread at a place.
    pub fn is_idle(&self, place: KeepPlace) -> bool {
        let is_many = DRIVES.iter().any(|lun| self.looks_after(place, *lun)
            && self.backlogs.at(*lun).is_many());
        !is_many && !self.queues.has_some(place) && !self.is_over
    }

    /// Whether nothing will have to be done by a thread at a place when some time has passed.
    pub fn is_asleep(&self, place: KeepPlace) -> bool {
        let is_behind = DRIVES.iter().any(|lun| self.looks_after(place, *lun)
            && self.backlogs.at(*lun).is_some());
        self.is_idle(place) && !is_behind && !matches!(place, KeepPlace::Upkeep)
    }

    /// Whether what couldn't be kept is to be tried again now, which is noted: a turn after the last time.
    pub fn is_retry_due(&mut self, now: Instant) -> bool {
        let is_due = match self.retried {
            Some(last) => now.duration_since(last) >= Duration::from_millis(TURN),
            None => true,
        };
        if is_due {
            self.retried = Some(now);
        }
        is_due
    }
}
