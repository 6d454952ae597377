ghost use Rattle.std.specs.Prelude.{◌≡◌, ◌<◌, true, false};
ghost use Rattle.tickets.specs.Progresses.{asked, begun, next_number, outcome_at, settled};

use tickets::{Outcome, Progress};

/// How far an item is kept, and whether it is queued at a place.
#[derive(Clone, Copy)]
pub(crate) struct Job {
    progress: Progress,
    is_queued: bool,
}

impl Job {
    /// Nobody has asked for it.
    pub fn new() -> Job
        ensures progress { result.progress ≡ begun }
        ensures queued { result.is_queued ≡ false }
    {
        Job {
            progress: Progress::new(),
            is_queued: false,
        }
    }

    pub fn is_queued(&self) -> bool
        ensures { result ≡ self.now.is_queued }
    {
        self.is_queued
    }

    /// Takes a request for it, and answers its number, which is more than that of nothing.
    pub fn ask(&mut self) -> u64
        ensures number { result ≡ next_number self.old.progress }
        ensures some { 0 < result }
        ensures progress { self.new.progress ≡ asked self.old.progress }
        ensures queued { self.new.is_queued ≡ self.old.is_queued }
    {
        self.progress.ask()
    }

    /// It is queued.
    pub fn queue(&mut self)
        ensures progress { self.new.progress ≡ self.old.progress }
        ensures queued { self.new.is_queued ≡ true }
    {
        self.is_queued = true;
    }

    /// It is begun, and no longer queued: what is asked for from now on needs another turn. The number of what was asked for last.
    pub fn start(&mut self) -> u64
        ensures number { result ≡ self.old.progress.asked }
        ensures progress { self.new.progress ≡ self.old.progress }
        ensures queued { self.new.is_queued ≡ false }
    {
        self.is_queued = false;
        self.progress.last()
    }

    /// Notes how keeping it up to a number ended.
    pub fn settle(&mut self, number: u64, outcome: Outcome)
        ensures progress { self.new.progress ≡ settled number outcome self.old.progress }
        ensures queued { self.new.is_queued ≡ self.old.is_queued }
    {
        self.progress.settle(number, outcome);
    }

    /// Settles all that was asked for. Whether something wasn't yet.
    pub fn settle_all(&mut self) -> bool {
        if self.progress.is_settled() {
            return false;
        }
        self.progress.settle(self.progress.last(), Outcome::Kept);
        true
    }

    /// Whether something that was asked for is still to be kept.
    pub fn is_awaited(&self) -> bool {
        !self.progress.is_settled()
    }

    /// How keeping it up to a number ended, if it has.
    pub fn outcome_of(&self, number: u64) -> Option<Outcome>
        ensures { result ≡ outcome_at number self.now.progress }
    {
        self.progress.outcome_of(number)
    }
}
