use crate::ticket::Outcome;

/// How far something is kept that a keeper is asked for again and again. What it is asked for has numbers from 1 on, and to keep it up to a
/// number is to keep what was asked for before too.
#[derive(Clone, Copy, Default)]
pub struct Progress {
    asked: u64,
    kept: u64,
    lost: u64,
}

impl Progress {
    ghost use Rattle.std.specs.Prelude.{◌≡◌};
    ghost use Rattle.tickets.specs.Progresses.{asked, begun, is_settled, next_number, outcome_at, settled};

    /// Of something for which nobody has asked.
    pub fn new() -> Progress
        ensures { result ≡ begun }
    {
        Progress {
            asked: 0,
            kept: 0,
            lost: 0,
        }
    }

    /// Takes what is asked for now, and answers its number.
    pub fn ask(&mut self) -> u64
        ensures number { result ≡ next_number self.old }
        ensures state { self.new ≡ asked self.old }
    {
        self.asked = self.asked.saturating_add(1);
        self.asked
    }

    /// The number of what was asked for last. 0: nothing was.
    pub fn last(&self) -> u64
        ensures { result ≡ self.now.asked }
    {
        self.asked
    }

    /// Notes how keeping what was asked for up to a number ended.
    pub fn settle(&mut self, number: u64, outcome: Outcome)
        ensures { self.new ≡ settled number outcome self.old }
    {
        match outcome {
            Outcome::Kept => self.kept = self.kept.max(number),
            Outcome::Lost => self.lost = self.lost.max(number),
        }
    }

    /// How keeping what was asked for up to a number ended, if it has. What was lost once is kept where it was kept later.
    pub fn outcome_of(&self, number: u64) -> Option<Outcome>
        ensures { result ≡ outcome_at number self.now }
    {
        if number <= self.kept {
            Some(Outcome::Kept)
        } else if number <= self.lost {
            Some(Outcome::Lost)
        } else {
            None
        }
    }

    /// Whether nothing that was asked for is still to be kept.
    pub fn is_settled(&self) -> bool
        ensures { result ≡ is_settled self.now }
    {
        self.outcome_of(self.asked).is_some()
    }
}
