use std::sync::atomic::{AtomicU64, Ordering};

/// How often each unit was reset, by LUN, as far as the thread knows that has these counts.
#[derive(Drop)]
pub struct ResetCounts {
    zero: AtomicU64,
    one: AtomicU64,
    two: AtomicU64,
    three: AtomicU64,
    four: AtomicU64,
}

impl ResetCounts {
    /// None was.
    pub fn new() -> ResetCounts {
        ResetCounts {
            zero: AtomicU64::new(0),
            one: AtomicU64::new(0),
            two: AtomicU64::new(0),
            three: AtomicU64::new(0),
            four: AtomicU64::new(0),
        }
    }

    /// The same counts as they are now, apart from these.
    pub fn copied(&self) -> ResetCounts {
        ResetCounts {
            zero: AtomicU64::new(self.of(0)),
            one: AtomicU64::new(self.of(1)),
            two: AtomicU64::new(self.of(2)),
            three: AtomicU64::new(self.of(3)),
            four: AtomicU64::new(self.of(4)),
        }
    }

    fn at(&self, lun: u8) -> Option<&AtomicU64> {
        match lun {
            0 => Some(&self.zero),
            1 => Some(&self.one),
            2 => Some(&self.two),
            3 => Some(&self.three),
            4 => Some(&self.four),
            _ => None,
        }
    }

    pub fn of(&self, lun: u8) -> u64 {
        match self.at(lun) {
            Some(count) => count.load(Ordering::SeqCst),
            None => 0,
        }
    }

    /// Counts one more.
    pub fn add(&self, lun: u8) {
        if let Some(count) = self.at(lun) {
            count.fetch_add(1, Ordering::SeqCst);
        }
    }

    pub fn set(&self, lun: u8, to: u64) {
        if let Some(count) = self.at(lun) {
            count.store(to, Ordering::SeqCst);
        }
    }
}
