use std::sync::atomic::{AtomicU64, Ordering};

/// Up to which number each unit's records were handed out, by LUN. A thread that asks may see a number that isn't the last any more.
#[derive(Drop)]
pub(crate) struct HandedOut {
    zero: AtomicU64,
    one: AtomicU64,
    two: AtomicU64,
    three: AtomicU64,
    four: AtomicU64,
}

impl HandedOut {
    /// None was.
    pub fn new() -> HandedOut {
        HandedOut {
            zero: AtomicU64::new(0),
            one: AtomicU64::new(0),
            two: AtomicU64::new(0),
            three: AtomicU64::new(0),
            four: AtomicU64::new(0),
        }
    }

    fn at(&self, lun: u8) -> Option<&AtomicU64> {
        match lun {
            0 => Some(&self.zero),
            1 => Some(&self.one),
            2 => Some(&self.two),
            3 => Some(&self.three),
            4 => Some(&self.four),
            _ => None,
        }
    }

    /// Notes that a unit's records up to a number were.
    pub fn note(&self, lun: u8, last: u64) {
        if let Some(number) = self.at(lun) {
            number.store(last, Ordering::SeqCst);
        }
    }

    /// How many records of a unit weren't, up to one with this number.
    pub fn waiting(&self, lun: u8, number: u64) -> u64 {
        match self.at(lun) {
            Some(last) => number.saturating_sub(last.load(Ordering::SeqCst)),
            None => 0,
        }
    }

    pub fn numbers(&self) -> [u64; 5] {
        [
            self.zero.load(Ordering::SeqCst),
            self.one.load(Ordering::SeqCst),
            self.two.load(Ordering::SeqCst),
            self.three.load(Ordering::SeqCst),
            self.four.load(Ordering::SeqCst),
        ]
    }
}
