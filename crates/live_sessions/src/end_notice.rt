use std::sync::atomic::{AtomicBool, AtomicU16, Ordering};

/// Whether all sessions are to end, and within how many seconds. Those that go on look at it without a lock.
#[derive(Drop)]
pub struct EndNotice {
    /// Set once the seconds are there.
    is_given: AtomicBool,
    seconds: AtomicU16,
}

impl EndNotice {
    /// None is given.
    pub fn new() -> EndNotice {
        EndNotice {
            is_given: AtomicBool::new(false),
            seconds: AtomicU16::new(0),
        }
    }

    /// All are to end within so many seconds.
    pub fn give(&self, seconds: u16) {
        self.seconds.store(seconds, Ordering::SeqCst);
        self.is_given.store(true, Ordering::SeqCst);
    }

    /// Within how many seconds all are to end, once that was said.
    pub fn ends_within(&self) -> Option<u16> {
        if !self.is_given.load(Ordering::SeqCst) {
            return None;
        }
        Some(self.seconds.load(Ordering::SeqCst))
    }
}
