//! What is told of something that is kept: once that it can't be written, and once that it can again.

use std::sync::atomic::{AtomicBool, Ordering};
use tape_keeper::{KeepChange, KeepFault};

/// How far something was written that was to be.
#[derive(Clone, Copy)]
pub(crate) enum Extent {
    /// A part of it, and there is more.
    Part,
    All,
}

/// Whether something that is kept couldn't be written, and not all of it was since.
#[derive(Drop)]
pub(crate) struct Watch {
    is_failing: AtomicBool,
}

impl Watch {
    /// Of something that is written.
    pub fn new() -> Watch {
        Watch {
            is_failing: AtomicBool::new(false),
        }
    }

    pub fn is_failing(&self) -> bool {
        self.is_failing.load(Ordering::SeqCst)
    }

    /// Notes how writing it went, and answers what is to be told of that: that it fails since now, or no longer does.
    pub fn note(&self, written: Result<Extent, KeepFault>) -> Option<KeepChange> {
        match (self.is_failing(), written) {
            (false, Err(fault)) => {
                self.is_failing.store(true, Ordering::SeqCst);
                Some(KeepChange::Fails(fault))
            }
            (true, Ok(Extent::All)) => {
                self.is_failing.store(false, Ordering::SeqCst);
                Some(KeepChange::GoesOn)
            }
            (false, Ok(Extent::All))
            | (false, Ok(Extent::Part))
            | (true, Ok(Extent::Part))
            | (true, Err(_)) => None,
        }
    }
}
