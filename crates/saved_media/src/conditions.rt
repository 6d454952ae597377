//! What the threads of a keeper wait by, each at its place.

use std::sync::Condvar;
use tape_keeper::KeepPlace;

/// That something is to be done at a place, or the library ends.
#[derive(Drop)]
pub(crate) struct Conditions {
    changer: Condvar,
    one: Condvar,
    two: Condvar,
    three: Condvar,
    four: Condvar,
    upkeep: Condvar,
}

impl Conditions {
    pub fn new() -> Conditions {
        Conditions {
            changer: Condvar::new(),
            one: Condvar::new(),
            two: Condvar::new(),
            three: Condvar::new(),
            four: Condvar::new(),
            upkeep: Condvar::new(),
        }
    }

    /// By which a thread at a place waits.
    pub fn at(&self, place: KeepPlace) -> &Condvar {
        match place {
            KeepPlace::Changer => &self.changer,
            KeepPlace::Drive(1) => &self.one,
            KeepPlace::Drive(2) => &self.two,
            KeepPlace::Drive(3) => &self.three,
            KeepPlace::Drive(4) => &self.four,
            KeepPlace::Drive(_) | KeepPlace::Upkeep => &self.upkeep,
        }
    }

    /// Wakes the thread at a place. Where none has come there, any other does its work.
    pub fn notify(&self, place: KeepPlace, is_served: bool) {
        if is_served {
            self.at(place).notify_all();
        } else {
            self.notify_all();
        }
    }

    /// Wakes all threads.
    pub fn notify_all(&self) {
        self.changer.notify_all();
        self.one.notify_all();
        self.two.notify_all();
        self.three.notify_all();
        self.four.notify_all();
        self.upkeep.notify_all();
    }
}
