//! What is to be done at each place, first in, first out.

use std::alloc::{AllocError, Global};
use std::collections::VecDeque;
use tape_keeper::KeepPlace;

/// The places where something is asked for.
const PLACES: [KeepPlace; 5] = [
    KeepPlace::Changer,
    KeepPlace::Drive(1),
    KeepPlace::Drive(2),
    KeepPlace::Drive(3),
    KeepPlace::Drive(4),
];

/// What is to be done at a place.
#[derive(Drop)]
struct Queue {
    /// The numbers of items.
    numbers: VecDeque<u32>,
    /// Whether a thread of its own has come to the place.
    is_served: bool,
}

impl Queue {
    /// Nothing is. There is room for so many items.
    fn new(alloc: Global, room: usize) -> Result<Queue, AllocError> {
        Ok(Queue {
            numbers: VecDeque::with_capacity(alloc, room)?,
            is_served: false,
        })
    }
}

/// What is to be done at all places.
#[derive(Drop)]
pub(crate) struct Queues {
    changer: Queue,
    one: Queue,
    two: Queue,
    three: Queue,
    four: Queue,
}

/// An item that was taken out of the queue of a place.
#[derive(Clone, Copy)]
pub(crate) struct Queued {
    pub place: KeepPlace,
    pub number: u32,
}

impl Queues {
    /// Nothing is. There is room for so many items at each place.
    pub fn new(alloc: Global, room: usize) -> Result<Queues, AllocError> {
        Ok(Queues {
            changer: Queue::new(alloc, room)?,
            one: Queue::new(alloc, room)?,
            two: Queue::new(alloc, room)?,
            three: Queue::new(alloc, room)?,
            four: Queue::new(alloc, room)?,
        })
    }

    /// The queue of a place, if it has one.
    fn at(&self, place: KeepPlace) -> Option<&Queue> {
        match place {
            KeepPlace::Changer => Some(&self.changer),
            KeepPlace::Drive(1) => Some(&self.one),
            KeepPlace::Drive(2) => Some(&self.two),
            KeepPlace::Drive(3) => Some(&self.three),
            KeepPlace::Drive(4) => Some(&self.four),
            KeepPlace::Drive(_) | KeepPlace::Upkeep => None,
        }
    }

    fn at_mut(&mut self, place: KeepPlace) -> Option<&mut Queue> {
        match place {
            KeepPlace::Changer => Some(&mut self.changer),
            KeepPlace::Drive(1) => Some(&mut self.one),
            KeepPlace::Drive(2) => Some(&mut self.two),
            KeepPlace::Drive(3) => Some(&mut self.three),
            KeepPlace::Drive(4) => Some(&mut self.four),
            KeepPlace::Drive(_) | KeepPlace::Upkeep => None,
        }
    }

    /// Whether a thread of its own has come to a place. One without a queue needs none.
    pub fn is_served(&self, place: KeepPlace) -> bool {
        self.at(place).is_none_or(|queue| queue.is_served)
    }

    /// A thread of its own has come to a place.
    pub fn serve(&mut self, place: KeepPlace) {
        if let Some(queue) = self.at_mut(place) {
            queue.is_served = true;
        }
    }

    /// Queues an item at a place, if that has a queue with room for it. Whether it is queued.
    pub fn push(&mut self, place: KeepPlace, number: u32) -> bool {
        match self.at_mut(place) {
            Some(queue) => queue.numbers.push_back(number).is_ok(),
            None => false,
        }
    }

    /// Whether something is queued that a thread at a place does: there, or where no thread has come.
    pub fn has_some(&self, place: KeepPlace) -> bool {
        self.has_own(place)
            || PLACES
                .iter()
                .any(|other| !self.is_served(*other) && self.has_own(*other))
    }

    fn has_own(&self, place: KeepPlace) -> bool {
        self.at(place)
            .is_some_and(|queue| !queue.numbers.is_empty())
    }

    /// Takes out what a thread at a place does next: what is queued there, then what is where no thread has come, so that nothing is left for
    /// ever where too few threads could be made.
    pub fn next(&mut self, place: KeepPlace) -> Option<Queued> {
        if let Some(number) = self.pop(place) {
            return Some(Queued { place, number });
        }
        for other in PLACES {
            if !self.is_served(other) {
                if let Some(number) = self.pop(other) {
                    let place = other;
                    return Some(Queued { place, number });
                }
            }
        }
        None
    }

    fn pop(&mut self, place: KeepPlace) -> Option<u32> {
        self.at_mut(place)?.numbers.pop_front()
    }
}
