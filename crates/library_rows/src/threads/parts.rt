//! What each of two threads does with a seat of its own.

use super::asking::{A, Ask, B, POWER_ON, Row, ask_one};
use super::gates::Flags;
use super::opened::Opened;
use std::alloc::Global;
use std::process::Abort;
use std::sync::Wait;
use std::sync::atomic::Ordering;
use std::thread;
use std::thread::Threads;
use std::time::Clock;

const HELD: Row = ("the first waits at its gate", A, 1, Ask::Ready, POWER_ON, 1);

const NOT_HELD: Row = ("the second doesn't", B, 2, Ask::Ready, POWER_ON, 1);

/// One command of each thread: that of the first to drive 1, whose gate waits for the answer of the second at drive 2,
/// which is asked once the first is at its gate.
fn ask_in_turn<T: Opened, R: Abort + Clock + Wait>(
    rt: &R,
    alloc: Global,
    library: &T,
    seat: &mut T::Seat,
    place: usize,
    flags: &Flags,
) {
    if place == 0 {
        ask_one(rt, alloc, library, seat, &HELD);
    } else {
        flags.wait_until_entered(rt);
        ask_one(rt, alloc, library, seat, &NOT_HELD);
        flags.answered.store(true, Ordering::SeqCst);
    }
}

/// Two threads play their part, each with a seat.
pub(super) fn play_in_threads<T: Opened + Sync, R: Abort + Clock + Threads + Wait + Sync>(
    rt: &R,
    alloc: Global,
    library: &T,
    seats: &mut [T::Seat],
    flags: &Flags,
)
where
    T::Seat: Send,
{
    thread::for_each_mut(
        rt,
        seats,
        2,
        &|place, seat| ask_in_turn(rt, alloc, library, seat, place, flags),
    );
}
