//! How a scene is played in an open library, to its end.

use super::asking::{Row, ask_all};
use super::gates::Flags;
use super::opened::Opened;
use super::parts::play_in_threads;
use super::scenes::plan_at;
use super::settling::{Settled, assert_settled};
use super::unclosed::assert_unclosed;
use crate::comparing::assert_same;
use library_start::Device;
use lun_router::{CloseFault, Histories};
use std::alloc::Global;
use std::process::Abort;
use std::sync::Wait;
use std::thread::Threads;
use std::time::Clock;

/// The place of a seat, what is asked there, and how that is settled then.
pub(super) type Act = (usize, &'static [Row], &'static [Settled]);

/// How a library is closed.
#[derive(Clone, Copy)]
pub(super) enum Closing {
    AtOnce,
    /// With one seat of two, which is refused, and then with both.
    SeatMissing,
    /// With a record of a settled number at drive 1, which is refused, and then without it.
    Undrained,
    /// With no seat, which is refused, and what is told of its records.
    NoSeat,
}

/// What is done with an open library and its seats, in this order.
#[derive(Clone, Copy)]
pub(super) struct Plan {
    /// What the scene shows.
    pub(super) shows: &'static str,
    pub(super) acts: &'static [Act],
    /// Whether the gate holds logical unit 1, to which one of two threads comes then, while the other is answered elsewhere.
    pub(super) holds: bool,
    pub(super) closing: Closing,
    /// How many records the changer and each drive have at the end.
    pub(super) records: (usize, usize, usize),
}

fn assert_all_settled<T: Opened, R: Abort + Wait>(
    rt: &R,
    alloc: Global,
    library: &T,
    seat: &mut T::Seat,
    rows: &[Settled],
) {
    for row in rows {
        assert_settled(rt, alloc, library, seat, row);
    }
}

fn play_acts<T: Opened, R: Abort + Wait>(
    rt: &R,
    alloc: Global,
    library: &T,
    seats: &mut [T::Seat],
    acts: &[Act],
) {
    for act in acts {
        let (place, asked, settled) = *act;
        let seat = seats.get_mut(place).expect(rt, "such a seat");
        ask_all(rt, alloc, library, seat, asked);
        assert_all_settled(rt, alloc, library, seat, settled);
    }
}

/// Plays all but the end.
fn play_open<T: Opened + Sync, R: Abort + Clock + Threads + Wait + Sync>(
    rt: &R,
    alloc: Global,
    library: &T,
    seats: &mut [T::Seat],
    flags: &Flags,
    plan: &Plan,
)
where
    T::Seat: Send,
{
    assert_same(rt, library.units(), 3, plan.shows);
    play_acts(rt, alloc, library, seats, plan.acts);
    if plan.holds {
        play_in_threads(rt, alloc, library, seats, flags);
    }
    let is_there = library.drained(rt, alloc, 9).is_some();
    assert_same(rt, is_there, false, "no unit 9");
}

/// Closes a library, which has to be refused, and gives what comes back.
fn refused<T: Opened>(
    rt: &impl Abort,
    alloc: Global,
    library: T,
    seats: Vec<T::Seat>,
    expected: CloseFault,
) -> (T, Vec<T::Seat>) {
    match library.close(alloc, seats) {
        Ok(_) => rt.panic("the library is closed"),
        Err((fault, library, seats)) => {
            assert_same(rt, fault, expected, "why it isn't closed");
            (library, seats)
        }
    }
}

/// Closes a library, which has to be closed.
fn closed<T: Opened>(
    rt: &impl Abort,
    alloc: Global,
    library: T,
    seats: Vec<T::Seat>,
) -> Histories<Device> {
    match library.close(alloc, seats) {
        Ok(histories) => histories,
        Err(_) => rt.panic("the library is not closed"),
    }
}

fn closed_with_a_seat_missing<T: Opened>(
    rt: &impl Abort,
    alloc: Global,
    library: T,
    mut seats: Vec<T::Seat>,
) -> Histories<Device> {
    let last = seats.pop().expect(rt, "a seat");
    let (library, mut seats) = refused(rt, alloc, library, seats, CloseFault::SeatMissing);
    let found = (seats.len(), T::entries(&last));
    assert_same(
        rt,
        found,
        (1, 1),
        "seats that come back, and entries of the other seat",
    );
    seats.push(last).expect(rt, "memory");
    closed(rt, alloc, library, seats)
}

fn closed_undrained<T: Opened, R: Abort + Wait>(
    rt: &R,
    alloc: Global,
    library: T,
    seats: Vec<T::Seat>,
) -> Histories<Device> {
    let (library, seats) = refused(rt, alloc, library, seats, CloseFault::Mismatch);
    let _handed_out = library.drained(rt, alloc, 1);
    closed(rt, alloc, library, seats)
}

fn closed_as_planned<T: Opened, R: Abort + Wait>(
    rt: &R,
    alloc: Global,
    library: T,
    seats: Vec<T::Seat>,
    closing: Closing,
) -> Option<Histories<Device>> {
    match closing {
        Closing::AtOnce => Some(closed(rt, alloc, library, seats)),
        Closing::SeatMissing => Some(closed_with_a_seat_missing(rt, alloc, library, seats)),
        Closing::Undrained => Some(closed_undrained(rt, alloc, library, seats)),
        Closing::NoSeat => {
            assert_unclosed(rt, alloc, library);
            None
        }
    }
}

/// How many records the changer and the drives have at the end, and whether there are just two drives.
fn counts_of(histories: &Histories<Device>) -> ((usize, usize, usize), bool) {
    let second = match &histories.second {
        Some(drive) => drive.records().len(),
        None => usize::MAX,
    };
    let changer = histories.changer.records().len();
    let first = histories.first.records().len();
    ((changer, first, second), histories.third.is_none())
}

/// Plays a scene, closes the library, and compares what it leaves, unless it has to stay open.
pub(super) fn play<T: Opened + Sync, R: Abort + Clock + Threads + Wait + Sync>(
    rt: &R,
    alloc: Global,
    library: T,
    mut seats: Vec<T::Seat>,
    flags: &Flags,
    scene: usize,
)
where
    T::Seat: Send,
{
    let plan = plan_at(scene);
    play_open(rt, alloc, &library, seats.as_mut_slice(), flags, &plan);
    if let Some(histories) = closed_as_planned(rt, alloc, library, seats, plan.closing) {
        assert_same(rt, counts_of(&histories), (plan.records, true), plan.shows);
    }
}
