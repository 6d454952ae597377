//! Scenes, with what they must be answered and what they must leave.

use super::asking::{A, Ask, B, DONE, NO_MEDIUM, NO_UNIT, POWER_ON, Row};
use super::playing::{Closing, Plan};
use super::settling::{NO_UNIT_THERE, NONE, Settled};

/// A scene in which nothing is done, which leaves no record.
const QUIET: Plan = Plan {
    shows: "",
    acts: &[],
    holds: false,
    closing: Closing::AtOnce,
    records: (0, 0, 0),
};

/// One command at each seat.
const AT_THE_FIRST: [Row; 2] = [
    ("at the first seat", A, 0, Ask::Ready, POWER_ON, 1),
    ("a loss at no unit", A, 9, Ask::Loss, NO_UNIT, 0),
];

const AT_THE_SECOND: [Row; 1] = [("at the second seat", A, 0, Ask::Ready, DONE, 1)];

/// Records 1 to 4 of drive 1: B's is the second of them.
const A_FIRST: [Row; 1] = [("A's first command", A, 1, Ask::Ready, POWER_ON, 1)];

const B_ONCE: [Row; 1] = [("B's first command", B, 1, Ask::Ready, POWER_ON, 1)];

const A_TWICE: [Row; 2] = [
    ("a filemark of A", A, 1, Ask::Mark, NO_MEDIUM, 1),
    ("and one with IMMED", A, 1, Ask::MarkAtOnce, NO_MEDIUM, 1),
];

const A_TWICE_AND_NO_RECORD: [Row; 3] = [
    ("A again", A, 1, Ask::Ready, NO_MEDIUM, 1),
    ("and again", A, 1, Ask::Ready, NO_MEDIUM, 1),
    ("a loss where A never was", A, 2, Ask::Loss, DONE, 0),
];

const FOUR_SETTLED: [Settled; 2] = [
    (
        NO_UNIT_THERE,
        [0; 5],
        4,
        (1, 0, NONE),
        (2, 0, NONE),
        "nothing was drained",
    ),
    (
        1,
        [0, 4, 0, 0, 0],
        0,
        (1, 4, NONE),
        (2, 0, NONE),
        "A's, and of no other unit",
    ),
];

const OF_B: [Settled; 1] = [(
    NO_UNIT_THERE,
    [0, 4, 0, 0, 0],
    0,
    (1, 2, NONE),
    (2, 0, NONE),
    "B's",
)];

const ONE_STAYS: [Settled; 1] = [(
    NO_UNIT_THERE,
    [0, 5, 0, 0, 0],
    1,
    (1, 4, (1, (5, 5), (0, 0))),
    (2, 0, NONE),
    "the drive has not handed record 5 out, and record 6 is none of these",
)];

/// Records 1 and 2 of the changer, of which the second is also record 1 of drive 1.
const A_MOVES: [Row; 2] = [
    ("A at the changer", A, 0, Ask::Ready, POWER_ON, 1),
    ("into drive 1", A, 0, Ask::ToDrive1, DONE, 2),
];

const MOVES_SETTLED: [Settled; 2] = [
    (
        0,
        [2, 0, 0, 0, 0],
        1,
        (0, 1, NONE),
        (1, 0, NONE),
        "before the move: the drive isn't drained",
    ),
    (
        1,
        [2, 1, 0, 0, 0],
        0,
        (0, 2, NONE),
        (1, 1, NONE),
        "of the changer and of the drive: both are drained",
    ),
];

/// A command at each drive, of which one is held at its gate.
const HELD_UNIT: Plan = Plan {
    shows: "submit held at a drive holds no other drive",
    holds: true,
    records: (0, 1, 1),
    ..QUIET
};

/// A command at each seat; then the library is closed with one seat, which is refused, and with both.
const EVERY_SEAT: Plan = Plan {
    shows: "close refuses one seat of two",
    acts: &[(0, &AT_THE_FIRST, &[]), (1, &AT_THE_SECOND, &[])],
    closing: Closing::SeatMissing,
    records: (2, 0, 0),
    ..QUIET
};

/// The same, but the library is closed with no seat.
const NO_SEAT: Plan = Plan {
    shows: "a library that is not closed tells which records have no line",
    acts: &[(0, &AT_THE_FIRST, &[]), (1, &AT_THE_SECOND, &[])],
    closing: Closing::NoSeat,
    ..QUIET
};

/// What each of two seats asks at one drive between its drains is settled and handed over, and what is settled has to be drained before
/// the library is closed.
const SETTLING: Plan = Plan {
    shows: "settle hands the numbers of drained entries over",
    acts: &[
        (0, &A_FIRST, &[]),
        (1, &B_ONCE, &[]),
        (0, &A_TWICE_AND_NO_RECORD, &FOUR_SETTLED),
        (1, &[], &OF_B),
        (0, &A_TWICE, &ONE_STAYS),
    ],
    closing: Closing::Undrained,
    ..QUIET
};

/// A move is settled once both its units are drained.
const SETTLED_MOVES: Plan = Plan {
    shows: "settle of a move waits for the drain of both units",
    acts: &[(0, &A_MOVES, &MOVES_SETTLED)],
    ..QUIET
};

pub(super) const SCENES: [&'static Plan; 5] = [
    &HELD_UNIT,
    &EVERY_SEAT,
    &NO_SEAT,
    &SETTLING,
    &SETTLED_MOVES,
];

/// The plan of the scene at a place. A scene goes to a library by its place, since a signature with a plan in it is none that the borrow
/// checker covers there.
pub(super) fn plan_at(scene: usize) -> Plan {
    match SCENES.get(scene) {
        Some(plan) => **plan,
        None => QUIET,
    }
}
