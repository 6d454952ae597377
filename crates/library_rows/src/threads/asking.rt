//! Commands of the tests, and what their answers are compared with.

use super::opened::Opened;
use crate::comparing::assert_same;
use logical_unit::{EventKind, Receipt, Reply};
use scsi_nexus::Nexus;
use scsi_sense::Status;
use std::alloc::Global;
use std::process::Abort;
use std::sync::Wait;

pub(super) const A: Nexus = Nexus {
    sas: 0x5000_0000_0000_000A,
    port: 1,
};

pub(super) const B: Nexus = Nexus {
    sas: 0x5000_0000_0000_000B,
    port: 1,
};

/// What is asked of a unit.
#[derive(Clone, Copy)]
pub(super) enum Ask {
    Loss,
    /// TEST UNIT READY.
    Ready,
    /// WRITE FILEMARKS(6) of one.
    Mark,
    /// The same with IMMED.
    MarkAtOnce,
    /// MOVE MEDIUM of the volume of 0400h into drive 1.
    ToDrive1,
}

/// What is asked, whole.
const fn event_of(ask: Ask) -> EventKind<'static> {
    match ask {
        Ask::Loss => EventKind::Loss,
        Ask::Ready => EventKind::Command {
            cdb: &[0; 6],
            bytes: &[],
        },
        Ask::Mark => EventKind::Command {
            cdb: b"\x10\0\0\0\x01\0",
            bytes: &[],
        },
        Ask::MarkAtOnce => EventKind::Command {
            cdb: b"\x10\x01\0\0\x01\0",
            bytes: &[],
        },
        Ask::ToDrive1 => EventKind::Command {
            cdb: b"\xa5\0\0\0\x04\0\x01\0\0\0\0\0",
            bytes: &[],
        },
    }
}

/// What a call must be answered: the status, and the additional sense code with its qualifier.
pub(super) type Answer = (Status, Option<(u8, u8)>);

/// The first command of a nexus reports its power on.
pub(super) const POWER_ON: Answer = (Status::CheckCondition, Some((0x29, 0x00)));

/// A drive without a volume isn't ready.
pub(super) const NO_MEDIUM: Answer = (Status::CheckCondition, Some((0x3A, 0x00)));

pub(super) const NO_UNIT: Answer = (Status::CheckCondition, Some((0x25, 0x00)));

pub(super) const DONE: Answer = (Status::Good, None);

/// A call and its answer: what it shows, the nexus, the logical unit, what is asked, the answer, and how many records it
/// must leave.
pub(super) type Row = (&'static str, Nexus, u8, Ask, Answer, usize);

/// The additional sense code of a reply, with its qualifier.
fn codes_of(reply: &Reply) -> Option<(u8, u8)> {
    match &reply.sense {
        Some(sense) => Some((sense.asc, sense.ascq)),
        None => None,
    }
}

/// Compares an answer with its row.
fn assert_answer(rt: &impl Abort, receipt: &Receipt, row: &Row) {
    let (shows, _, _, _, answer, records) = *row;
    let found = (receipt.reply.status, codes_of(&receipt.reply));
    assert_same(rt, (found, receipt.numbers.len()), (answer, records), shows);
}

/// Makes the call of a row, and compares the answer.
pub(super) fn ask_one<T: Opened, R: Abort + Wait>(
    rt: &R,
    alloc: Global,
    library: &T,
    seat: &mut T::Seat,
    row: &Row,
) {
    let (_, nexus, lun, ask, _, _) = *row;
    let done = library.ask(rt, alloc, seat, nexus, lun, event_of(ask));
    let is_immediate = matches!(ask, Ask::MarkAtOnce);
    assert_same(
        rt,
        done.is_immediate(),
        is_immediate,
        "whether it has IMMED",
    );
    assert_answer(rt, done.receipt(), row);
}

/// Makes the calls of some rows, one after another.
pub(super) fn ask_all<T: Opened, R: Abort + Wait>(
    rt: &R,
    alloc: Global,
    library: &T,
    seat: &mut T::Seat,
    rows: &[Row],
) {
    for row in rows {
        ask_one(rt, alloc, library, seat, row);
    }
}
