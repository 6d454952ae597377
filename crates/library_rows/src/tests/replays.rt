//! Replays that no case of `script_cases` and no stream can say: how often a script is read.

use super::assert_same;
use crate::trickle::Trickle;
use library_start::library;
use output_lines::{Audit, Explanations};
use program_options::{LibraryOptions, LibraryProfile};
use replay::{ReplayFault, replay};
use std::alloc::Global;
use std::process::Abort;

/// What it shows, how often a script of three bytes may be read, the exit status, and how often it is read, a byte each time. Its end is a
/// read of its own.
type Row = (&'static str, u64, u8, u64);

const ROWS: [Row; 4] = [
    ("it is read to its end", 4, 0, 4),
    ("and no further", 5, 0, 4),
    ("no more often than it may", 3, 4, 3),
    ("not at all", 0, 4, 0),
];

/// How a replay ends in the usual library that may read a comment so often, and how often it did.
fn replayed(rt: &impl Abort, alloc: Global, turns: u64) -> (Result<(), ReplayFault>, u64) {
    let mut core = library(alloc, &LibraryOptions::DEFAULT, LibraryProfile::Spec).expect(
        rt,
        "a library",
    );
    let mut reader = Trickle {
        bytes: b"###",
        reads: 0,
        fails_at: 0,
        is_interrupted: false,
    };
    let mut output = Vec::new(alloc);
    let ended = replay(
        alloc,
        &mut core,
        &mut reader,
        &mut output,
        Explanations::Off,
        Audit::Off,
        turns,
    );
    (ended, reader.reads)
}

fn status_of(ended: Result<(), ReplayFault>) -> u8 {
    match ended {
        Ok(()) => 0,
        Err(fault) => fault.status(),
    }
}

#[test]
fn replays_read_as_often_as_rows_say(rt: HostRuntime) {
    for row in &ROWS {
        let (shows, turns, status, reads) = *row;
        let (ended, found) = replayed(&rt, rt.alloc(), turns);
        assert_same(&rt, (status_of(ended), found), (status, reads), shows);
    }
}
