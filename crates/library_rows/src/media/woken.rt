//! Threads that wait for something to be done at a place, or to be settled, and what wakes them.

use super::commands::{A, B, Ended, ended_by, marked, written};
use super::library::Library;
use super::memory_disk::MemoryDisk;
use crate::comparing::assert_same;
use std::process::Abort;
use std::sync::Wait;
use std::thread::{self, Threads};
use std::time::{Clock, Duration};
use tape_keeper::{CarriedOutCommand, KeepPlace};

const DRIVE: KeepPlace = KeepPlace::Drive(1);

/// Until another thread waits, surely.
fn pause(clock: &impl Clock) {
    thread::sleep(clock, Duration::from_millis(100));
}

/// What a command left is to be kept while the thread at its place waits: whether that goes on.
fn goes_on_after<R: Abort + AllocGlobal + Clock + Threads + Wait + Sync>(
    rt: &R,
    command: CarriedOutCommand,
) -> bool {
    let alloc = rt.alloc();
    let disk = MemoryDisk::new(alloc);
    let library = Library::new(rt, alloc, &disk, A, B);
    let (_, goes_on) = thread::join(
        rt,
        || {
            pause(rt);
            library.begin(command)
        },
        || library.serve(DRIVE),
    );
    goes_on
}

/// A filemark is kept while another thread waits for that: how it ended.
fn awaited<R: Abort + AllocGlobal + Clock + Threads + Wait + Sync>(rt: &R) -> Ended {
    let alloc = rt.alloc();
    let disk = MemoryDisk::new(alloc);
    let library = Library::new(rt, alloc, &disk, A, B);
    let Some(ticket) = library.begin(marked(B)) else {
        return Ended::NoTicket;
    };
    let (_, outcome) = thread::join(
        rt,
        || {
            pause(rt);
            library.work(DRIVE);
        },
        || library.keeper.await_outcome(rt, ticket),
    );
    ended_by(Some(outcome))
}

/// Too much isn't copied yet, and is copied while another thread waits for that: how it ended.
fn awaited_write<R: Abort + AllocGlobal + Clock + Threads + Wait + Sync>(rt: &R) -> Ended {
    let alloc = rt.alloc();
    let disk = MemoryDisk::new(alloc);
    let library = Library::new(rt, alloc, &disk, A, B);
    let Some(ticket) = library.begin(written(B, 64 * 1024 * 1024)) else {
        return Ended::NoTicket;
    };
    let (_, outcome) = thread::join(
        rt,
        || {
            pause(rt);
            library.work(DRIVE);
        },
        || library.keeper.await_outcome(rt, ticket),
    );
    ended_by(Some(outcome))
}

/// The library ends while a thread waits for something to do, and another for a filemark to be kept.
fn ended_waits<R: Abort + AllocGlobal + Clock + Threads + Wait + Sync>(rt: &R) -> (bool, Ended) {
    let alloc = rt.alloc();
    let disk = MemoryDisk::new(alloc);
    let library = Library::new(rt, alloc, &disk, A, B);
    let ticket = library.begin(marked(B));
    // B's drive has a thread of its own, which does nothing.
    let _ = library.serve(DRIVE);
    let (_, (goes_on, outcome)) = thread::join(
        rt,
        || {
            pause(rt);
            library.keeper.end(rt);
        },
        || {
            thread::join(
                rt,
                || library.serve(KeepPlace::Changer),
                || ticket.map(|ticket| library.keeper.await_outcome(rt, ticket)),
            )
        },
    );
    (goes_on, ended_by(outcome))
}

#[test]
fn who_waits_is_woken(rt: HostRuntime) {
    let goes_on = goes_on_after(&rt, marked(B));
    assert_same(&rt, goes_on, true, "a filemark wakes the drive's thread");
    let goes_on = goes_on_after(&rt, written(B, 2));
    assert_same(&rt, goes_on, true, "so does a write, after a while");
    assert_same(&rt, awaited(&rt), Ended::Kept, "a filemark was waited for");
    assert_same(&rt, awaited_write(&rt), Ended::Kept, "so was a write");
    let found = ended_waits(&rt);
    assert_same(&rt, found, (false, Ended::Lost), "the end wakes all");
}
