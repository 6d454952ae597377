//! Volumes that are moved before they are kept, one whose file is full, one whose file fails for good, and when one is brought to the disk.

use super::commands::{A, B, Ended, marked, moved, written};
use super::library::Library;
use super::memory_disk::MemoryDisk;
use super::units::{BLOCK, BLOCK_AND_MARK, WRITE_HI, WRITE_MARK};
use crate::comparing::{assert_list, assert_same};
use std::sync::atomic::Ordering;
use std::thread;
use std::time::Duration;
use tape_keeper::KeepPlace;

const DRIVE: KeepPlace = KeepPlace::Drive(1);

/// What was copied in the background is brought to the disk once, when it has waited for more than a second.
#[test]
fn what_was_copied_behind_is_brought_to_the_disk(rt: HostRuntime) {
    let alloc = rt.alloc();
    let disk = MemoryDisk::new(alloc);
    let library = Library::new(&rt, alloc, &disk, A, B);
    let is_written = library.units.performs(&rt, alloc, 1, &WRITE_HI, b"hi");
    let ended = library.keep(written(B, 2), DRIVE);
    let found = (is_written, ended);
    assert_same(
        &rt,
        found,
        (true, Ended::NoTicket),
        "a block is written on B",
    );
    assert_list(&rt, &disk.b.bytes.lock(&rt), BLOCK, "B is in its file");
    let before = disk.b.syncs.load(Ordering::SeqCst);
    let mut syncs = [0u32; 4];
    for count in &mut syncs {
        library.work(KeepPlace::Upkeep);
        *count = disk.b.syncs.load(Ordering::SeqCst).saturating_sub(before);
        thread::sleep(&rt, Duration::from_millis(700));
    }
    assert_same(&rt, syncs, [0, 0, 1, 1], "and on the disk, once");
    let others = (
        disk.a.syncs.load(Ordering::SeqCst),
        disk.b.bytes.lock(&rt).len(),
    );
    assert_same(&rt, others, (0, BLOCK.len()), "A isn't, and B is as before");
}

/// Two moves put another volume into the drive between a filemark and its keeping.
#[test]
fn the_volume_of_the_command_is_kept(rt: HostRuntime) {
    let alloc = rt.alloc();
    let disk = MemoryDisk::new(alloc);
    let library = Library::new(&rt, alloc, &disk, B, A);
    let units = &library.units;
    let is_written = units.performs(&rt, alloc, 0, &WRITE_HI, b"hi")
        && units.performs(&rt, alloc, 1, &WRITE_HI, b"hi")
        && units.performs(&rt, alloc, 1, &WRITE_MARK, &[]);
    let ticket = library.begin(marked(A));
    units.swap(&rt);
    library.work(DRIVE);
    let found = (is_written, library.ended(ticket));
    assert_same(&rt, found, (true, Ended::Kept), "A is kept");
    assert_list(
        &rt,
        &disk.a.bytes.lock(&rt),
        BLOCK_AND_MARK,
        "A is in its file",
    );
    assert_list(&rt, &disk.b.bytes.lock(&rt), &[], "B isn't");
}

#[test]
fn a_volume_that_fails_holds_up_no_other_and_is_tried_again(rt: HostRuntime) {
    let alloc = rt.alloc();
    let disk = MemoryDisk::new(alloc);
    let library = Library::new(&rt, alloc, &disk, A, B);
    let is_written = library.units.performs(&rt, alloc, 0, &WRITE_HI, b"hi");
    disk.a.is_full.store(true, Ordering::SeqCst);
    let kept = (
        library.keep(moved(A), KeepPlace::Changer),
        library.keep(moved(B), KeepPlace::Changer),
        library.keep(moved(A), KeepPlace::Changer),
    );
    assert_same(&rt, is_written, true, "a block is written on A");
    let expected = (Ended::Lost, Ended::Kept, Ended::Lost);
    assert_same(&rt, kept, expected, "moves of A, B and A");
    let told = &library.told.letters;
    assert_list(&rt, &told.lock(&rt), b"F", "it is told once");
    disk.a.is_full.store(false, Ordering::SeqCst);
    library.work(KeepPlace::Upkeep);
    assert_list(&rt, &disk.a.bytes.lock(&rt), BLOCK, "A is in its file");
    assert_list(&rt, &told.lock(&rt), b"FG", "and so it is told");
}

/// Twice it is written again in its file, then all of it in a new one, also what was in the old one for sure.
#[test]
fn a_volume_whose_file_fails_for_good_is_written_to_a_new_one(rt: HostRuntime) {
    let alloc = rt.alloc();
    let disk = MemoryDisk::new(alloc);
    let library = Library::new(&rt, alloc, &disk, A, B);
    let units = &library.units;
    let is_written = units.performs(&rt, alloc, 0, &WRITE_HI, b"hi");
    let first = library.keep(moved(A), KeepPlace::Changer);
    disk.a.fails.store(true, Ordering::SeqCst);
    disk.a.new_fails.store(true, Ordering::SeqCst);
    let is_marked = units.performs(&rt, alloc, 0, &WRITE_MARK, &[]);
    let mut others = [Ended::NotYet; 3];
    for other in &mut others {
        *other = library.keep(moved(A), KeepPlace::Changer);
    }
    let found = (is_written, first, is_marked);
    assert_same(&rt, found, (true, Ended::Kept, true), "A is written on");
    assert_same(&rt, others, [Ended::Lost; 3], "the disk fails");
    let told = &library.told.letters;
    assert_list(&rt, &told.lock(&rt), b"F", "it is told once");
    assert_list(
        &rt,
        &disk.a.new_bytes.lock(&rt),
        &[],
        "a new file fails too",
    );
    disk.a.new_fails.store(false, Ordering::SeqCst);
    let is_whole = library.keeper.keep_all(&rt, alloc, units, &library.told);
    assert_same(
        &rt,
        is_whole,
        true,
        "the new file takes the place of the old one",
    );
    let new_bytes = &disk.a.new_bytes;
    assert_list(&rt, &new_bytes.lock(&rt), BLOCK_AND_MARK, "A is in it");
    assert_list(&rt, &told.lock(&rt), b"FG", "and so it is told");
}
