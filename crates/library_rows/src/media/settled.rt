//! What the replies to commands wait for, and how that ends.

use super::commands::{A, B, Ended, marked, marked_at, moved, written};
use super::library::Library;
use super::memory_disk::MemoryDisk;
use super::units::{BLOCK, BLOCK_AND_MARK, WRITE_HI, WRITE_MARK};
use crate::comparing::{assert_list, assert_same};
use std::sync::atomic::Ordering;
use tape_keeper::KeepPlace;
use tape_medium::VolumeTag;
use tickets::Ticket;

const DRIVE: KeepPlace = KeepPlace::Drive(1);

/// By so many bytes that wait to be copied, the reply to a WRITE waits.
const MOST: usize = 64 * 1024 * 1024;

/// Two filemarks are kept at once, and one after them anew. One before them has touched the file already.
#[test]
fn filemarks_that_wait_are_kept_at_once(rt: HostRuntime) {
    let alloc = rt.alloc();
    let disk = MemoryDisk::new(alloc);
    let library = Library::new(&rt, alloc, &disk, A, B);
    let is_written = library.units.performs(&rt, alloc, 1, &WRITE_HI, b"hi");
    let found = (is_written, library.keep(marked(B), DRIVE));
    assert_same(&rt, found, (true, Ended::Kept), "a block is kept");
    let first = disk.b.syncs.load(Ordering::SeqCst);
    let is_marked = library.units.performs(&rt, alloc, 1, &WRITE_MARK, &[]);
    let tickets = [library.begin(marked(B)), library.begin(marked(B))];
    let before = tickets.map(|ticket| library.ended(ticket));
    let expected = (true, [Ended::NotYet; 2]);
    assert_same(&rt, (is_marked, before), expected, "both wait");
    let file = &disk.b.bytes;
    assert_list(&rt, &file.lock(&rt), BLOCK, "the mark isn't in the file");
    library.work(DRIVE);
    let after = tickets.map(|ticket| library.ended(ticket));
    assert_same(&rt, after, [Ended::Kept; 2], "both are kept");
    assert_list(&rt, &file.lock(&rt), BLOCK_AND_MARK, "it is in the file");
    let second = disk.b.syncs.load(Ordering::SeqCst);
    let found = (second.saturating_sub(first), library.settlements());
    assert_same(&rt, found, (1, 2), "it was brought to the disk once");
    let is_marked = library.units.performs(&rt, alloc, 1, &WRITE_MARK, &[]);
    let third = library.begin(marked(B));
    let found = (is_marked, library.ended(third));
    assert_same(&rt, found, (true, Ended::NotYet), "a third waits");
    library.work(DRIVE);
    let syncs = disk.b.syncs.load(Ordering::SeqCst).saturating_sub(second);
    let found = (library.ended(third), syncs, library.settlements());
    assert_same(&rt, found, (Ended::Kept, 1, 3), "it is kept anew");
    assert_same(&rt, disk.a.syncs.load(Ordering::SeqCst), 0, "A isn't");
}

/// With IMMED nobody waits for a filemark, which is kept as soon.
#[test]
fn a_filemark_at_once_is_kept(rt: HostRuntime) {
    let alloc = rt.alloc();
    let disk = MemoryDisk::new(alloc);
    let library = Library::new(&rt, alloc, &disk, A, B);
    let is_written = library.units.performs(&rt, alloc, 1, &WRITE_HI, b"hi");
    let is_marked = library.units.performs(&rt, alloc, 1, &WRITE_MARK, &[]);
    let mut at_once = marked(B);
    at_once.is_immediate = true;
    let ticket = library.keep(at_once, DRIVE);
    let found = (is_written, is_marked, ticket);
    let expected = (true, true, Ended::NoTicket);
    assert_same(&rt, found, expected, "no reply waits");
    assert_list(
        &rt,
        &disk.b.bytes.lock(&rt),
        BLOCK_AND_MARK,
        "it is in the file",
    );
    let syncs = disk.b.syncs.load(Ordering::SeqCst);
    assert_same(&rt, syncs > 0, true, "and on the disk");
}

/// A disk that fails once.
#[test]
fn what_was_lost_is_kept_with_the_next(rt: HostRuntime) {
    let alloc = rt.alloc();
    let disk = MemoryDisk::new(alloc);
    let library = Library::new(&rt, alloc, &disk, A, B);
    let is_written = library.units.performs(&rt, alloc, 1, &WRITE_HI, b"hi");
    disk.b.fails.store(true, Ordering::SeqCst);
    let first = library.begin(marked(B));
    library.work(DRIVE);
    let found = (is_written, library.ended(first), library.settlements());
    assert_same(&rt, found, (true, Ended::Lost, 1), "the first is lost");
    let told = &library.told.letters;
    let second = library.keep(marked(B), DRIVE);
    assert_same(&rt, second, Ended::Lost, "so is the second");
    assert_list(&rt, &told.lock(&rt), b"F", "it is told once");
    disk.b.fails.store(false, Ordering::SeqCst);
    let third = library.keep(marked(B), DRIVE);
    let found = (third, library.ended(first));
    assert_same(&rt, found, (Ended::Kept, Ended::Kept), "all are kept");
    assert_list(&rt, &told.lock(&rt), b"FG", "it goes on");
}

/// Upkeep brings the volume to the disk, and the next filemark says so.
#[test]
fn what_upkeep_keeps_goes_on(rt: HostRuntime) {
    let alloc = rt.alloc();
    let disk = MemoryDisk::new(alloc);
    let library = Library::new(&rt, alloc, &disk, A, B);
    let is_written = library.units.performs(&rt, alloc, 1, &WRITE_HI, b"hi");
    disk.b.fails.store(true, Ordering::SeqCst);
    let first = library.begin(marked(B));
    library.work(DRIVE);
    disk.b.fails.store(false, Ordering::SeqCst);
    library.work(KeepPlace::Upkeep);
    let told = &library.told.letters;
    assert_list(&rt, &told.lock(&rt), b"FG", "upkeep keeps it");
    let second = library.keep(marked(B), DRIVE);
    let found = (is_written, second, library.ended(first));
    let expected = (true, Ended::Kept, Ended::Kept);
    assert_same(&rt, found, expected, "and so the tickets say");
    assert_list(&rt, &disk.b.bytes.lock(&rt), BLOCK, "it is in its file");
}

/// The thread of another drive is at work for ever, as where its disk hangs.
#[test]
fn no_drive_holds_up_another(rt: HostRuntime) {
    let alloc = rt.alloc();
    let disk = MemoryDisk::new(alloc);
    let library = Library::new(&rt, alloc, &disk, A, B);
    let other = library.begin(marked_at(2, A));
    let is_served = library.serve(KeepPlace::Drive(2));
    let here = library.keep(marked(B), DRIVE);
    let away = library.keep(moved(B), KeepPlace::Changer);
    library.work(KeepPlace::Upkeep);
    let found = (is_served, here, away, library.ended(other));
    let expected = (true, Ended::Kept, Ended::Kept, Ended::NotYet);
    assert_same(&rt, found, expected, "the other's volume waits alone");
    library.work(KeepPlace::Drive(2));
    assert_same(&rt, library.ended(other), Ended::Kept, "it is kept there");
}

/// No thread came to the drive or to the changer: those at other places do what is asked for there.
#[test]
fn a_place_without_a_thread_is_served(rt: HostRuntime) {
    let alloc = rt.alloc();
    let disk = MemoryDisk::new(alloc);
    let library = Library::new(&rt, alloc, &disk, A, B);
    let at_drive = library.keep(marked(B), KeepPlace::Upkeep);
    let at_changer = library.keep(moved(A), KeepPlace::Drive(3));
    let _ = library.begin(written(B, MOST));
    let waits = library.keep(written(B, 1), KeepPlace::Changer);
    let found = (at_drive, at_changer, waits);
    assert_same(
        &rt,
        found,
        (Ended::Kept, Ended::Kept, Ended::Kept),
        "all is",
    );
}

#[test]
fn a_move_is_kept_with_the_inventory(rt: HostRuntime) {
    let alloc = rt.alloc();
    let disk = MemoryDisk::new(alloc);
    let library = Library::new(&rt, alloc, &disk, A, B);
    disk.inventory.fails.store(true, Ordering::SeqCst);
    let move_ticket = library.begin(moved(B));
    let mark_ticket = library.begin(marked(B));
    library.work(KeepPlace::Changer);
    library.work(DRIVE);
    let found = (library.ended(move_ticket), library.ended(mark_ticket));
    let expected = (Ended::Lost, Ended::Kept);
    assert_same(&rt, found, expected, "the inventory fails");
    assert_list(&rt, &library.told.letters.lock(&rt), b"F", "it is told");
    let writes = &disk.inventory.writes;
    assert_same(&rt, writes.load(Ordering::SeqCst), 0, "nothing is written");
    disk.inventory.fails.store(false, Ordering::SeqCst);
    let again = library.keep(moved(B), KeepPlace::Changer);
    let found = (again, writes.load(Ordering::SeqCst));
    assert_same(&rt, found, (Ended::Kept, 1), "then it doesn't");
    let mut alone = moved(B);
    alone.volume = None;
    let alone = library.keep(alone, KeepPlace::Changer);
    let found = (alone, writes.load(Ordering::SeqCst));
    assert_same(&rt, found, (Ended::Kept, 2), "nor for no volume");
}

/// A WRITE by which 64 MiB wait to be copied waits, until less does, or nothing can be copied.
#[test]
fn a_write_waits_for_what_is_behind(rt: HostRuntime) {
    let alloc = rt.alloc();
    let disk = MemoryDisk::new(alloc);
    let library = Library::new(&rt, alloc, &disk, A, B);
    let is_written = library.units.performs(&rt, alloc, 1, &WRITE_HI, b"hi");
    let less = library.begin(written(B, MOST - 1));
    let most = library.begin(written(B, 1));
    let found = (is_written, library.ended(less), library.ended(most));
    let expected = (true, Ended::NoTicket, Ended::NotYet);
    assert_same(&rt, found, expected, "the second waits");
    library.work(DRIVE);
    let found = (library.ended(most), library.settlements());
    assert_same(&rt, found, (Ended::Kept, 1), "it is copied");
    assert_list(&rt, &disk.b.bytes.lock(&rt), BLOCK, "into the file");
    let _ = library.units.performs(&rt, alloc, 1, &WRITE_MARK, &[]);
    disk.b.is_full.store(true, Ordering::SeqCst);
    let stuck = library.begin(written(B, MOST));
    assert_same(&rt, library.ended(stuck), Ended::NotYet, "another waits");
    library.work(DRIVE);
    let found = (library.ended(stuck), library.settlements());
    assert_same(&rt, found, (Ended::Kept, 2), "the disk is full");
    let next = library.begin(written(B, MOST));
    assert_same(&rt, library.ended(next), Ended::NoTicket, "nobody waits");
}

/// Nothing is to be kept, or nobody can.
#[test]
fn tickets_of_nothing_are_settled(rt: HostRuntime) {
    let alloc = rt.alloc();
    let disk = MemoryDisk::new(alloc);
    let library = Library::new(&rt, alloc, &disk, A, B);
    let mut without = marked(B);
    without.volume = None;
    let ticket = library.begin(without);
    assert_same(&rt, library.ended(ticket), Ended::Kept, "no volume");
    let ticket = library.begin(marked(VolumeTag([b'C'; 32])));
    assert_same(&rt, library.ended(ticket), Ended::Lost, "no image");
    assert_list(&rt, &library.told.letters.lock(&rt), b"F", "it is told");
    let nothing = Some(Ticket {
        thing: 9,
        number: 1,
    });
    assert_same(&rt, library.ended(nothing), Ended::Lost, "no such item");
}

/// The library ends before a filemark is kept, and before what was written is copied.
#[test]
fn nobody_waits_at_the_end(rt: HostRuntime) {
    let alloc = rt.alloc();
    let disk = MemoryDisk::new(alloc);
    let library = Library::new(&rt, alloc, &disk, A, B);
    let most = library.begin(written(B, MOST));
    let mark = library.begin(marked(B));
    let goes_on = library.serve(DRIVE);
    library.keeper.end(&rt);
    let found = (
        goes_on,
        library.serve(DRIVE),
        library.serve(KeepPlace::Upkeep),
    );
    assert_same(&rt, found, (true, false, false), "no thread goes on");
    let found = (library.ended(most), library.ended(mark));
    assert_same(&rt, found, (Ended::Kept, Ended::Lost), "no reply waits");
}
