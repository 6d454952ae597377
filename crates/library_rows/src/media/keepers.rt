//! Keepers as the server has them: a thread works at a drive until the library ends, and then all is kept.

use super::commands::{A, B, Ended, ended_by, marked};
use super::library::Library;
use super::memory_disk::MemoryDisk;
use super::units::{BLOCK, WRITE_HI};
use crate::comparing::{assert_list, assert_same};
use saved_media::SavedTapes;
use std::sync::Wait;
use std::sync::atomic::Ordering;
use std::thread::{self, Threads};
use std::time::Clock;
use tape_keeper::{KeepListener, KeepPlace, NoKeeper, TapeKeeper};

/// At how many drives a keeper works, how keeping a filemark on B ended, and whether all was kept at the end.
type Done = (u8, Ended, bool);

fn done_by<
    K: TapeKeeper + Sync,
    H: KeepListener + Sync,
    R: AllocGlobal + Clock + Threads + Wait + Sync,
>(rt: &R, keeper: &K, listener: &H) -> Done {
    let alloc = rt.alloc();
    let ((), ended) = thread::join(
        rt,
        || keeper.work(rt, alloc, listener, KeepPlace::Drive(1)),
        || {
            let ended = match keeper.begin(rt, listener, marked(B)) {
                Some(ticket) => ended_by(Some(keeper.await_outcome(rt, ticket))),
                None => Ended::NoTicket,
            };
            keeper.end(rt);
            ended
        },
    );
    (keeper.drives(), ended, keeper.keep_all(rt, alloc, listener))
}

#[test]
fn a_keeper_works_until_the_library_ends(rt: HostRuntime) {
    let alloc = rt.alloc();
    let disk = MemoryDisk::new(alloc);
    let library = Library::new(&rt, alloc, &disk, A, B);
    let is_written = library.units.performs(&rt, alloc, 1, &WRITE_HI, b"hi");
    let none = done_by(&rt, &NoKeeper, &library.told);
    assert_same(&rt, none, (0, Ended::NoTicket, true), "no reply waits");
    let bytes = &disk.b.bytes;
    assert_list(&rt, &bytes.lock(&rt), &[], "and nothing is kept");
    let tapes = SavedTapes {
        keeper: &library.keeper,
        tapes: &library.units,
    };
    let saved = done_by(&rt, &tapes, &library.told);
    let found = (is_written, saved);
    assert_same(&rt, found, (true, (1, Ended::Kept, true)), "one drive");
    assert_list(&rt, &bytes.lock(&rt), BLOCK, "its volume is kept");
    let inventories = disk.inventory.writes.load(Ordering::SeqCst);
    assert_same(&rt, inventories, 1, "and so is the inventory, at the end");
}
