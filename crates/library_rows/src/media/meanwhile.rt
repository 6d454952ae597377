//! A filemark that is written and is to be kept while the one before is being kept.

ghost use Rattle.device_server.specs.Attending.{WasAsked};
ghost use Rattle.device_server.specs.Settled.{SameButSettled};

use super::commands::{A, B, Ended, ended_by, marked};
use super::library::{Keeper, keeper};
use super::memory_disk::MemoryDisk;
use super::units::{BLOCK_AND_MARK, Units, WRITE_HI, WRITE_MARK};
use crate::comparing::{assert_list, assert_same};
use device_server::Attendant;
use library_start::Device;
use std::alloc::Global;
use std::process::Abort;
use std::sync::atomic::{AtomicBool, AtomicU32, Ordering};
use std::sync::{Mutex, Wait};
use tape_keeper::{KeepEvent, KeepListener, KeepPlace, TapeSource};
use tickets::Ticket;

/// A listener that nothing is told.
#[derive(Clone, Copy)]
struct Nobody;

impl KeepListener for Nobody {
    fn tell(&self, _event: &KeepEvent) {}

    fn settled(&self) {}
}

/// A host that writes a filemark on B as soon as something was copied of it, and looks how keeping both ended whenever something is settled.
#[derive(Drop)]
struct Host<'v, 'a, R: Abort + Wait> {
    rt: &'v R,
    alloc: Global,
    units: &'v Units,
    keeper: &'v Keeper<'a, R>,
    /// Whether it still writes one.
    writes: AtomicBool,
    tickets: Mutex<[Option<Ticket>; 2]>,
    settlements: AtomicU32,
    /// How it was at the first settlement, and at the second.
    seen: Mutex<[[Ended; 2]; 2]>,
}

impl<'v, 'a, R: Abort + Wait> Host<'v, 'a, R> {
    /// Asks that what is on B be kept.
    fn begin(&self) -> Option<Ticket> {
        self.keeper.begin(self.rt, &Nobody, marked(B))
    }

    fn ended(&self, ticket: Option<Ticket>) -> Ended {
        match ticket {
            Some(ticket) => ended_by(self.keeper.outcome_of(self.rt, ticket)),
            None => Ended::NoTicket,
        }
    }
}

impl<'v, 'a, R: Abort + Wait> KeepListener for Host<'v, 'a, R> {
    fn tell(&self, _event: &KeepEvent) {}

    fn settled(&self) {
        let [first, second] = *self.tickets.lock(self.rt);
        let seen = [self.ended(first), self.ended(second)];
        let place = self.settlements.fetch_add(1, Ordering::SeqCst);
        let mut all = self.seen.lock(self.rt);
        match place {
            0 => all[0] = seen,
            1 => all[1] = seen,
            _ => {}
        }
    }
}

impl<'v, 'a, R: Abort + Wait> TapeSource<Device> for Host<'v, 'a, R> {
    // of what is under their locks nothing is known
    ghost has_unit = { λ _ _ _. ⊥ };

    fn units(&self) -> u8 {
        2
    }

    fn attend<W: Wait, X: Attendant<Device>>(&self, rt: &W, lun: u8, attendant: &mut X) {
        self.units.attend(rt, lun, attendant);
        if lun == 1 && self.writes.swap(false, Ordering::SeqCst) {
            let _ = self
                .units
                .performs(self.rt, self.alloc, 1, &WRITE_MARK, &[]);
            self.tickets.lock(self.rt)[1] = self.begin();
        }
    }
}

#[test]
fn what_comes_meanwhile_is_kept_anew(rt: HostRuntime) {
    let alloc = rt.alloc();
    let disk = MemoryDisk::new(alloc);
    let units = Units::new(alloc, A, B);
    let keeper = keeper(&rt, alloc, &disk);
    let host = Host {
        rt: &rt,
        alloc,
        units: &units,
        keeper: &keeper,
        writes: AtomicBool::new(true),
        tickets: Mutex::new([None; 2]),
        settlements: AtomicU32::new(0),
        seen: Mutex::new([[Ended::NoTicket; 2]; 2]),
    };
    let is_written = units.performs(&rt, alloc, 1, &WRITE_HI, b"hi");
    host.tickets.lock(&rt)[0] = host.begin();
    keeper.take_turn(&rt, alloc, &host, &host, KeepPlace::Drive(1));
    let seen = *host.seen.lock(&rt);
    let expected = [[Ended::Kept, Ended::NotYet], [Ended::Kept, Ended::Kept]];
    assert_same(&rt, (is_written, seen), (true, expected), "one by one");
    let settlements = host.settlements.load(Ordering::SeqCst);
    assert_same(&rt, settlements, 2, "each has a settlement of its own");
    assert_list(
        &rt,
        &disk.b.bytes.lock(&rt),
        BLOCK_AND_MARK,
        "both are in the file",
    );
}
