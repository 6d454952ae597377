//! A library of two drives, whose volumes A and B are kept on a disk in memory, and what is told of that.

use super::commands::{A, B, Ended, ended_by};
use super::memory_disk::{MemoryDisk, SharedFile, SharedInventory};
use super::units::{Units, image_in};
use library_inventory::LibrarySize;
use program_options::LibraryProfile;
use saved_media::MediaKeeper;
use std::alloc::Global;
use std::process::Abort;
use std::sync::atomic::{AtomicU32, Ordering};
use std::sync::{Mutex, Wait};
use std::time::Clock;
use tape_keeper::{CarriedOutCommand, KeepChange, KeepEvent, KeepListener, KeepPlace};
use tape_medium::VolumeTag;
use tickets::Ticket;

const SIZE: LibrarySize = LibrarySize {
    drives: 1,
    slots: 1,
    import_exports: 0,
};

/// A letter for each change that was told, and how often it was told that something is settled.
#[derive(Drop)]
pub(super) struct Told<'a, R: Wait> {
    rt: &'a R,
    pub(super) letters: Mutex<Vec<u8>>,
    settlements: AtomicU32,
}

impl<'a, R: Wait> KeepListener for Told<'a, R> {
    fn tell(&self, event: &KeepEvent) {
        let letter = match event.change {
            KeepChange::Fails(_) => b'F',
            KeepChange::GoesOn => b'G',
            KeepChange::Lost => b'L',
        };
        let _ = self.letters.lock(self.rt).push(letter);
    }

    fn settled(&self) {
        self.settlements.fetch_add(1, Ordering::SeqCst);
    }
}

pub(super) type Keeper<'a, R> = MediaKeeper<SharedFile<'a, R>, SharedInventory<'a>>;

/// The keeper of A and B.
pub(super) fn keeper<'a, R: Abort + Wait>(
    rt: &'a R,
    alloc: Global,
    disk: &'a MemoryDisk,
) -> Keeper<'a, R> {
    let images = [
        image_in(rt, alloc, A, SharedFile::old(rt, &disk.a)),
        image_in(rt, alloc, B, SharedFile::old(rt, &disk.b)),
    ];
    let images = Vec::from_array(alloc, images).expect(rt, "memory");
    MediaKeeper::new(
        alloc,
        LibraryProfile::Spec,
        SIZE,
        images,
        SharedInventory(&disk.inventory),
    )
    .expect(rt, "memory")
}

#[derive(Drop)]
pub(super) struct Library<'a, R: Abort + Clock + Wait> {
    rt: &'a R,
    alloc: Global,
    pub(super) units: Units,
    pub(super) told: Told<'a, R>,
    pub(super) keeper: Keeper<'a, R>,
}

impl<'a, R: Abort + Clock + Wait> Library<'a, R> {
    /// With these volumes in its drives.
    pub(super) fn new(
        rt: &'a R,
        alloc: Global,
        disk: &'a MemoryDisk,
        zero: VolumeTag,
        one: VolumeTag,
    ) -> Library<'a, R> {
        Library {
            rt,
            alloc,
            units: Units::new(alloc, zero, one),
            told: Told {
                rt,
                letters: Mutex::new(Vec::new(alloc)),
                settlements: AtomicU32::new(0),
            },
            keeper: keeper(rt, alloc, disk),
        }
    }

    /// Asks that what a command left be kept.
    pub(super) fn begin(&self, command: CarriedOutCommand) -> Option<Ticket> {
        self.keeper.begin(self.rt, &self.told, command)
    }

    /// Does what is to be done at a place.
    pub(super) fn work(&self, place: KeepPlace) {
        self.keeper
            .take_turn(self.rt, self.alloc, &self.units, &self.told, place);
    }

    /// How keeping what a ticket is for ended.
    pub(super) fn ended(&self, ticket: Option<Ticket>) -> Ended {
        match ticket {
            Some(ticket) => ended_by(self.keeper.outcome_of(self.rt, ticket)),
            None => Ended::NoTicket,
        }
    }

    /// Asks that what a command left be kept, and does so at a place. How that ended.
    pub(super) fn keep(&self, command: CarriedOutCommand, place: KeepPlace) -> Ended {
        let ticket = self.begin(command);
        self.work(place);
        self.ended(ticket)
    }

    /// A thread of its own comes to a place where something is to be done already, and does nothing yet.
    pub(super) fn serve(&self, place: KeepPlace) -> bool {
        self.keeper.await_turn(self.rt, place)
    }

    /// How often it was told that something is settled.
    pub(super) fn settlements(&self) -> u32 {
        self.told.settlements.load(Ordering::SeqCst)
    }
}
