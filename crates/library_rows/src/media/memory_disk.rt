//! A disk in memory: the files of two volumes, each of which may be full, or fail for good, and an inventory.

use library_inventory::Inventory;
use saved_media::InventoryStore;
use std::alloc::Global;
use std::sync::atomic::{AtomicBool, AtomicU32, Ordering};
use std::sync::{Mutex, Wait};
use tape_flush::{ImageStore, StoreFault};

/// A file in memory, which may be full, or fail for good, and the one that is made then.
#[derive(Drop)]
pub(super) struct MemoryFile {
    pub(super) bytes: Mutex<Vec<u8>>,
    pub(super) is_full: AtomicBool,
    pub(super) fails: AtomicBool,
    /// How often it was brought to the disk.
    pub(super) syncs: AtomicU32,
    pub(super) new_bytes: Mutex<Vec<u8>>,
    pub(super) new_fails: AtomicBool,
}

impl MemoryFile {
    fn new(alloc: Global) -> MemoryFile {
        MemoryFile {
            bytes: Mutex::new(Vec::new(alloc)),
            is_full: AtomicBool::new(false),
            fails: AtomicBool::new(false),
            syncs: AtomicU32::new(0),
            new_bytes: Mutex::new(Vec::new(alloc)),
            new_fails: AtomicBool::new(false),
        }
    }
}

/// The files of the volumes A and B, and the inventory.
#[derive(Drop)]
pub(super) struct MemoryDisk {
    pub(super) a: MemoryFile,
    pub(super) b: MemoryFile,
    pub(super) inventory: MemoryInventory,
}

impl MemoryDisk {
    pub(super) fn new(alloc: Global) -> MemoryDisk {
        MemoryDisk {
            a: MemoryFile::new(alloc),
            b: MemoryFile::new(alloc),
            inventory: MemoryInventory {
                fails: AtomicBool::new(false),
                writes: AtomicU32::new(0),
            },
        }
    }
}

/// How often an inventory was written, which may fail.
#[derive(Drop)]
pub(super) struct MemoryInventory {
    pub(super) fails: AtomicBool,
    pub(super) writes: AtomicU32,
}

/// Such an inventory as a store.
#[derive(Drop)]
pub(super) struct SharedInventory<'a>(pub(super) &'a MemoryInventory);

impl InventoryStore for SharedInventory<'_> {
    fn write(&mut self, _inventory: &Inventory) -> Result<(), StoreFault> {
        if self.0.fails.load(Ordering::SeqCst) {
            return Err(StoreFault::Failed);
        }
        self.0.writes.fetch_add(1, Ordering::SeqCst);
        Ok(())
    }
}

/// Which of the two files of a volume.
#[derive(Clone, Copy, PartialEq, Eq)]
enum Age {
    Old,
    New,
}

/// Such a file as the store of an image.
#[derive(Drop)]
pub(super) struct SharedFile<'a, R: Wait> {
    rt: &'a R,
    file: &'a MemoryFile,
    age: Age,
}

impl<'a, R: Wait> SharedFile<'a, R> {
    /// The file that is there at first.
    pub(super) fn old(rt: &'a R, file: &'a MemoryFile) -> SharedFile<'a, R> {
        SharedFile {
            rt,
            file,
            age: Age::Old,
        }
    }

    fn bytes(&self) -> &'a Mutex<Vec<u8>> {
        match self.age {
            Age::Old => &self.file.bytes,
            Age::New => &self.file.new_bytes,
        }
    }

    fn fails(&self) -> bool {
        match self.age {
            Age::Old => self.file.fails.load(Ordering::SeqCst),
            Age::New => self.file.new_fails.load(Ordering::SeqCst),
        }
    }
}

impl<'a, R: Wait> ImageStore for SharedFile<'a, R> {
    ghost did = { λ before call after. Unit {0} };

    ghost does = { λ before call after done. tt };

    fn truncate(&mut self, size: u64) -> Result<(), StoreFault> {
        self.bytes().lock(self.rt).truncate(size as usize);
        Ok(())
    }

    fn append(&mut self, _offset: u64, bytes: &[u8]) -> Result<(), StoreFault> {
        if self.file.is_full.load(Ordering::SeqCst) {
            return Err(StoreFault::Full);
        }
        match self.bytes().lock(self.rt).extend_from_slice(bytes) {
            Ok(()) => Ok(()),
            Err(_) => Err(StoreFault::Full),
        }
    }

    fn sync(&mut self) -> Result<(), StoreFault> {
        if self.fails() {
            Err(StoreFault::Failed)
        } else {
            self.file.syncs.fetch_add(1, Ordering::SeqCst);
            Ok(())
        }
    }

    fn note(&mut self, _size: u64) -> Result<(), StoreFault> {
        Ok(())
    }

    fn renewed(&self) -> Result<SharedFile<'a, R>, StoreFault> {
        self.file.new_bytes.lock(self.rt).clear();
        Ok(SharedFile {
            rt: self.rt,
            file: self.file,
            age: Age::New,
        })
    }
}
