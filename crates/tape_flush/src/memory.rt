ghost use Rattle.std.specs.Prelude.{◌≤◌};
ghost use Rattle.std.specs.Vec.{vec_len};

use crate::store::{ImageStore, StoreFault};

/// A file in memory, whose calls fail only where memory is refused, or where the file was changed by something else.
#[derive(Drop)]
pub struct MemoryStore {
    pub bytes: Vec<u8>,
    /// So many of the first of these were brought to the disk.
    pub synced: usize,
    /// What its record says.
    pub noted: u64,
    ghost within: { synced ≤ vec_len bytes },
}

impl ImageStore for MemoryStore {
    ghost use Rattle.std.specs.Prelude.{Some};
    ghost use Rattle.tape_flush.specs.Stores.{Does};
    ghost use Rattle.tape_flush.specs.Memory.{memory_file};

    ghost file = { λ store. Some (memory_file store) };

    ghost did = { λ before call after. Does call (memory_file before) (memory_file after) };

    ghost does = { λ before call after done. done };

    fn truncate(&mut self, size: u64) -> Result<(), StoreFault> {
        self.synced = self.synced.min(size as usize);
        self.bytes.truncate(size as usize);
        Ok(())
    }

    fn append(&mut self, offset: u64, bytes: &[u8]) -> Result<(), StoreFault> {
        if offset != self.bytes.len() as u64 {
            return Err(StoreFault::Failed);
        }
        match self.bytes.extend_from_slice(bytes) {
            Ok(()) => Ok(()),
            Err(_) => Err(StoreFault::Full),
        }
    }

    fn sync(&mut self) -> Result<(), StoreFault> {
        self.synced = self.bytes.len();
        Ok(())
    }

    fn note(&mut self, size: u64) -> Result<(), StoreFault> {
        self.noted = size;
        Ok(())
    }

    fn renewed(&self) -> Result<MemoryStore, StoreFault> {
        Ok(MemoryStore {
            bytes: Vec::new(*self.bytes.allocator()),
            synced: 0,
            noted: 0,
        })
    }
}
