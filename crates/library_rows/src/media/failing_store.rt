use tape_flush::{ImageStore, StoreFault};

/// A file in memory of which the next call that brings it to the disk fails: then it has forgotten what wasn't there yet, and has something
/// else in its place.
#[derive(Drop)]
pub(crate) struct FailingStore {
    pub(crate) bytes: Vec<u8>,
    /// So many of these in front are on the disk.
    pub(crate) synced: usize,
    /// What its record says.
    pub(crate) noted: u64,
    pub(crate) fails: bool,
}

impl FailingStore {
    fn forget(&mut self) -> Result<(), StoreFault> {
        self.fails = false;
        self.bytes.truncate(self.synced);
        let _ = self.bytes.extend_from_slice(b"\x03\0\0\0old");
        Err(StoreFault::Failed)
    }
}

impl ImageStore for FailingStore {
    ghost did = { λ before call after. Unit {0} };

    ghost does = { λ before call after done. tt };

    fn truncate(&mut self, size: u64) -> Result<(), StoreFault> {
        self.bytes.truncate(size as usize);
        self.synced = self.synced.min(size as usize);
        Ok(())
    }

    fn append(&mut self, offset: u64, bytes: &[u8]) -> Result<(), StoreFault> {
        if offset != self.bytes.len() as u64 {
            return Err(StoreFault::Failed);
        }
        match self.bytes.extend_from_slice(bytes) {
            Ok(()) => Ok(()),
            Err(_) => Err(StoreFault::Full),
        }
    }

    fn sync(&mut self) -> Result<(), StoreFault> {
        if self.fails {
            self.forget()
        } else {
            self.synced = self.bytes.len();
            Ok(())
        }
    }

    fn note(&mut self, size: u64) -> Result<(), StoreFault> {
        self.noted = size;
        Ok(())
    }

    fn renewed(&self) -> Result<FailingStore, StoreFault> {
        Ok(FailingStore {
            bytes: Vec::new(*self.bytes.allocator()),
            synced: 0,
            noted: 0,
            fails: false,
        })
    }
}
