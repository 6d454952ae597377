//! How much memory tapes take together.

use std::alloc::{AllocError, Global};
use std::sync::Arc;
use std::sync::atomic::{AtomicU64, Ordering};

/// How much memory those tapes may take together that share it, or that they may take as much as there is. A growth beyond it is
/// refused, as one is for which the system has no memory.
#[derive(Drop)]
pub struct MemoryLimit {
    shared: Option<Arc<TakenMemory, Global>>,
}

#[derive(Drop)]
struct TakenMemory {
    bytes: AtomicU64,
    most: u64,
}

/// Memory that counts as taken for as long as this lives.
pub(crate) struct MemoryLease {
    limit: MemoryLimit,
    bytes: u64,
}

impl MemoryLimit {
    /// As much as there is.
    pub fn none() -> MemoryLimit {
        MemoryLimit { shared: None }
    }

    /// So many bytes for all tapes that share it.
    pub fn new(alloc: Global, most: u64) -> Result<MemoryLimit, AllocError> {
        let taken = TakenMemory {
            bytes: AtomicU64::new(0),
            most,
        };
        Ok(MemoryLimit {
            shared: Some(Arc::new(alloc, taken)?),
        })
    }

    /// The same limit, for one more tape.
    pub fn share(&self) -> Result<MemoryLimit, AllocError> {
        let shared = match &self.shared {
            Some(taken) => Some(Arc::try_clone(taken)?),
            None => None,
        };
        Ok(MemoryLimit { shared })
    }

    /// Takes so many bytes, if they are left.
    pub(crate) fn lease(&self, bytes: usize) -> Result<MemoryLease, AllocError> {
        let limit = self.share()?;
        let bytes = bytes as u64;
        let lease = MemoryLease { limit, bytes };
        if let Some(taken) = &self.shared {
            let before = taken.bytes.fetch_add(bytes, Ordering::SeqCst);
            if before.saturating_add(bytes) > taken.most {
                return Err(AllocError);
            }
        }
        Ok(lease)
    }
}

impl MemoryLease {
    /// No memory.
    pub(crate) fn none() -> MemoryLease {
        MemoryLease {
            limit: MemoryLimit::none(),
            bytes: 0,
        }
    }
}

impl Drop for MemoryLease {
    fn drop(self) {
        let Self { limit, bytes } = self;
        if let Some(taken) = &limit.shared {
            taken.bytes.fetch_sub(bytes, Ordering::SeqCst);
        }
    }
}
