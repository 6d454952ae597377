use device_server::DeviceServer;
use kept_unit::{Kept, UnitLedger};
use std::sync::Mutex;

/// A cache line of zeros: what lies on its two sides never shares a line.
pub type CachePadding = [u64; 8];

/// A unit under its lock, with a cache line of nothing on each side: units lie side by side in a library, and a thread that
/// takes one's lock must not take the line of another's.
#[repr(C)]
#[derive(Drop)]
pub(crate) struct Locked<const LUN: u8, L: UnitLedger, D: DeviceServer> {
    _before: CachePadding,
    lock: Mutex<Kept<LUN, L, D>>,
    _behind: CachePadding,
}

impl<const LUN: u8, L: UnitLedger, D: DeviceServer> Locked<LUN, L, D> {
    pub(crate) fn new(kept: Kept<LUN, L, D>) -> Locked<LUN, L, D> {
        Locked {
            _before: [0; 8],
            lock: Mutex::new(kept),
            _behind: [0; 8],
        }
    }

    pub(crate) fn mutex(&self) -> &Mutex<Kept<LUN, L, D>> {
        &self.lock
    }

    pub(crate) fn into_inner(self) -> Kept<LUN, L, D> {
        self.lock.into_inner()
    }
}
