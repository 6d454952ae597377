ghost use Rattle.std.specs.Prelude.{◌≡◌};
ghost use Rattle.tape_medium.specs.Settling.{settled_to};

use crate::tape::Tape;

/// The primary volume tag of a volume: 32 bytes, padded with spaces (SMC-3, "READ ELEMENT STATUS command").
#[derive(Clone, Copy, PartialEq, Eq, PartialOrd, Ord)]
pub struct VolumeTag(pub [u8; 32]);

/// A removable volume.
#[derive(Drop)]
pub struct Volume {
    pub tag: VolumeTag,
    /// Whether its medium is write protected.
    pub protected: bool,
    pub tape: Tape,
}

impl Volume {
    /// From now on the first `objects` objects of its tape count as unchanged, or all where it has fewer.
    pub fn settle(&mut self, objects: u32)
        ensures { self.new ≡ settled_to objects self.old }
    {
        let count = objects.min(self.tape.object_count());
        self.tape.settle(count);
    }
}
