ghost use Rattle.std.specs.Prelude.{◌≡◌, ◌≤◌, ◌↔◌, List, [], ◌∷◌, ◌++◌, length, IsErr, OnOk, OnErr};
ghost use Rattle.scsi_nexus.specs.Limits.{list_limit};

use crate::nexus::Nexus;
use arrayvec::ArrayVec;
use std::marker::Model;
use thiserror::Error;

/// How many nexuses a list has room for (profile).
pub const LIST_CAPACITY: usize = 256;

/// The list has no room for one more nexus.
#[derive(Clone, Copy, Debug, Drop, Error)]
#[error("no room for one more nexus")]
pub struct ListFull;

/// A list of nexuses in fixed room, which takes no memory.
#[derive(Drop)]
pub struct NexusList {
    nexuses: ArrayVec<Nexus, LIST_CAPACITY>,
}

impl Model for NexusList {
    ghost use Rattle.std.specs.Prelude.{List, ◌≤◌, length};
    ghost use Rattle.std.specs.Coded.{coded_list};
    ghost use Rattle.scsi_nexus.specs.declared.nexus.Nexus.{Nexus};
    ghost use Rattle.scsi_nexus.specs.Limits.{list_limit};
    ghost use Rattle.scsi_nexus.specs.Order.{coded_nexus};

    ghost Value = { List Nexus };

    ghost coded = { coded_list coded_nexus };

    ghost view = { λ list. list.nexuses.items };

    ghost invariant = { λ list. length list.nexuses.items ≤ list_limit };
}

impl NexusList {
    /// An empty list.
    pub fn new() -> Self
        ensures { result ≡ [] }
    {
        NexusList {
            nexuses: ArrayVec::new(),
        }
    }

    /// Adds a nexus at the end. A full list is unchanged.
    pub fn push(&mut self, nexus: Nexus) -> Result<(), ListFull>
        ensures ok { OnOk result (self.new ≡ self.old ++ nexus ∷ []) }
        ensures full { IsErr result ↔ (length self.old ≡ list_limit) }
        ensures err { OnErr result (self.new ≡ self.old) }
    {
        if self.nexuses.is_full() {
            return Err(ListFull);
        }
        self.nexuses.push(nexus);
        Ok(())
    }

    /// The nexuses, in the order in which they were added.
    pub fn items(&self) -> &[Nexus]
        ensures items { result.now ≡ self.now }
        ensures room { length self.now ≤ list_limit }
    {
        self.nexuses.as_slice()
    }
}
