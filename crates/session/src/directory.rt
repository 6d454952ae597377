ghost use Rattle.std.specs.Prelude.{◌≡◌, ◌≢◌, ◌⊎◌, ◌↔◌, ℕ, Some, None, Err, IfOk, IfErr, OnErr, IfSome, IfNone};
ghost use Rattle.slab.specs.Slab.{get};
ghost use Rattle.session.specs.declared.fault.SessionFault.TheVariants.{AlreadyConnected, NoMemory};
ghost use Rattle.session.specs.Directories.{nexus_at, IsIn};

use crate::fault::SessionFault;
use scsi_nexus::Nexus;
use slab::Slab;
use std::alloc::Global;
use std::marker::Model;

/// The nexuses that have a session, each under a key of its own.
#[derive(Drop)]
pub struct Directory {
    nexuses: Slab<Nexus>,
}

impl Model for Directory {
    ghost use Rattle.std.specs.Prelude.{List, Option};
    ghost use Rattle.scsi_nexus.specs.declared.nexus.Nexus.{Nexus};

    ghost Value = { List (Option Nexus) };

    ghost view = { λ d. d.nexuses.slots };
}

/// The key of a nexus, if it has one.
fn key_of(nexuses: &Slab<Nexus>, nexus: Nexus) -> Option<usize>
    ensures found { IfSome result (λ key. get nexuses.now key ≡ Some nexus) }
    ensures absent { IfNone result ((key : ℕ) → get nexuses.now key ≢ Some nexus) }
{
    'entries: for (key, other) in nexuses.iter() {
        if *other == nexus {
            return Some(key);
        }
    }
    None
}

impl Directory {
    /// Nobody has a session.
    pub fn new(alloc: Global) -> Directory
        ensures { (key : ℕ) → nexus_at result key ≡ None }
    {
        Directory {
            nexuses: Slab::new(alloc),
        }
    }

    /// Notes that a nexus has a session, and gives its key. `AlreadyConnected` exactly where it has one
    /// already, else `NoMemory` where memory is refused; then nothing changes.
    pub fn login(&mut self, nexus: Nexus) -> Result<usize, SessionFault>
        ensures key { IfOk result (λ key. (nexus_at self.old key ≡ None) × (nexus_at self.new key ≡ Some nexus)) }
        ensures others { IfOk result (λ key. (other : ℕ) → other ≢ key → nexus_at self.new other ≡ nexus_at self.old other) }
        ensures already { (result ≡ Err AlreadyConnected) ↔ IsIn self.old nexus }
        ensures faults { IfErr result (λ fault. (fault ≡ AlreadyConnected) ⊎ (fault ≡ NoMemory)) }
        ensures same { OnErr result ((other : ℕ) → nexus_at self.new other ≡ nexus_at self.old other) }
    {
        if key_of(&self.nexuses, nexus).is_some() {
            return Err(SessionFault::AlreadyConnected);
        }
        match self.nexuses.insert(nexus) {
            Ok(key) => Ok(key),
            Err(_) => Err(SessionFault::NoMemory),
        }
    }

    /// Forgets the nexus of a key.
    pub fn logout(&mut self, key: usize)
        ensures gone { nexus_at self.new key ≡ None }
        ensures others { (other : ℕ) → other ≢ key → nexus_at self.new other ≡ nexus_at self.old other }
    {
        let _ = self.nexuses.try_remove(key);
    }
}
