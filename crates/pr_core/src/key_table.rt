ghost use Rattle.std.specs.Prelude.{◌≡◌, ◌≢◌, ℕ, ◌<◌, ◌≤◌, List, [], ◌||◌, ◌==◌, not, nat_le, length, filter};
ghost use Rattle.std.specs.FinMap.{put};
ghost use Rattle.std.specs.List.{list_any};
ghost use Rattle.scsi_nexus.specs.Order.{nexus_cmp, same_nexus};
ghost use Rattle.permit_tables.specs.Pairs.{key_in};
ghost use Rattle.pr_core.specs.State.{capacity};
ghost use Rattle.pr_core.specs.Table.{IsProper, put_all, remove_all, register_all};

use arrayvec::ArrayVec;
use scsi_nexus::{LIST_CAPACITY, Nexus, place_of};
use std::marker::Model;

/// How many registrations a unit has room for (profile).
pub const REGISTRATIONS: usize = LIST_CAPACITY;

/// The registered nexuses with their keys, ascending by nexus, in fixed room.
#[derive(Drop)]
pub(crate) struct KeyTable {
    entries: ArrayVec<(Nexus, u64), REGISTRATIONS>,
}

impl Model for KeyTable {
    ghost use Rattle.std.specs.Prelude.{ℕ, List};
    ghost use Rattle.scsi_nexus.specs.declared.nexus.Nexus.{Nexus};
    ghost use Rattle.pr_core.specs.Table.{IsProper};

    ghost Value = { List (Nexus × ℕ) };

    ghost view = { λ table. table.entries.items };

    ghost invariant = { λ table. IsProper table.entries.items };
}

impl KeyTable {
    pub(crate) fn new() -> Self
        ensures { result ≡ [] }
    {
        KeyTable {
            entries: ArrayVec::new(),
        }
    }

    /// The registrations, ascending.
    pub(crate) fn entries(&self) -> &[(Nexus, u64)]
        ensures entries { result.now ≡ self.now }
        ensures room { length self.now ≤ capacity }
        ensures proper { IsProper self.now }
    {
        self.entries.as_slice()
    }

    /// The key of a nexus, 0 for none.
    pub(crate) fn key(&self, nexus: Nexus) -> u64
        ensures { result ≡ key_in self.now nexus }
    {
        let entries = self.entries.as_slice();
        match place_of(entries, nexus) {
            Ok(place) => entries[place].1,
            Err(_) => 0,
        }
    }

    /// Whether some nexus has this key.
    pub(crate) fn has_key(&self, key: u64) -> bool
        ensures { result ≡ list_any (λ e. e.1 == key) self.now }
    {
        self.entries.as_slice().iter().any(|entry| entry.1 == key)
    }

    /// Registers a nexus with a key, or changes its key.
    pub(crate) fn put(&mut self, nexus: Nexus, key: u64)
        requires keyed { key ≢ 0 }
        requires room { length (put nexus_cmp nexus key self.old) ≤ capacity }
        ensures { self.new ≡ put nexus_cmp nexus key self.old }
    {
        match place_of(self.entries.as_slice(), nexus) {
            Ok(place) => self.entries.as_mut_slice()[place].1 = key,
            Err(place) => self.entries.insert(place, (nexus, key)),
        }
    }
}

impl KeyTable {
    /// Unregisters all.
    pub(crate) fn clear(&mut self)
        ensures { self.new ≡ [] }
    {
        self.entries.clear();
    }

    /// Unregisters all but some nexus.
    pub(crate) fn keep_only(&mut self, nexus: Nexus)
        ensures { self.new ≡ filter (λ e. same_nexus e.0 nexus) self.old }
    {
        self.entries.retain(|entry| entry.0 == nexus);
    }

    /// Unregisters a nexus.
    pub(crate) fn remove(&mut self, nexus: Nexus)
        ensures { self.new ≡ filter (λ e. not (same_nexus e.0 nexus)) self.old }
    {
        self.entries.retain(|entry| entry.0 != nexus);
    }

    /// Unregisters each nexus with this key.
    pub(crate) fn remove_key(&mut self, key: u64)
        ensures { self.new ≡ filter (λ e. not (e.1 == key)) self.old }
    {
        self.entries.retain(|entry| entry.1 != key);
    }

    /// Unregisters each other nexus with this key.
    pub(crate) fn remove_others(&mut self, key: u64, nexus: Nexus)
        ensures { self.new ≡ filter (λ e. same_nexus e.0 nexus || not (e.1 == key)) self.old }
    {
        self.entries
            .retain(|entry| entry.0 == nexus || entry.1 != key);
    }
}

impl KeyTable {
    /// Registers these nexuses with a key, or unregisters them where it is 0.
    pub(crate) fn register_all(&mut self, nexuses: &[Nexus], key: u64)
        requires { length (register_all key self.old nexuses.now) ≤ capacity }
        ensures { self.new ≡ register_all key self.old nexuses.now }
    {
        if key == 0 {
            self.remove_all(nexuses);
        } else {
            self.put_all(nexuses, key);
        }
    }

    #[tactic(auto, using(crate::proofs::ManyLaws::put_within, crate::proofs::ManyLaws::put_all_more))]
    fn put_all(&mut self, nexuses: &[Nexus], key: u64)
        requires keyed { key ≢ 0 }
        requires room { length (put_all key self.old nexuses.now) ≤ capacity }
        ensures { self.new ≡ put_all key self.old nexuses.now }
    {
        for nexus in nexuses {
            self.put(*nexus, key);
        }
    }

    #[tactic(auto, using(crate::proofs::ManyLaws::remove_all_more))]
    fn remove_all(&mut self, nexuses: &[Nexus])
        ensures { self.new ≡ remove_all self.old nexuses.now }
    {
        for nexus in nexuses {
            self.remove(*nexus);
        }
    }

    /// Whether there is room for all of these nexuses.
    #[tactic(auto, using(crate::proofs::ManyLaws::length_put_all))]
    pub(crate) fn has_room_for(&self, nexuses: &[Nexus], key: u64) -> bool
        requires { key ≢ 0 }
        ensures { result ≡ nat_le (length (put_all key self.now nexuses.now)) capacity }
    {
        if self.entries.len() + nexuses.len() <= REGISTRATIONS {
            return true;
        }
        match nexuses {
            [nexus] => self.has_room_for_one(*nexus, key),
            _ => self.has_room_for_several(nexuses, key),
        }
    }

    /// `has_room_for`, tried on a copy. The copy is large, so it stands in a function of its own.
    fn has_room_for_several(&self, nexuses: &[Nexus], key: u64) -> bool
        requires { key ≢ 0 }
        ensures { result ≡ nat_le (length (put_all key self.now nexuses.now)) capacity }
    {
        let mut copy = self.copy();
        copy.takes_all(nexuses, key)
    }

    /// Registers these nexuses as long as there is room: whether there was for all.
    #[tactic(auto, using(crate::proofs::ManyLaws::put_all_more, crate::proofs::ManyLaws::too_many))]
    fn takes_all(&mut self, nexuses: &[Nexus], key: u64) -> bool
        requires { key ≢ 0 }
        ensures { result ≡ nat_le (length (put_all key self.old nexuses.now)) capacity }
    {
        for nexus in nexuses {
            if !self.has_room_for_one(*nexus, key) {
                return false;
            }
            self.put(*nexus, key);
        }
        // For the prover: there was room for what stands.
        let _entries = self.entries();
        true
    }

    /// Whether there is room for a nexus.
    #[tactic(auto, using(crate::proofs::ManyLaws::room_for_one))]
    fn has_room_for_one(&self, nexus: Nexus, key: u64) -> bool
        ensures { result ≡ nat_le (length (put nexus_cmp nexus key self.now)) capacity }
    {
        self.entries().len() < REGISTRATIONS || self.key(nexus) != 0
    }
}

impl KeyTable {
    /// An equal table.
    pub(crate) fn copy(&self) -> KeyTable
        ensures { result ≡ self.now }
    {
        let mut entries = ArrayVec::new();
        let copied = entries.try_extend_from_slice(self.entries.as_slice());
        // Both have the same room: the prover alone is told.
        prove!(copied.is_ok());
        KeyTable { entries }
    }
}
