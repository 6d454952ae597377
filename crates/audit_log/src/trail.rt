use crate::record::Record;
use std::alloc::{AllocError, Global};
use std::marker::Model;
use std::mem;

/// The records of a unit, numbered without a gap from one more than the last number before them.
#[derive(Drop)]
pub struct Trail {
    base: u64,
    records: Vec<Record>,
}

impl Model for Trail {
    ghost use Rattle.std.specs.Prelude.{◌-◌, ◌+◌, ◌<◌, ◌^◌, length, vec_capacity, vec_len};
    ghost use Rattle.audit_log.specs.TrailView.{TrailView, IsNumbered};

    ghost Value = { TrailView };

    ghost view = { λ t. record {
      base = t.base;
      records = t.records.items;
      room = vec_capacity t.records - vec_len t.records;
    } };

    ghost invariant = { λ t. (t.base + length t.records.items < 2 ^ 64) × IsNumbered t.base t.records.items };
}

impl Trail {
    ghost use Rattle.std.specs.Prelude.{◌≡◌, ◌<◌, ◌≤◌, ◌+◌, [], ◌∷◌, ◌++◌, length, vec_capacity, OnOk, OnErr};
    ghost use Rattle.audit_log.specs.TrailView.{IsNumbered, last_of};

    /// No records yet. The first will have the number after `last`.
    pub fn new(alloc: Global, last: u64) -> Trail
        ensures { result ≡ record { base = last; records = []; room = 0 } }
    {
        Trail {
            base: last,
            records: Vec::new(alloc),
        }
    }

    /// The last number that was used.
    pub fn last(&self) -> u64
        ensures { result ≡ last_of self.now }
    {
        self.base + self.records.len() as u64
    }

    /// The records, each numbered one more than the one before.
    pub fn records(&self) -> &[Record]
        ensures records { result.now ≡ self.now.records }
        ensures numbered { IsNumbered self.now.base self.now.records }
    {
        self.records.as_slice()
    }

    /// Makes room for one record more, where there is none. Nothing changes where memory is refused.
    pub fn reserve_one(&mut self) -> Result<(), AllocError>
        ensures base { self.new.base ≡ self.old.base }
        ensures records { self.new.records ≡ self.old.records }
        ensures room { OnOk result (0 < self.new.room) }
        ensures kept { self.old.room ≤ self.new.room }
        ensures err { OnErr result (self.new ≡ self.old) }
        ensures only_without_room { OnErr result (self.old.room ≡ 0) }
    {
        self.records.reserve(1)
    }

    /// Makes room for so many records more, where there isn't. Nothing changes where memory is refused.
    pub fn reserve(&mut self, count: usize) -> Result<(), AllocError>
        ensures base { self.new.base ≡ self.old.base }
        ensures records { self.new.records ≡ self.old.records }
        ensures room { OnOk result (count ≤ self.new.room) }
        ensures kept { self.old.room ≤ self.new.room }
        ensures err { OnErr result (self.new ≡ self.old) }
        ensures only_without_room { OnErr result (self.old.room < count) }
    {
        self.records.reserve(count)
    }

    /// Adds a record with the next number, in room that was made before. Takes no memory.
    pub fn push(&mut self, entry: Record)
        requires room { 0 < self.old.room }
        requires number { entry.number ≡ last_of self.old + 1 }
        ensures base { self.new.base ≡ self.old.base }
        ensures records { self.new.records ≡ self.old.records ++ entry ∷ [] }
        ensures room { self.new.room + 1 ≡ self.old.room }
    {
        self.records.push_reserved(entry);
    }

    /// Hands out the records and keeps none; the next number stays the next. Takes no memory.
    pub fn drain(&mut self, alloc: Global) -> Vec<Record>
        ensures records { result.items ≡ self.old.records }
        ensures numbered { IsNumbered self.old.base self.old.records }
        ensures rest { self.new ≡ record { base = last_of self.old; records = []; room = 0 } }
    {
        let mut records = Vec::new(alloc);
        self.drain_into(&mut records);
        records
    }

    /// The same into a vector without records, whose room is the trail's from now on: who clears the records once they are read
    /// and drains into their vector again gives each trail room that was made before. Takes no memory.
    pub fn drain_into(&mut self, records: &mut Vec<Record>)
        requires { records.old.items ≡ [] }
        ensures records { records.new.items ≡ self.old.records }
        ensures capacity { vec_capacity records.new ≡ length self.old.records + self.old.room }
        ensures numbered { IsNumbered self.old.base self.old.records }
        ensures rest { self.new ≡ record { base = last_of self.old; records = []; room = vec_capacity records.old } }
    {
        self.base = self.last();
        mem::swap(&mut self.records, records);
    }
}
