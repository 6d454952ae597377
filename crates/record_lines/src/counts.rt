//! How often records that say the same were counted.
ghost use Rattle.std.specs.Prelude.{◌≡◌, [], map, false, IsTrue};
ghost use Rattle.record_lines.specs.Counts.{Counts, IsCounted, IsNewKind, counted, kind_of};
ghost use Rattle.record_lines.specs.CountsSeen.{count_seen, kind_seen, place_of};

use crate::kind::RecordKind;
use audit_log::Record;
use std::alloc::Global;
use std::marker::Model;

/// How often records of a kind were counted.
#[derive(Clone, Copy)]
pub struct RecordCount {
    pub kind: RecordKind,
    pub count: u64,
}

/// How often records of each kind were counted, in the order in which kinds came first.
#[derive(Drop)]
pub struct RecordCounts {
    counts: Vec<RecordCount>,
    /// How many couldn't be counted, for want of memory.
    uncounted: u64,
}

impl Model for RecordCounts {
    ghost use Rattle.std.specs.Prelude.{map};
    ghost use Rattle.record_lines.specs.Counts.{Counts};
    ghost use Rattle.record_lines.specs.CountsSeen.{count_seen};

    ghost Value = { Counts };

    ghost view = { λ c. record { counts = map count_seen c.counts.items; uncounted = c.uncounted } };
}

impl RecordCounts {
    /// Nothing is counted.
    pub fn new(alloc: Global) -> RecordCounts
        ensures { result ≡ record { counts = []; uncounted = 0 } }
    {
        RecordCounts {
            counts: Vec::new(alloc),
            uncounted: 0,
        }
    }

    /// Counts a record. Without memory for a kind that is new, it is one more of those that couldn't be counted.
    pub fn count(&mut self, entry: &Record)
        ensures { IsCounted self.old (kind_of entry.now) self.new }
    {
        let kind = RecordKind::of(entry);
        if add_to(&mut self.counts, kind) {
            return;
        }
        if self.counts.push(RecordCount { kind, count: 1 }).is_err() {
            self.uncounted = self.uncounted.saturating_add(1);
        }
    }

    /// The count of each kind.
    pub fn counts(&self) -> &[RecordCount]
        ensures { map count_seen result.now ≡ self.now.counts }
    {
        &self.counts
    }

    /// How many records couldn't be counted.
    pub fn uncounted(&self) -> u64
        ensures { result ≡ self.now.uncounted }
    {
        self.uncounted
    }
}

/// Adds one to the count of a kind, where it has one.
fn add_to(counts: &mut [RecordCount], kind: RecordKind) -> bool
    ensures added { IsTrue result → map count_seen counts.new ≡ counted (map count_seen counts.old) (kind_seen kind) }
    ensures absent { result ≡ false → IsNewKind (map count_seen counts.old) (kind_seen kind) }
    ensures same { result ≡ false → counts.new ≡ counts.old }
{
    let Some(place) = place_of(counts, kind) else {
        return false;
    };
    counts[place].count = counts[place].count.saturating_add(1);
    true
}

/// The place of the count of a kind.
fn place_of(counts: &[RecordCount], kind: RecordKind) -> Option<usize>
    ensures { result ≡ place_of counts.now (kind_seen kind) }
{
    counts.iter().position(|entry| kind.is_same(entry.kind))
}
