ghost use Rattle.std.specs.Prelude.{◌≡◌, ◌<◌, ◌↔◌, [], IsTrue, false};
ghost use Rattle.lun_router.specs.Answering.{IsSomeTrail};

use audit_log::Record;
use kept_unit::Ledgers;
use library_start::Device;
use lun_router::{Library, Pass};
use record_lines::RecordCounts;
use std::sync::{Mutex, Wait};

/// Units whose records are handed out: a library, whichever ledgers it has.
pub(crate) trait RecordSource {
    ghost use Rattle.std.specs.Prelude.{ℕ, List};
    ghost use Rattle.audit_log.specs.declared.record.Record.{Record};

    /// How many units there are.
    ghost count: { Self → ℕ };

    /// What the unit with a number hands out at once.
    ghost hands_out: { Self → (lun : ℕ) → List Record → Type 0 };

    fn units(&self) -> u8
        ensures { result ≡ count self.now };

    /// Takes a unit's records, as `Library::drain_into` does.
    fn drain_into<R: Wait>(&self, rt: &R, lun: u8, records: &mut Vec<Record>) -> bool
        requires { records.old.items ≡ [] }
        ensures there { IsTrue result ↔ (lun < count self.now) }
        ensures trail { IsTrue result → IsSomeTrail records.new.items }
        ensures whose { IsTrue result → hands_out self.now lun records.new.items }
        ensures absent { result ≡ false → records.new ≡ records.old };
}

impl<B: Ledgers> RecordSource for Library<B, Device, Pass> {
    ghost count = { λ library. library.units };

    ghost hands_out = { λ _ _ records. IsSomeTrail records };

    fn units(&self) -> u8 {
        Library::units(self)
    }

    fn drain_into<R: Wait>(&self, rt: &R, lun: u8, records: &mut Vec<Record>) -> bool {
        Library::drain_into(self, rt, lun, records)
    }
}

/// Units whose records are counted as they are taken.
#[derive(Drop)]
pub(crate) struct CountedSource<'a, D> {
    pub source: &'a D,
    pub counts: &'a Mutex<RecordCounts>,
}

impl<'a, D: RecordSource> RecordSource for CountedSource<'a, D> {
    ghost count = { λ counted. D.count counted.source.now };

    ghost hands_out = { λ counted lun records. D.hands_out counted.source.now lun records };

    fn units(&self) -> u8 {
        self.source.units()
    }

    fn drain_into<R: Wait>(&self, rt: &R, lun: u8, records: &mut Vec<Record>) -> bool {
        let is_there = self.source.drain_into(rt, lun, records);
        // What isn't there has handed none out.
        count_all(rt, self.counts, records);
        is_there
    }
}

/// Counts records. Who asks for metrics waits meanwhile.
fn count_all<R: Wait>(rt: &R, counts: &Mutex<RecordCounts>, records: &[Record]) {
    let mut counts = counts.lock(rt);
    for entry in records {
        counts.count(entry);
    }
}
