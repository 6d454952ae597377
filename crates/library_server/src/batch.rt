//! Records that a unit handed out, until all of their lines are written.
ghost use Rattle.std.specs.Prelude.{◌≡◌, ◌⊎◌, IfErr, OnOk, OnErr, []};
ghost use Rattle.output_lines.specs.AuditLines.{lines_of_records};
ghost use Rattle.output_lines.specs.LeftLines.{GoesOn};
ghost use Rattle.library_server.specs.Batches.{AreDrained, left_in, number_of_last, unwritten_in};
ghost use Rattle.library_server.specs.declared.server_fault.ServerFault.TheVariants as fault;

use crate::record_source::RecordSource;
use crate::server_fault::ServerFault;
use output_lines::{LeftRecords, LinesFault, UnwrittenRecords, records_behind};
use std::alloc::Global;
use std::io::Write;
use std::sync::Wait;

/// Records that were taken out of a unit, as long as not all of their lines are written.
#[derive(Drop)]
pub(crate) struct Batch {
    lun: u8,
    left: LeftRecords,
}

impl Batch {
    /// A batch without records.
    pub fn new(alloc: Global) -> Batch
        ensures { left_in result ≡ [] }
    {
        Batch {
            lun: 0,
            left: LeftRecords::new(alloc),
        }
    }

    /// Writes the lines that are left, and lets the records go. On an error the rest is kept.
    pub fn write_left<W: Write>(&mut self, alloc: Global, writer: &mut W) -> Result<(), ServerFault>
        ensures left { GoesOn (W.contents writer.old) (W.contents writer.new) (left_in self.old) (left_in self.new) }
        ensures all { OnOk result (left_in self.new ≡ []) }
        ensures none { OnOk result (self.new.left.records.items ≡ []) }
        ensures unit { self.new.lun ≡ self.old.lun }
        ensures kept { OnErr result (self.new.left.records ≡ self.old.left.records) }
        ensures fault { IfErr result (λ f. (f ≡ fault.Write) ⊎ (f ≡ fault.NoMemory)) }
    {
        match self.left.write_left(alloc, writer) {
            Ok(()) => Ok(()),
            Err(LinesFault::Write) => Err(ServerFault::Write),
            Err(LinesFault::NoMemory) => Err(ServerFault::NoMemory),
        }
    }

    /// Takes the records of a unit, and says which number the last has.
    pub fn take<D: RecordSource, R: Wait>(&mut self, rt: &R, library: &D, lun: u8) -> Option<u64>
        requires none { self.old.left.records.items ≡ [] }
        ensures unit { self.new.lun ≡ lun }
        ensures whose { (self.new.left.records.items ≡ []) ⊎ D.hands_out library.now lun self.new.left.records.items }
        ensures drained { AreDrained self.new.left.records.items }
        ensures left { left_in self.new ≡ lines_of_records self.new.left.records.items }
        ensures number { result ≡ number_of_last self.new.left.records.items }
    {
        self.left.lines = None;
        self.lun = lun;
        if !library.drain_into(rt, lun, &mut self.left.records) {
            return None;
        }
        Some(self.left.records.last()?.number)
    }

    /// The records whose lines aren't written, if there are any.
    pub fn unwritten(&self) -> Option<UnwrittenRecords>
        ensures { result ≡ unwritten_in self.now }
    {
        records_behind(self.lun, &self.left.records, self.left.whole())
    }
}
