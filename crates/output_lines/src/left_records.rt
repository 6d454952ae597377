//! Records that a unit handed out, until all of their lines are written.
ghost use Rattle.std.specs.Prelude.{◌≡◌, IfOk, OnErr, OnOk, []};
ghost use Rattle.output_lines.specs.LeftLines.{GoesOn, left_in, left_of, whole_if};

use crate::audit_lines::records_text;
use crate::left_lines::Lines;
use audit_log::Record;
use std::alloc::{AllocError, Global};
use std::io::Write;

/// Why not all lines of records are written.
#[derive(Clone, Copy)]
pub enum LinesFault {
    /// The writer takes no more of them.
    Write,
    NoMemory,
}

impl From<AllocError> for LinesFault {
    fn from(_error: AllocError) -> LinesFault {
        LinesFault::NoMemory
    }
}

/// Records, as long as not all of their lines are written. They are without lines until these have found room.
#[derive(Drop)]
pub struct LeftRecords {
    pub records: Vec<Record>,
    pub lines: Option<Lines>,
}

impl LeftRecords {
    /// No records.
    pub fn new(alloc: Global) -> LeftRecords
        ensures { left_in result ≡ [] }
    {
        LeftRecords {
            records: Vec::new(alloc),
            lines: None,
        }
    }

    /// Takes the lines out, which are made where that wasn't done.
    fn take_lines(&mut self, alloc: Global) -> Result<Lines, AllocError>
        ensures ok { IfOk result (λ lines. left_of lines ≡ left_in self.old) }
        ensures err { OnErr result (left_in self.new ≡ left_in self.old) }
        ensures records { self.new.records ≡ self.old.records }
    {
        match self.lines.take() {
            Some(lines) => Ok(lines),
            None => Ok(Lines::new(records_text(alloc, &self.records)?)),
        }
    }

    /// Writes the lines that are left, and lets the records go. On an error the rest is kept.
    pub fn write_left<W: Write>(&mut self, alloc: Global, writer: &mut W) -> Result<(), LinesFault>
        ensures left { GoesOn (W.contents writer.old) (W.contents writer.new) (left_in self.old) (left_in self.new) }
        ensures all { OnOk result (left_in self.new ≡ []) }
        ensures none { OnOk result (self.new.records.items ≡ []) }
        ensures kept { OnErr result (self.new.records ≡ self.old.records) }
    {
        let mut lines = self.take_lines(alloc)?;
        if !lines.write_left(writer) {
            self.lines = Some(lines);
            return Err(LinesFault::Write);
        }
        self.lines = None;
        self.records.clear();
        Ok(())
    }

    /// How many of the lines are written whole.
    pub fn whole(&self) -> usize
        ensures { result ≡ whole_if self.now.lines }
    {
        match &self.lines {
            Some(lines) => lines.whole(),
            None => 0,
        }
    }
}
