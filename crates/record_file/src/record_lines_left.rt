//! Records that a unit handed out, until all of their lines are written.
ghost use Rattle.std.specs.Prelude.{◌≡◌, ◌<◌, [], OnOk, option_map, string_bytes, vec_len};

use crate::appended_file::AppendedFile;
use audit_log::Record;
use output_lines::{Lines, LinesFault, UnwrittenRecords, records_behind};
use pr_core::PrState;
use program_options::RecordFormat;
use record_lines::{HostName, LineContext, records_text};
use std::alloc::{AllocError, Global};
use std::fs::{File, Files};
use std::mem;

/// Records of a unit that aren't written yet, with what their lines need: their file, and which reservation each unit has by the
/// records that it handed out.
#[derive(Drop)]
pub struct RecordLinesLeft {
    file: AppendedFile,
    format: RecordFormat,
    names: Vec<HostName>,
    /// Of each unit, by its number.
    standing: Vec<PrState>,
    unit: u8,
    /// When the records were taken.
    time: Option<String>,
    records: Vec<Record>,
    /// The lines of the records, once there was room for them.
    lines: Option<Lines>,
}

impl RecordLinesLeft {
    /// No records, of units at power on.
    pub fn new(
        alloc: Global,
        file: AppendedFile,
        format: RecordFormat,
        names: Vec<HostName>,
    ) -> RecordLinesLeft {
        RecordLinesLeft {
            file,
            format,
            names,
            standing: Vec::new(alloc),
            unit: 0,
            time: None,
            records: Vec::new(alloc),
            lines: None,
        }
    }

    /// The records' vector, empty, into which a unit may hand out records. What was left isn't any more.
    pub fn give_up(&mut self, alloc: Global) -> Vec<Record>
        ensures { result.items ≡ [] }
    {
        self.lines = None;
        let mut records = mem::replace(&mut self.records, Vec::new(alloc));
        records.clear();
        records
    }

    /// Takes what a unit has handed out at a time.
    pub fn take(&mut self, unit: u8, time: Option<String>, records: Vec<Record>) {
        self.lines = None;
        self.unit = unit;
        self.time = time;
        self.records = records;
    }

    /// Writes the lines that are left into the file to which its path leads now, and lets the records go. On an error the rest is kept. If
    /// the path leads to another file, a line of which a part was written begins again there.
    pub fn write_left<R: Files<File = File>>(
        &mut self,
        alloc: Global,
        rt: &R,
    ) -> Result<(), LinesFault>
        ensures { OnOk result (self.new.records.items ≡ []) }
    {
        if self.records.is_empty() {
            return Ok(());
        }
        let mut lines = self.take_lines(alloc)?;
        let is_written = match self.file.follow(rt) {
            Ok(is_another) => {
                if is_another {
                    lines.begin_line_again();
                }
                lines.write_left(&mut self.file)
            }
            Err(_) => false,
        };
        if !is_written {
            self.lines = Some(lines);
            return Err(LinesFault::Write);
        }
        self.records.clear();
        Ok(())
    }

    /// Takes the lines out, which are made where that wasn't done.
    fn take_lines(&mut self, alloc: Global) -> Result<Lines, AllocError>
        ensures { self.new.records ≡ self.old.records }
    {
        match self.lines.take() {
            Some(lines) => Ok(lines),
            None => Ok(Lines::new(self.make_text(alloc)?)),
        }
    }

    /// The lines of the records. Their unit's reservations are then those that they leave.
    fn make_text(&mut self, alloc: Global) -> Result<String, AllocError>
        ensures { self.new.records ≡ self.old.records }
    {
        let place = usize::from(self.unit);
        reach(&mut self.standing, place)?;
        let context = LineContext {
            format: self.format,
            time: shown(&self.time),
            unit: self.unit,
            names: &self.names,
        };
        records_text(alloc, &context, &mut self.standing[place], &self.records)
    }

    /// The records whose lines aren't written, if there are any.
    pub fn unwritten(&self) -> Option<UnwrittenRecords> {
        let whole = match &self.lines {
            Some(lines) => lines.whole(),
            None => 0,
        };
        records_behind(self.unit, &self.records, whole)
    }
}

/// Has reservations at a place: those of units that handed out nothing yet are those at power on.
fn reach(standing: &mut Vec<PrState>, place: usize) -> Result<(), AllocError>
    ensures { OnOk result (place < vec_len standing.new) }
{
    'units: while standing.len() <= place {
        standing.push(PrState::new())?;
    }
    Ok(())
}

fn shown(time: &Option<String>) -> Option<&str>
    ensures { option_map (λ text. text.now) result ≡ option_map string_bytes time.now }
{
    match time {
        Some(text) => Some(text.as_str()),
        None => None,
    }
}
