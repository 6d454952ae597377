//! Records whose lines never were written, and who is told of them.
ghost use Rattle.std.specs.Prelude.{◌≡◌, drop};
ghost use Rattle.output_lines.specs.UnwrittenLines.{unwritten_records};

use audit_log::Record;
use std::fmt;

/// Records of a unit whose lines couldn't be written: they follow one another.
#[derive(Clone, Copy)]
pub struct UnwrittenRecords {
    pub lun: u8,
    pub count: u64,
    /// The numbers of the first and the last.
    pub first: u64,
    pub last: u64,
}

/// Who is told which records have no line.
pub trait UnwrittenListener {
    fn tell(&self, records: &UnwrittenRecords);
}

/// The records behind so many of a unit's, if there are any.
pub fn records_behind(lun: u8, records: &[Record], count: usize) -> Option<UnwrittenRecords>
    ensures { result ≡ unwritten_records lun (drop count records.now) }
{
    let rest = records.get(count..)?;
    Some(UnwrittenRecords {
        lun,
        count: rest.len() as u64,
        first: rest.first()?.number,
        last: rest.last()?.number,
    })
}

impl fmt::Display for UnwrittenRecords {
    ghost use Rattle.std.specs.Prelude.{Some};
    ghost use Rattle.output_lines.specs.UnwrittenLines.{unwritten_text};

    ghost output = { λ records. Some (unwritten_text records) };

    fn fmt<W: fmt::Write>(&self, f: &mut fmt::Formatter<W>) -> fmt::Result {
        let count = self.count;
        let lun = self.lun;
        let first = self.first;
        let last = self.last;
        write!(
            f,
            "{count} records of logical unit {lun} were not written, numbers {first} to {last}"
        )
    }
}
