ghost use Rattle.std.specs.Prelude.{◌≡◌};
ghost use Rattle.record_lines.specs.Counts.{kind_of, role_word, same_kind, type_word};
ghost use Rattle.record_lines.specs.CountsSeen.{kind_seen};

use audit_log::{Asked, Record, status_text};
use permit_tables::Cell;
use scsi_sense::Status;

/// What records say that are counted together if the words of their lines are the same.
#[derive(Clone, Copy)]
pub struct RecordKind {
    pub asked: Asked,
    /// The cell of the permission table; none if the command didn't come to it.
    pub cell: Option<Cell>,
    pub status: Status,
}

impl RecordKind {
    /// What a record says.
    pub(crate) fn of(entry: &Record) -> RecordKind
        ensures { kind_seen result ≡ kind_of entry.now }
    {
        RecordKind {
            asked: entry.act.asked(),
            cell: entry.cell,
            status: entry.status,
        }
    }

    /// The name of what was asked.
    pub fn class(self) -> &'static str
        ensures { result.now ≡ (kind_seen self).class }
    {
        self.asked.text()
    }

    /// The type of the reservation in the cell; empty without one.
    pub fn res_type(self) -> &'static str
        ensures { result.now ≡ (kind_seen self).res_type }
    {
        type_word(self.cell)
    }

    /// The role of the sender in the cell; empty without one.
    pub fn role(self) -> &'static str
        ensures { result.now ≡ (kind_seen self).role }
    {
        role_word(self.cell)
    }

    /// The status code, in two hexadecimal digits.
    pub fn status_digits(self) -> &'static str
        ensures { result.now ≡ (kind_seen self).status }
    {
        status_text(self.status)
    }

    /// Whether another one is the same.
    pub(crate) fn is_same(self, other: RecordKind) -> bool
        ensures { result ≡ same_kind (kind_seen self) (kind_seen other) }
    {
        self.class() == other.class()
            && self.res_type() == other.res_type()
            && self.role() == other.role()
            && self.status_digits() == other.status_digits()
    }
}

fn type_word(cell: Option<Cell>) -> &'static str
    ensures { result.now ≡ type_word cell }
{
    match cell {
        None => "",
        Some(cell) => cell.res_type.text(),
    }
}

fn role_word(cell: Option<Cell>) -> &'static str
    ensures { result.now ≡ role_word cell }
{
    match cell {
        None => "",
        Some(cell) => cell.role.text(),
    }
}
