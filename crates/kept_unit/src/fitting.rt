ghost use Rattle.std.specs.Prelude.{◌≡◌, ◌↔◌, All, IsTrue};
ghost use Rattle.kept_unit.specs.Agreeing.{IsOwn, IsOfMove, Fits, Stands, IsTold};

use audit_log::Record;
use logical_unit::{ActKind, Entry, act_kind_of};
use scsi_sense::Sense;

/// Whether two answers report the same sense data, or both none.
fn is_same_report(report: &Option<Sense>, other: &Option<Sense>) -> bool
    ensures { IsTrue result ↔ (report.now ≡ other.now) }
{
    match report {
        None => other.is_none(),
        Some(sense) => match other {
            None => false,
            Some(other) => sense.is(other),
        },
    }
}

/// Whether a record and an entry have the same status and sense data.
fn is_same_answer(entry: &Entry, told: &Record) -> bool
    ensures { IsTrue result ↔ ((told.now.status ≡ entry.now.status) × (told.now.sense ≡ entry.now.sense)) }
{
    told.status == entry.status && is_same_report(&told.sense, &entry.sense)
}

/// Whether a record at the unit that a call was for is that of the call.
fn is_own(entry: &Entry, told: &Record) -> bool
    ensures { IsTrue result ↔ IsOwn entry.now told.now }
{
    let act = act_kind_of(&told.act);
    told.nexus == entry.nexus && entry.act == Some(act) && is_same_answer(entry, told)
}

/// Whether a record of a drive is of a move at the changer.
fn is_of_move(entry: &Entry, told: &Record) -> bool
    ensures { IsTrue result ↔ IsOfMove entry.now told.now }
{
    entry.lun == 0 && told.nexus.is_none() && act_kind_of(&told.act) == ActKind::Medium
}

/// Whether a record at a unit is that of the call.
fn fits(lun: u8, entry: &Entry, told: &Record) -> bool
    ensures { IsTrue result ↔ Fits lun entry.now told.now }
{
    if entry.lun == lun {
        is_own(entry, told)
    } else {
        is_of_move(entry, told)
    }
}

/// Whether a record's number was used by the base, or the record stands behind it and is that of the call.
fn stands(lun: u8, base: u64, records: &[Record], entry: &Entry, number: u64) -> bool
    ensures { IsTrue result ↔ Stands lun base records.now entry.now number }
{
    if number <= base {
        return true;
    }
    match records.get((number - base - 1) as usize) {
        Some(told) => fits(lun, entry, told),
        None => false,
    }
}

/// Whether each record at a unit that an entry tells of is that of its call.
fn is_told(lun: u8, base: u64, records: &[Record], entry: &Entry) -> bool
    ensures { IsTrue result ↔ IsTold lun base records.now entry.now }
{
    entry.numbers.as_slice().iter().all(|pair| pair.0 != lun
        || stands(lun, base, records, entry, pair.1))
}

/// The same of each entry.
pub(crate) fn are_told(lun: u8, base: u64, records: &[Record], entries: &[Entry]) -> bool
    ensures { IsTrue result ↔ All (IsTold lun base records.now) entries.now }
{
    entries
        .iter()
        .all(|entry| is_told(lun, base, records, entry))
}
