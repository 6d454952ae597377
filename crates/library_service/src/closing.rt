ghost use Rattle.std.specs.Prelude.{◌≡◌, ◌≢◌, ◌⊎◌, ◌<◌, ◌≤◌, ◌+◌, ◌∷◌, ◌++◌, [], Err, IfErr, IfOk, OnOk, vec_capacity, vec_len};
ghost use Rattle.std.specs.Io.KnownBytes.{Appends};
ghost use Rattle.std.specs.Option.{option_map};
ghost use Rattle.logical_unit.specs.UnitView.{units_of};
ghost use Rattle.output_lines.specs.AuditLines.{audit_text};
ghost use Rattle.lun_router.specs.declared.closing.CloseFault.TheVariants.{SeatMissing};
ghost use Rattle.library_service.specs.ClosedLibrary.{IsClosed, if_there};
ghost use Rattle.library_service.specs.ClosingFaults.{MayEndWith};
ghost use Rattle.library_service.specs.declared.closing_fault.ClosingFault.TheVariants as fault;

use crate::closing_fault::ClosingFault;
use audit_log::Record;
use device_server::DeviceServer;
use kept_unit::Ledgers;
use logical_unit::LogicalUnit;
use lun_router::{Gate, Histories, Library, Seat};
use output_lines::{Audit, AuditFault, UnwrittenListener, records_behind, write_audit};
use std::alloc::Global;
use std::io::Write;
use std::sync::Wait;

/// The most units that a library has.
const MOST_UNITS: usize = 5;

/// Closes a library with its seats, and writes the lines that are wanted of the records, LUN 0 first. The lines are made before the first of
/// them is written. Where not all can be, a listener is told of which records at which units.
pub fn close_and_write<
    B: Ledgers,
    D: DeviceServer,
    G: Gate,
    R: Wait,
    W: Write,
    H: UnwrittenListener,
>(
    rt: &R,
    alloc: Global,
    library: Library<B, D, G>,
    seats: Vec<Seat<B>>,
    audit: Audit,
    writer: &mut W,
    listener: &H,
) -> Result<(), ClosingFault>
    ensures closed { OnOk result (IsClosed seats.items audit B.since_of (W.contents writer.old) (W.contents writer.new)) }
    ensures fault { IfErr result (λ f. MayEndWith library.seats (vec_len seats) f) }
    ensures missing { vec_len seats ≢ library.seats → result ≡ Err (fault.Close SeatMissing) }
    ensures none { IfErr result (λ f. (f ≡ fault.Write) ⊎ (W.contents writer.new ≡ W.contents writer.old)) }
{
    match library.close(alloc, seats) {
        Ok(histories) => write_histories(alloc, audit, histories, writer, listener),
        Err((fault, library, _)) => {
            tell_unwritten_at(rt, alloc, &library, listener);
            Err(ClosingFault::Close(fault))
        }
    }
}

/// Writes the lines that are wanted of the records of a library that was closed, LUN 0 first, or tells which aren't written.
fn write_histories<D: DeviceServer, W: Write, H: UnwrittenListener>(
    alloc: Global,
    audit: Audit,
    histories: Histories<D>,
    writer: &mut W,
    listener: &H,
) -> Result<(), ClosingFault>
    ensures lines { OnOk result (Appends (W.contents writer.old) (W.contents writer.new) (audit_text audit (histories.changer.unit ∷ histories.first.unit ∷ if_there (option_map (λ u. u.unit) histories.second) ++ if_there (option_map (λ u. u.unit) histories.third) ++ if_there (option_map (λ u. u.unit) histories.fourth)))) }
    ensures fault { IfErr result (λ f. (f ≡ fault.Write) ⊎ ((f ≡ fault.NoMemory) × (W.contents writer.new ≡ W.contents writer.old))) }
{
    match units_in(alloc, histories) {
        Ok(units) => write_units(alloc, audit, &units, writer, listener),
        Err(histories) => {
            tell_unwritten_in(&histories, listener);
            Err(ClosingFault::NoMemory)
        }
    }
}

/// The units of a library that was closed, LUN 0 first. Where there is no room for them, they come back.
fn units_in<D: DeviceServer>(
    alloc: Global,
    histories: Histories<D>,
) -> Result<Vec<LogicalUnit<D>>, Histories<D>>
    ensures ok { IfOk result (λ units. units_of units.items ≡ histories.changer.unit ∷ histories.first.unit ∷ if_there (option_map (λ u. u.unit) histories.second) ++ if_there (option_map (λ u. u.unit) histories.third) ++ if_there (option_map (λ u. u.unit) histories.fourth)) }
    ensures err { IfErr result (λ back. back ≡ histories) }
{
    let mut units = Vec::new(alloc);
    if units.reserve(MOST_UNITS).is_err() {
        return Err(histories);
    }
    let Histories {
        changer,
        first,
        second,
        third,
        fourth,
    } = histories;
    units.push_reserved(changer);
    units.push_reserved(first);
    push_if_there(&mut units, second);
    push_if_there(&mut units, third);
    push_if_there(&mut units, fourth);
    Ok(units)
}

fn push_if_there<D: DeviceServer>(units: &mut Vec<LogicalUnit<D>>, unit: Option<LogicalUnit<D>>)
    requires room { vec_len units.old < vec_capacity units.old }
    ensures units { units_of units.new.items ≡ units_of units.old.items ++ if_there (option_map (λ u. u.unit) unit) }
    ensures length { vec_len units.new ≤ vec_len units.old + 1 }
    ensures capacity { vec_capacity units.new ≡ vec_capacity units.old }
{
    if let Some(unit) = unit {
        units.push_reserved(unit);
    }
}

/// Writes the lines that are wanted of units' records, LUN 0 first, or tells which aren't written.
fn write_units<D: DeviceServer, W: Write, H: UnwrittenListener>(
    alloc: Global,
    audit: Audit,
    units: &[LogicalUnit<D>],
    writer: &mut W,
    listener: &H,
) -> Result<(), ClosingFault>
    ensures lines { OnOk result (Appends (W.contents writer.old) (W.contents writer.new) (audit_text audit (units_of units.now))) }
    ensures fault { IfErr result (λ f. (f ≡ fault.Write) ⊎ ((f ≡ fault.NoMemory) × (W.contents writer.new ≡ W.contents writer.old))) }
{
    match write_audit(alloc, audit, units, writer) {
        Ok(()) => Ok(()),
        Err(AuditFault::Write(lines)) => {
            tell_unwritten(units, lines, listener);
            Err(ClosingFault::Write)
        }
        Err(AuditFault::NoMemory) => {
            tell_unwritten(units, 0, listener);
            Err(ClosingFault::NoMemory)
        }
    }
}

/// Tells which records of units have no line, where so many lines were written, LUN 0 first.
fn tell_unwritten<D: DeviceServer, H: UnwrittenListener>(
    units: &[LogicalUnit<D>],
    lines: usize,
    listener: &H,
) {
    let mut left = lines;
    for unit in units {
        tell_behind(unit.lun(), unit.records(), left, listener);
        left = left.saturating_sub(unit.records().len());
    }
}

/// Tells that no record has a line of the units of a library that was closed.
fn tell_unwritten_in<D: DeviceServer, H: UnwrittenListener>(
    histories: &Histories<D>,
    listener: &H,
) {
    tell_all(&histories.changer, listener);
    tell_all(&histories.first, listener);
    for unit in [&histories.second, &histories.third, &histories.fourth] {
        if let Some(unit) = unit {
            tell_all(unit, listener);
        }
    }
}

/// Tells that no record of a unit has a line.
fn tell_all<D: DeviceServer, H: UnwrittenListener>(unit: &LogicalUnit<D>, listener: &H) {
    tell_behind(unit.lun(), unit.records(), 0, listener);
}

/// Tells that no record has a line which the units of a library still have that couldn't be closed.
fn tell_unwritten_at<B: Ledgers, D: DeviceServer, G: Gate, R: Wait, H: UnwrittenListener>(
    rt: &R,
    alloc: Global,
    library: &Library<B, D, G>,
    listener: &H,
) {
    for lun in 0..library.units() {
        if let Some(records) = library.drain(rt, alloc, lun) {
            tell_behind(lun, &records, 0, listener);
        }
    }
}

/// Tells which of a unit's records have no line, where so many have one.
fn tell_behind<H: UnwrittenListener>(lun: u8, records: &[Record], lines: usize, listener: &H) {
    if let Some(unwritten) = records_behind(lun, records, lines) {
        listener.tell(&unwritten);
    }
}
