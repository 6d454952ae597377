ghost use Rattle.std.specs.Prelude.{◌≡◌, map, IfOk, string_bytes};
ghost use Rattle.judgement.specs.History.{after_history};
ghost use Rattle.logical_unit.specs.Audit.{span_line, span_lines, IsReplayable, AreReplayable};
ghost use Rattle.logical_unit.specs.Legal.{accepted_in};

use audit_log::{Act, Record, line, write_reservation};
use pr_core::PrState;
use scsi_sense::Status;
use std::alloc::{AllocError, Global};
use unit_attention::Queues;

/// A line for each record, with the reservation that stood before it: one walk over the records, with
/// one copy of what stood before the first.
pub(crate) fn span_lines(
    alloc: Global,
    base: &PrState,
    entries: &[Record],
) -> Result<Vec<String>, AllocError>
    requires { AreReplayable base.now entries.now }
    ensures { IfOk result (λ lines. map string_bytes lines.items ≡ span_lines base.now entries.now) }
{
    let mut reservations = base.copy();
    // Nobody has a slot here, so what an act tells costs nothing.
    let mut nobody = Queues::new();
    let mut lines = Vec::new(alloc);
    for entry in entries {
        let line = next_line(alloc, &mut reservations, &mut nobody, entry)?;
        lines.push(line)?;
    }
    Ok(lines)
}

/// The line of a record by the reservations before it, which then are those after it.
fn next_line(
    alloc: Global,
    reservations: &mut PrState,
    nobody: &mut Queues,
    entry: &Record,
) -> Result<String, AllocError>
    requires { IsReplayable reservations.old (accepted_in entry.now) }
    ensures line { IfOk result (λ text. string_bytes text ≡ span_line reservations.old entry.now) }
    ensures after { IfOk result (λ _. reservations.new ≡ after_history reservations.old (accepted_in entry.now)) }
{
    let line = span_line(alloc, reservations, entry)?;
    follow(reservations, nobody, entry);
    Ok(line)
}

/// A record's line, a space, and the reservation.
fn span_line(alloc: Global, reservations: &PrState, entry: &Record) -> Result<String, AllocError>
    ensures { IfOk result (λ text. string_bytes text ≡ span_line reservations.now entry.now) }
{
    let mut text = line(alloc, entry)?;
    text.push(' ')?;
    write_reservation(&mut text, reservations.reservation())?;
    Ok(text)
}

/// Carries out again what a record accepted.
fn follow(reservations: &mut PrState, nobody: &mut Queues, entry: &Record)
    requires { IsReplayable reservations.old (accepted_in entry.now) }
    ensures { reservations.new ≡ after_history reservations.old (accepted_in entry.now) }
{
    let Some(nexus) = entry.nexus else {
        return;
    };
    match (&entry.act, entry.status) {
        (Act::ReserveOut(params), Status::Good) => {
            let applied = reservations.apply(nexus, params.params(), nobody);
            // What was accepted once is accepted again: the prover alone is told.
            prove!(applied.is_ok());
        }
        _ => {}
    }
}
