//! Where a library's records are handed out while it is served: by one thread, whenever workers ask it to.
ghost use Rattle.std.specs.Prelude.{◌≡◌, [], OnOk};
ghost use Rattle.library_server.specs.Batches.{HandsOut, change_of, left_in};

use crate::batch::Batch;
use crate::record_source::RecordSource;
use crate::server_fault::ServerFault;
use server::{Event, RecordDrain, Teller};
use std::alloc::Global;
use std::io::Write;
use std::sync::Wait;

/// Writes what is left of a batch, and then a line for each record of a unit. What can't be written is left in the batch, and
/// as long as something is, units keep their records.
fn hand_out_unit<D: RecordSource, R: Wait, W: Write>(
    drain: &RecordDrain,
    rt: &R,
    alloc: Global,
    library: &D,
    lun: u8,
    batch: &mut Batch,
    writer: &mut W,
) -> Result<(), ServerFault>
    ensures left { HandsOut (W.contents writer.old) (W.contents writer.new) (left_in batch.old) (left_in batch.new) }
    ensures all { OnOk result (left_in batch.new ≡ []) }
{
    batch.write_left(alloc, writer)?;
    if let Some(last) = batch.take(rt, library, lun) {
        drain.note(rt, lun, last);
    }
    batch.write_left(alloc, writer)
}

/// The same of each unit, LUN 0 first.
fn hand_out_units<D: RecordSource, R: Wait, W: Write>(
    drain: &RecordDrain,
    rt: &R,
    alloc: Global,
    library: &D,
    batch: &mut Batch,
    writer: &mut W,
) -> Result<(), ServerFault>
    ensures { HandsOut (W.contents writer.old) (W.contents writer.new) (left_in batch.old) (left_in batch.new) }
{
    'units: for lun in 0..library.units() {
        hand_out_unit(drain, rt, alloc, library, lun, batch, writer)?;
    }
    Ok(())
}

/// The same, and tells where that fails for the first time and where it no longer does.
fn hand_out<D: RecordSource, R: Wait, W: Write, E: Write>(
    drain: &RecordDrain,
    rt: &R,
    alloc: Global,
    library: &D,
    batch: &mut Batch,
    writer: &mut W,
    teller: &Teller<E>,
)
    ensures { HandsOut (W.contents writer.old) (W.contents writer.new) (left_in batch.old) (left_in batch.new) }
{
    let is_failing = hand_out_units(drain, rt, alloc, library, batch, writer).is_err();
    let was_failing = drain.note_failing(is_failing);
    if let Some(event) = change_of(was_failing, is_failing) {
        teller.tell(rt, &event);
    }
}

/// Hands records out whenever that is due, until nobody will ask any more.
pub(crate) fn hand_out_as_asked<D: RecordSource, R: Wait, W: Write, E: Write>(
    drain: &RecordDrain,
    rt: &R,
    alloc: Global,
    library: &D,
    batch: &mut Batch,
    writer: &mut W,
    teller: &Teller<E>,
)
    ensures { HandsOut (W.contents writer.old) (W.contents writer.new) (left_in batch.old) (left_in batch.new) }
{
    'turns: for _turn in rt.forever() {
        if !drain.await_turn(rt) {
            return;
        }
        hand_out(drain, rt, alloc, library, batch, writer, teller);
    }
}

/// What is to be told of how handing out went: that it fails since now, or no longer does.
pub(crate) fn change_of(was_failing: bool, is_failing: bool) -> Option<Event>
    ensures { result ≡ change_of was_failing is_failing }
{
    match (was_failing, is_failing) {
        (false, true) => Some(Event::Kept),
        (true, false) => Some(Event::CaughtUp),
        (false, false) | (true, true) => None,
    }
}
