//! Where a library's records are written into a file while it is served: by one thread, each second and whenever workers ask it to.
ghost use Rattle.std.specs.Prelude.{◌≡◌, ◌⊎◌, IfSome};
ghost use Rattle.library_server.specs.declared.server_fault.ServerFault.TheVariants as fault;

use crate::handing_out::change_of;
use crate::record_source::RecordSource;
use crate::server_fault::ServerFault;
use crate::socket_fault::SocketFault;
use audit_log::Record;
use command_line::RecordFileOptions;
use iscsi_login::Host;
use output_lines::LinesFault;
use record_file::{AppendedFile, RecordLinesLeft};
use record_lines::{HostName, time_text};
use server::{Event, RecordDrain, Teller};
use std::alloc::{AllocError, Global};
use std::io::Write;
use std::sync::{Mutex, Wait};
use std::time::{Clock, SystemTime};

/// The file of a library's records, and what isn't written of them. One thread writes there while the library is served, and another one
/// at its end.
#[derive(Drop)]
pub struct RecordSink<'f> {
    files: &'f HostRuntime,
    lines: Mutex<RecordLinesLeft>,
}

/// Opens the file that is asked for, if one is, for a library that lets hosts in by name.
pub(crate) fn sink_of<'f>(
    alloc: Global,
    files: &'f HostRuntime,
    options: Option<RecordFileOptions>,
    hosts: &[Host],
) -> Result<Option<RecordSink<'f>>, SocketFault> {
    let Some(RecordFileOptions { path, format }) = options else {
        return Ok(None);
    };
    let file = AppendedFile::open(files, path)?;
    let names = names_of(alloc, hosts)?;
    let lines = Mutex::new(RecordLinesLeft::new(alloc, file, format, names));
    Ok(Some(RecordSink { files, lines }))
}

/// The names of hosts, as lines have them.
fn names_of(alloc: Global, hosts: &[Host]) -> Result<Vec<HostName>, AllocError> {
    let mut names = Vec::new(alloc);
    for host in hosts {
        if let Some(name) = HostName::new(alloc, host.sas, host.name.as_slice())? {
            names.push(name)?;
        }
    }
    Ok(names)
}

/// The time now; none where the clock can't be read.
fn time_now<R: Clock>(rt: &R, alloc: Global) -> Result<Option<String>, AllocError> {
    match SystemTime::now(rt) {
        Ok(time) => time_text(alloc, time),
        Err(_) => Ok(None),
    }
}

/// Takes the records of a unit, which has handed them out then.
fn take<D: RecordSource, R: Clock + Wait>(
    rt: &R,
    alloc: Global,
    library: &D,
    lun: u8,
    lines: &mut RecordLinesLeft,
) -> Result<Option<u64>, AllocError> {
    let time = time_now(rt, alloc)?;
    let mut records = lines.give_up(alloc);
    library.drain_into(rt, lun, &mut records);
    let last = number_of_last(&records);
    lines.take(lun, time, records);
    Ok(last)
}

/// The number of the last of records.
fn number_of_last(records: &[Record]) -> Option<u64> {
    match records.last() {
        Some(entry) => Some(entry.number),
        None => None,
    }
}

/// Writes what is left, and then a line for each record of a unit. As long as something can't be written, units keep their records.
fn record_unit<D: RecordSource, R: Clock + Wait>(
    drain: &RecordDrain,
    rt: &R,
    alloc: Global,
    library: &D,
    lun: u8,
    sink: &RecordSink<'_>,
) -> Result<(), LinesFault> {
    let mut lines = sink.lines.lock(rt);
    lines.write_left(alloc, sink.files)?;
    if let Some(last) = take(rt, alloc, library, lun, &mut lines)? {
        drain.note(rt, lun, last);
    }
    lines.write_left(alloc, sink.files)
}

/// The same of each unit, LUN 0 first.
fn record_units<D: RecordSource, R: Clock + Wait>(
    drain: &RecordDrain,
    rt: &R,
    alloc: Global,
    library: &D,
    sink: &RecordSink<'_>,
) -> Result<(), LinesFault> {
    for lun in 0..library.units() {
        record_unit(drain, rt, alloc, library, lun, sink)?;
    }
    Ok(())
}

/// Writes records each second, and whenever that is due, until nobody will ask any more. Tells where that fails for the first time and where
/// it no longer does.
pub(crate) fn record_while_served<D: RecordSource, R: Clock + Wait, E: Write>(
    drain: &RecordDrain,
    rt: &R,
    alloc: Global,
    library: &D,
    sink: &RecordSink<'_>,
    teller: &Teller<E>,
) {
    'turns: for _turn in rt.forever() {
        if !drain.await_second(rt) {
            return;
        }
        let is_failing = record_units(drain, rt, alloc, library, sink).is_err();
        let was_failing = drain.note_failing(is_failing);
        if let Some(event) = change_of(was_failing, is_failing) {
            teller.tell(rt, &event);
        }
    }
}

/// Writes what is left, and the records that units still have, once no session goes on. Tells those that can't be written.
pub(crate) fn record_the_rest<D: RecordSource, R: Clock + Wait, E: Write>(
    rt: &R,
    alloc: Global,
    library: &D,
    sink: &RecordSink<'_>,
    teller: &Teller<E>,
) -> Option<ServerFault>
    ensures { IfSome result (λ f. (f ≡ fault.Write) ⊎ (f ≡ fault.NoMemory)) }
{
    let mut lines = sink.lines.lock(rt);
    let mut is_whole = write_or_tell(rt, alloc, sink, &mut lines, teller);
    for lun in 0..library.units() {
        // Without memory for the time, the lines have none.
        let time = time_now(rt, alloc).unwrap_or(None);
        let mut records = lines.give_up(alloc);
        library.drain_into(rt, lun, &mut records);
        lines.take(lun, time, records);
        is_whole = write_or_tell(rt, alloc, sink, &mut lines, teller) && is_whole;
    }
    if is_whole {
        None
    } else {
        Some(ServerFault::Write)
    }
}

/// Writes what is left, or tells what never will be written. Whether all is.
fn write_or_tell<R: Wait, E: Write>(
    rt: &R,
    alloc: Global,
    sink: &RecordSink<'_>,
    lines: &mut RecordLinesLeft,
    teller: &Teller<E>,
) -> bool {
    if lines.write_left(alloc, sink.files).is_ok() {
        return true;
    }
    if let Some(records) = lines.unwritten() {
        teller.tell(rt, &Event::Unwritten(records));
    }
    false
}
