ghost use Rattle.std.specs.Prelude.{◌≡◌, ◌+◌, ◌*◌, ◌<◌, ◌≤◌, ◌⊎◌, [], None, length, IfErr, IfOk, IfSome, OnOk};
ghost use Rattle.std.specs.List.{AllZip};
ghost use Rattle.logical_unit.specs.UnitView.{units_of};
ghost use Rattle.lun_router.specs.Blanks.{AreBlanks};
ghost use Rattle.target_core.specs.Faults.{profile_in};
ghost use Rattle.lun_router.specs.Opening.{IsSince};
ghost use Rattle.server.specs.Sessions.{ComesBySessions};
ghost use Rattle.output_lines.specs.LeftLines.{GoesOn};
ghost use Rattle.library_server.specs.Batches.{HandsOut, left_in};
ghost use Rattle.library_server.specs.ServerFaults.{MayTell};
ghost use Rattle.library_server.specs.ServedLibrary.{ServesLibrary, WritesOut};
ghost use Rattle.library_server.specs.ServedSeats.{SeatsCome};
ghost use Rattle.library_server.specs.declared.server_fault.ServerFault.TheVariants as fault;

use crate::batch::Batch;
use crate::control::ControlSocket;
use crate::handing_out::hand_out_as_asked;
use crate::keeping::keep_at_the_end;
use crate::library_tapes::LibraryTapes;
use crate::metrics::MetricsSocket;
use crate::record_source::{CountedSource, RecordSource};
use crate::recording::{RecordSink, record_the_rest, record_while_served};
use crate::saved_library::FolderKeeper;
use crate::server_fault::{ServerFault, closing_fault, earlier, own_fault, told_of};
use crate::unwritten_teller::UnwrittenTeller;
use kept_unit::Ledgers;
use library_service::{close_and_write, give_back, services_of};
use library_start::Device;
use lun_router::{Blanks, Library, Pass, Seat};
use output_lines::RecordOutput;
use saved_media::SavedTapes;
use server::{
    Acceptor, Door, Event, FaultySession, PollSource, RecordDrain, ServeLimits, Teller, serve_all,
    serve_and_end,
};
use session::{Directory, SeatService};
use std::alloc::{AllocError, Global};
use std::io::Write;
use std::marker::Brand;
use std::mem;
use std::random::RandomSource;
use std::sync::ledger::Blank;
use std::sync::{Mutex, Wait};
use std::thread::{self, Threads};
use std::time::Clock;
use tape_keeper::{NoKeeper, TapeKeeper};
use target_core::TargetCore;

/// What a library is served with: where its records go, what keeps its tapes, and what is told.
#[derive(Drop)]
pub struct ServiceMeans<'a, 'f, R: Wait, E: Write> {
    pub rt: &'a R,
    pub alloc: Global,
    pub records: RecordOutput,
    /// By which the system is asked how much memory the server has.
    pub files: &'f HostRuntime,
    /// None if the tapes are gone with the library.
    pub keeper: Option<&'a FolderKeeper<'f>>,
    /// The file into which records are written, if they are.
    pub sink: Option<&'a RecordSink<'f>>,
    /// Where the library's status is asked for. None if nowhere.
    pub control: Option<&'a ControlSocket>,
    /// Where its metrics are asked for. None if nowhere, and then records aren't counted.
    pub metrics: Option<&'a MetricsSocket>,
    pub teller: &'a Teller<E>,
}

/// Serves a target to connections of doors, each by a worker and as the nexus that its LOGIN names or its initiator is let in as, and
/// tells what happens. Its keeper, if it has one, keeps its tapes meanwhile, and all of them once the last has ended. Then the library is
/// closed, and what is wanted of the records is written, LUN 0 first, also where a session had a fault. Lines that can't be written are kept
/// and tried again; those that never can be are told.
///
/// Of the faults that happened the first in the order of `ServerFault` is told; no clause says which of them happened. No seat is missing
/// at the end.
pub fn serve_library<
    R: Clock + PollSource + RandomSource + Threads + Wait + Sync,
    E: Write + Send,
    W: Write + Send,
>(
    means: &ServiceMeans<'_, '_, R, E>,
    core: TargetCore<Device>,
    doors: &[Door<'_>],
    limits: ServeLimits<'_>,
    writer: &mut W,
) -> Result<(), ServerFault>
    requires some { 0 < limits.workers }
    requires doors { (0 < length doors.now) × (length doors.now ≤ 5) }
    ensures served { OnOk result (ServesLibrary (units_of core) ((limits.entry.workers + limits.entry.spare) * length doors.now) means.now.records
        (W.contents writer.old) (W.contents writer.new)) }
    ensures fault { IfErr result (λ fault. MayTell limits.entry.term fault) }
{
    let seats = seats_at(limits.workers, limits.spare, doors.len());
    let parts = seats as u64 + 1;
    let blanks = Blanks {
        zero: Blank::new(parts),
        one: Blank::new(parts),
        two: Blank::new(parts),
        three: Blank::new(parts),
        four: Blank::new(parts),
    };
    let acceptor = Acceptor::new(doors, limits);
    serve_with_ledgers::<Brand, R, E, W>(means, core, seats, blanks, &acceptor, writer)
}

/// How many seats there are at so many doors, each with so many workers and so many more.
#[tactic(auto, using(crate::proofs::Seats::some_seats, crate::proofs::Seats::few_seats))]
fn seats_at(workers: u8, spare: u8, doors: usize) -> usize
    requires workers { 0 < workers }
    requires doors { (0 < doors) × (doors ≤ 5) }
    ensures count { result ≡ (workers + spare) * doors }
    ensures some { (0 < result) × (result ≤ 2550) }
{
    (usize::from(workers) + usize::from(spare)) * doors
}

/// The same, generic over the ledgers.
fn serve_with_ledgers<
    B: Ledgers + Send + Sync,
    R: Clock + PollSource + RandomSource + Threads + Wait + Sync,
    E: Write + Send,
    W: Write + Send,
>(
    means: &ServiceMeans<'_, '_, R, E>,
    core: TargetCore<Device>,
    workers: usize,
    blanks: Blanks,
    acceptor: &Acceptor<'_>,
    writer: &mut W,
) -> Result<(), ServerFault>
    requires some { 0 < workers }
    requires blanks { AreBlanks B.names B.all_parts blanks }
    requires parts { B.all_parts ≡ workers + 1 }
    requires since { IsSince (units_of core) B.since_of }
    requires profile { profile_in (units_of core) ≡ B.profile }
    ensures served { OnOk result (ServesLibrary (units_of core) workers means.now.records (W.contents writer.old) (W.contents writer.new)) }
    ensures fault { IfErr result (λ fault. MayTell acceptor.now.limits.term fault) }
{
    let (rt, alloc, teller) = (means.rt, means.alloc, means.teller);
    let opened = Library::<B, Device, Pass>::new(alloc, core, workers, blanks, Pass);
    let (library, mut seats) = match opened {
        Ok(opened) => opened,
        Err((refused, _)) => return Err(refused.into()),
    };
    let mut batch = Batch::new(alloc);
    let served = serve_kept(means, &library, &mut seats, acceptor, &mut batch, writer)?;
    let left = write_rest(means, &library, batch, writer);
    let audit = means.records.of_the_rest();
    let listener = UnwrittenTeller { rt, teller };
    let closed = close_and_write(rt, alloc, library, seats, audit, writer, &listener);
    told_of(earlier(served, earlier(left, closing_fault(closed))))
}

/// Serves sessions with a worker at each seat, while the keeper of the library's tapes, if it has one, keeps them, and its metrics and its
/// status are told where they are asked for. Then the seats are back. The fault of a session, or of a library of which not all is kept.
fn serve_kept<
    B: Ledgers + Send + Sync,
    R: Clock + PollSource + RandomSource + Threads + Wait + Sync,
    E: Write + Send,
    W: Write + Send,
>(
    means: &ServiceMeans<'_, '_, R, E>,
    library: &Library<B, Device, Pass>,
    seats: &mut Vec<Seat<B>>,
    acceptor: &Acceptor<'_>,
    batch: &mut Batch,
    writer: &mut W,
) -> Result<Option<ServerFault>, AllocError>
    ensures lines { WritesOut means.now.records (W.contents writer.old) (W.contents writer.new) (left_in batch.old) (left_in batch.new) }
    ensures served { OnOk result (SeatsCome library.now.units seats.old.items seats.new.items) }
    ensures fault { IfOk result (λ fault. IfSome fault (MayTell acceptor.now.limits.term)) }
{
    match means.metrics {
        Some(metrics) => serve_and_measure(means, metrics, library, seats, acceptor, batch, writer),
        None => serve_shown(means, library, seats, acceptor, batch, writer),
    }
}

/// The same with a metrics socket, at which a thread of its own sends the library's metrics.
fn serve_and_measure<
    B: Ledgers + Send + Sync,
    R: Clock + PollSource + RandomSource + Threads + Wait + Sync,
    E: Write + Send,
    W: Write + Send,
>(
    means: &ServiceMeans<'_, '_, R, E>,
    metrics: &MetricsSocket,
    library: &Library<B, Device, Pass>,
    seats: &mut Vec<Seat<B>>,
    acceptor: &Acceptor<'_>,
    batch: &mut Batch,
    writer: &mut W,
) -> Result<Option<ServerFault>, AllocError>
    ensures lines { WritesOut means.now.records (W.contents writer.old) (W.contents writer.new) (left_in batch.old) (left_in batch.new) }
    ensures served { OnOk result (SeatsCome library.now.units seats.old.items seats.new.items) }
    ensures fault { IfOk result (λ fault. IfSome fault (MayTell acceptor.now.limits.term)) }
{
    let rt = means.rt;
    let sessions = acceptor.limits.sessions;
    let ((), served) = thread::join_mut(
        rt,
        &mut || metrics.answer_all(means, library, sessions),
        &mut || serve_measured(means, metrics, library, seats, acceptor, batch, writer),
    );
    served
}

/// Serves sessions, and shuts the metrics socket down once the last has ended.
fn serve_measured<
    B: Ledgers + Send + Sync,
    R: Clock + PollSource + RandomSource + Threads + Wait + Sync,
    E: Write + Send,
    W: Write + Send,
>(
    means: &ServiceMeans<'_, '_, R, E>,
    metrics: &MetricsSocket,
    library: &Library<B, Device, Pass>,
    seats: &mut Vec<Seat<B>>,
    acceptor: &Acceptor<'_>,
    batch: &mut Batch,
    writer: &mut W,
) -> Result<Option<ServerFault>, AllocError>
    ensures lines { WritesOut means.now.records (W.contents writer.old) (W.contents writer.new) (left_in batch.old) (left_in batch.new) }
    ensures served { OnOk result (SeatsCome library.now.units seats.old.items seats.new.items) }
    ensures fault { IfOk result (λ fault. IfSome fault (MayTell acceptor.now.limits.term)) }
{
    let served = serve_shown(means, library, seats, acceptor, batch, writer);
    metrics.shut_down();
    served
}

/// Serves sessions with a worker at each seat, while the keeper of the library's tapes, if it has one, keeps them, and its status is told
/// where it is asked for. Then the seats are back. The fault of a session, or of a library of which not all is kept.
fn serve_shown<
    B: Ledgers + Send + Sync,
    R: Clock + PollSource + RandomSource + Threads + Wait + Sync,
    E: Write + Send,
    W: Write + Send,
>(
    means: &ServiceMeans<'_, '_, R, E>,
    library: &Library<B, Device, Pass>,
    seats: &mut Vec<Seat<B>>,
    acceptor: &Acceptor<'_>,
    batch: &mut Batch,
    writer: &mut W,
) -> Result<Option<ServerFault>, AllocError>
    ensures lines { WritesOut means.now.records (W.contents writer.old) (W.contents writer.new) (left_in batch.old) (left_in batch.new) }
    ensures served { OnOk result (SeatsCome library.now.units seats.old.items seats.new.items) }
    ensures fault { IfOk result (λ fault. IfSome fault (MayTell acceptor.now.limits.term)) }
{
    match means.control {
        Some(control) => serve_and_show(means, control, library, seats, acceptor, batch, writer),
        None => serve_with_tapes(means, library, seats, acceptor, batch, writer),
    }
}

/// The same with a control socket, at which a thread of its own sends the library's status.
fn serve_and_show<
    B: Ledgers + Send + Sync,
    R: Clock + PollSource + RandomSource + Threads + Wait + Sync,
    E: Write + Send,
    W: Write + Send,
>(
    means: &ServiceMeans<'_, '_, R, E>,
    control: &ControlSocket,
    library: &Library<B, Device, Pass>,
    seats: &mut Vec<Seat<B>>,
    acceptor: &Acceptor<'_>,
    batch: &mut Batch,
    writer: &mut W,
) -> Result<Option<ServerFault>, AllocError>
    ensures lines { WritesOut means.now.records (W.contents writer.old) (W.contents writer.new) (left_in batch.old) (left_in batch.new) }
    ensures served { OnOk result (SeatsCome library.now.units seats.old.items seats.new.items) }
    ensures fault { IfOk result (λ fault. IfSome fault (MayTell acceptor.now.limits.term)) }
{
    let rt = means.rt;
    let sessions = acceptor.limits.sessions;
    let ((), served) = thread::join_mut(
        rt,
        &mut || control.answer_all(means, library, sessions),
        &mut || serve_and_shut(means, control, library, seats, acceptor, batch, writer),
    );
    served
}

/// Serves sessions, and shuts the control socket down once the last has ended.
fn serve_and_shut<
    B: Ledgers + Send + Sync,
    R: Clock + PollSource + RandomSource + Threads + Wait + Sync,
    E: Write + Send,
    W: Write + Send,
>(
    means: &ServiceMeans<'_, '_, R, E>,
    control: &ControlSocket,
    library: &Library<B, Device, Pass>,
    seats: &mut Vec<Seat<B>>,
    acceptor: &Acceptor<'_>,
    batch: &mut Batch,
    writer: &mut W,
) -> Result<Option<ServerFault>, AllocError>
    ensures lines { WritesOut means.now.records (W.contents writer.old) (W.contents writer.new) (left_in batch.old) (left_in batch.new) }
    ensures served { OnOk result (SeatsCome library.now.units seats.old.items seats.new.items) }
    ensures fault { IfOk result (λ fault. IfSome fault (MayTell acceptor.now.limits.term)) }
{
    let served = serve_with_tapes(means, library, seats, acceptor, batch, writer);
    control.shut_down();
    served
}

/// Serves sessions with a worker at each seat, while the keeper of the library's tapes, if it has one, keeps them. Then the seats are back. The
/// fault of a session, or of a library of which not all is kept.
fn serve_with_tapes<
    B: Ledgers + Send + Sync,
    R: Clock + PollSource + RandomSource + Threads + Wait + Sync,
    E: Write + Send,
    W: Write + Send,
>(
    means: &ServiceMeans<'_, '_, R, E>,
    library: &Library<B, Device, Pass>,
    seats: &mut Vec<Seat<B>>,
    acceptor: &Acceptor<'_>,
    batch: &mut Batch,
    writer: &mut W,
) -> Result<Option<ServerFault>, AllocError>
    ensures lines { WritesOut means.now.records (W.contents writer.old) (W.contents writer.new) (left_in batch.old) (left_in batch.new) }
    ensures served { OnOk result (SeatsCome library.now.units seats.old.items seats.new.items) }
    ensures fault { IfOk result (λ fault. IfSome fault (MayTell acceptor.now.limits.term)) }
{
    let tapes = LibraryTapes { library };
    match means.keeper {
        Some(keeper) => {
            let saved = SavedTapes {
                keeper,
                tapes: &tapes,
            };
            serve_with_keeper(means, &saved, library, seats, acceptor, batch, writer)
        }
        None => serve_with_keeper(means, &NoKeeper, library, seats, acceptor, batch, writer),
    }
}

/// The same, generic over the keeper.
fn serve_with_keeper<
    B: Ledgers + Send + Sync,
    K: TapeKeeper + Sync,
    R: Clock + PollSource + RandomSource + Threads + Wait + Sync,
    E: Write + Send,
    W: Write + Send,
>(
    means: &ServiceMeans<'_, '_, R, E>,
    keeper: &K,
    library: &Library<B, Device, Pass>,
    seats: &mut Vec<Seat<B>>,
    acceptor: &Acceptor<'_>,
    batch: &mut Batch,
    writer: &mut W,
) -> Result<Option<ServerFault>, AllocError>
    ensures lines { WritesOut means.now.records (W.contents writer.old) (W.contents writer.new) (left_in batch.old) (left_in batch.new) }
    ensures served { OnOk result (SeatsCome library.now.units seats.old.items seats.new.items) }
    ensures fault { IfOk result (λ fault. IfSome fault (MayTell acceptor.now.limits.term)) }
{
    let served = serve_seats(means, keeper, library, seats, acceptor, batch, writer)?;
    let kept = keep_at_the_end(means.rt, means.alloc, keeper, means.teller);
    Ok(earlier(own_fault(acceptor.limits.term, served), kept))
}

/// Serves sessions with a worker at each seat. Then the seats are back.
fn serve_seats<
    B: Ledgers + Send + Sync,
    K: TapeKeeper + Sync,
    R: Clock + PollSource + RandomSource + Threads + Wait + Sync,
    E: Write + Send,
    W: Write + Send,
>(
    means: &ServiceMeans<'_, '_, R, E>,
    keeper: &K,
    library: &Library<B, Device, Pass>,
    seats: &mut Vec<Seat<B>>,
    acceptor: &Acceptor<'_>,
    batch: &mut Batch,
    writer: &mut W,
) -> Result<Option<FaultySession>, AllocError>
    ensures lines { WritesOut means.now.records (W.contents writer.old) (W.contents writer.new) (left_in batch.old) (left_in batch.new) }
    ensures served { OnOk result (SeatsCome library.now.units seats.old.items seats.new.items) }
{
    let alloc = means.alloc;
    let mut back = Vec::new(alloc);
    back.reserve(seats.len())?;
    let taken = mem::replace(seats, Vec::new(alloc));
    let directory = Mutex::new(Directory::new(alloc));
    let mut services = services_of(means.rt, alloc, library, &directory, taken)?;
    let served = serve_services(
        means,
        &mut services,
        keeper,
        library,
        acceptor,
        batch,
        writer,
    )?;
    give_back(services, back, seats);
    Ok(served)
}

/// Serves sessions with a worker at each service, and counts the records that units hand out meanwhile, where metrics are asked for.
fn serve_services<
    S: SeatService + Send,
    K: TapeKeeper + Sync,
    D: RecordSource + Sync,
    R: Clock + PollSource + RandomSource + Threads + Wait + Sync,
    E: Write + Send,
    W: Write + Send,
>(
    means: &ServiceMeans<'_, '_, R, E>,
    services: &mut Vec<S>,
    keeper: &K,
    units: &D,
    acceptor: &Acceptor<'_>,
    batch: &mut Batch,
    writer: &mut W,
) -> Result<Option<FaultySession>, AllocError>
    ensures lines { WritesOut means.now.records (W.contents writer.old) (W.contents writer.new) (left_in batch.old) (left_in batch.new) }
    ensures served { OnOk result (AllZip (ComesBySessions S.notes S.settles S.count) services.old.items services.new.items) }
{
    match means.metrics {
        Some(metrics) => {
            let counted = CountedSource {
                source: units,
                counts: &metrics.counts,
            };
            serve_and_take(means, services, keeper, &counted, acceptor, batch, writer)
        }
        None => serve_and_take(means, services, keeper, units, acceptor, batch, writer),
    }
}

/// Serves sessions with a worker at each service, and writes meanwhile what is wanted of the records that units hand out.
fn serve_and_take<
    S: SeatService + Send,
    K: TapeKeeper + Sync,
    D: RecordSource + Sync,
    R: Clock + PollSource + RandomSource + Threads + Wait + Sync,
    E: Write + Send,
    W: Write + Send,
>(
    means: &ServiceMeans<'_, '_, R, E>,
    services: &mut Vec<S>,
    keeper: &K,
    units: &D,
    acceptor: &Acceptor<'_>,
    batch: &mut Batch,
    writer: &mut W,
) -> Result<Option<FaultySession>, AllocError>
    ensures lines { WritesOut means.now.records (W.contents writer.old) (W.contents writer.new) (left_in batch.old) (left_in batch.new) }
    ensures served { OnOk result (AllZip (ComesBySessions S.notes S.settles S.count) services.old.items services.new.items) }
{
    let (rt, alloc, teller) = (means.rt, means.alloc, means.teller);
    match means.records {
        RecordOutput::AtTheEnd(_) => match means.sink {
            None => serve_all(rt, alloc, services, keeper, acceptor, None, teller),
            Some(sink) => serve_and_record(means, services, keeper, units, acceptor, sink),
        },
        RecordOutput::AsTheyCome => serve_and_write(
            means, services, keeper, units, acceptor, batch, writer,
        ),
    }
}

/// Serves sessions with a worker at each service, while a thread of its own hands their records out as they come.
fn serve_and_write<
    S: SeatService + Send,
    K: TapeKeeper + Sync,
    D: RecordSource + Sync,
    R: Clock + PollSource + RandomSource + Threads + Wait + Sync,
    E: Write + Send,
    W: Write + Send,
>(
    means: &ServiceMeans<'_, '_, R, E>,
    services: &mut Vec<S>,
    keeper: &K,
    units: &D,
    acceptor: &Acceptor<'_>,
    batch: &mut Batch,
    writer: &mut W,
) -> Result<Option<FaultySession>, AllocError>
    ensures lines { HandsOut (W.contents writer.old) (W.contents writer.new) (left_in batch.old) (left_in batch.new) }
    ensures served { OnOk result (AllZip (ComesBySessions S.notes S.settles S.count) services.old.items services.new.items) }
{
    let (rt, alloc, teller) = (means.rt, means.alloc, means.teller);
    let alloc_of_workers = alloc;
    let drain = RecordDrain::new();
    let ((), served) = thread::join_mut(
        rt,
        &mut || hand_out_as_asked(&drain, rt, alloc, units, batch, writer, teller),
        &mut || serve_and_end(
            rt,
            alloc_of_workers,
            services,
            keeper,
            acceptor,
            &drain,
            teller,
        ),
    );
    served
}

/// Serves sessions with a worker at each service, while a thread of its own writes their records into a file.
fn serve_and_record<
    S: SeatService + Send,
    K: TapeKeeper + Sync,
    D: RecordSource + Sync,
    R: Clock + PollSource + RandomSource + Threads + Wait + Sync,
    E: Write + Send,
>(
    means: &ServiceMeans<'_, '_, R, E>,
    services: &mut Vec<S>,
    keeper: &K,
    units: &D,
    acceptor: &Acceptor<'_>,
    sink: &RecordSink<'_>,
) -> Result<Option<FaultySession>, AllocError>
    ensures { OnOk result (AllZip (ComesBySessions S.notes S.settles S.count) services.old.items services.new.items) }
{
    let (rt, alloc, teller) = (means.rt, means.alloc, means.teller);
    let alloc_of_workers = alloc;
    let drain = RecordDrain::new();
    let ((), served) = thread::join_mut(
        rt,
        &mut || record_while_served(&drain, rt, alloc, units, sink, teller),
        &mut || serve_and_end(
            rt,
            alloc_of_workers,
            services,
            keeper,
            acceptor,
            &drain,
            teller,
        ),
    );
    served
}

/// Writes the lines that are left of the records that were taken last, where some were, or tells which have none; and those of all records
/// that are left, where they are written into a file.
fn write_rest<D: RecordSource, R: Clock + Wait, E: Write, W: Write>(
    means: &ServiceMeans<'_, '_, R, E>,
    library: &D,
    batch: Batch,
    writer: &mut W,
) -> Option<ServerFault>
    ensures left { result ≡ None → WritesOut means.now.records (W.contents writer.old) (W.contents writer.new) (left_in batch) [] }
    ensures fault { IfSome result (λ f. (f ≡ fault.Write) ⊎ (f ≡ fault.NoMemory)) }
{
    match means.records {
        RecordOutput::AtTheEnd(_) => match means.sink {
            None => None,
            Some(sink) => record_the_rest(means.rt, means.alloc, library, sink, means.teller),
        },
        RecordOutput::AsTheyCome => write_batch(means, batch, writer),
    }
}

/// Writes the lines that are left of a batch, or tells which of its records have none.
fn write_batch<R: Wait, E: Write, W: Write>(
    means: &ServiceMeans<'_, '_, R, E>,
    mut batch: Batch,
    writer: &mut W,
) -> Option<ServerFault>
    ensures left { result ≡ None → GoesOn (W.contents writer.old) (W.contents writer.new) (left_in batch) [] }
    ensures fault { IfSome result (λ f. (f ≡ fault.Write) ⊎ (f ≡ fault.NoMemory)) }
{
    let written = batch.write_left(means.alloc, writer);
    if let Some(records) = batch.unwritten() {
        means.teller.tell(means.rt, &Event::Unwritten(records));
    }
    written.err()
}
