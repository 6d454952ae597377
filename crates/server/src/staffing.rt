//! Sessions of a library, by a worker at each of its seats.

ghost use Rattle.std.specs.Prelude.{◌≡◌, OnOk, length, vec_len};
ghost use Rattle.std.specs.List.{AllZip};
ghost use Rattle.server.specs.Sessions.{ComesBySessions};

use crate::acceptor::Acceptor;
use crate::faulty_session::FaultySession;
use crate::keeping::{KeepTeller, places_of, work_at_all};
use crate::record_drain::RecordDrain;
use crate::staff::{WorkerMeans, flags_of, give_back, workers_of};
use crate::teller::Teller;
use crate::waiting::PollSource;
use crate::worker::Worker;
use session::SeatService;
use std::alloc::{AllocError, Global};
use std::io::Write;
use std::mem;
use std::random::RandomSource;
use std::sync::Wait;
use std::thread::{self, Threads};
use std::time::Clock;
use tape_keeper::{KeepPlace, TapeKeeper};

/// Serves sessions with a worker at each seat. Then none asks any more that records be handed out.
pub fn serve_and_end<
    'x,
    S: SeatService + Send,
    K: TapeKeeper + Sync,
    R: Clock + PollSource + RandomSource + Threads + Wait + Sync,
    E: Write + Send,
>(
    rt: &'x R,
    alloc: Global,
    services: &mut Vec<S>,
    keeper: &'x K,
    acceptor: &Acceptor<'_>,
    drain: &'x RecordDrain,
    teller: &'x Teller<E>,
) -> Result<Option<FaultySession>, AllocError>
    ensures { OnOk result (AllZip (ComesBySessions S.notes S.settles S.count) services.old.items services.new.items) }
{
    let served = serve_all(rt, alloc, services, keeper, acceptor, Some(drain), teller);
    drain.end(rt);
    served
}

/// Serves sessions with a worker at each seat, as `serve_sessions` does, while at each place of the library's keeper a thread of its own
/// keeps tapes. Where memory is refused for that no session begins.
pub fn serve_all<
    'x,
    S: SeatService + Send,
    K: TapeKeeper + Sync,
    R: Clock + PollSource + RandomSource + Threads + Wait + Sync,
    E: Write + Send,
>(
    rt: &'x R,
    alloc: Global,
    services: &mut Vec<S>,
    keeper: &'x K,
    acceptor: &Acceptor<'_>,
    drain: Option<&'x RecordDrain>,
    teller: &'x Teller<E>,
) -> Result<Option<FaultySession>, AllocError>
    ensures { OnOk result (AllZip (ComesBySessions S.notes S.settles S.count) services.old.items services.new.items) }
{
    let flags = flags_of(alloc, services.len())?;
    let mut places = places_of(alloc, keeper.drives())?;
    let means = WorkerMeans {
        rt,
        keeper,
        resets: acceptor.limits.sessions.resets(),
        drain,
        teller,
        sessions: &flags,
    };
    serve_while_kept(&means, alloc, services, acceptor, &mut places)
}

/// Serves sessions with a worker at each seat, while a thread at each place keeps tapes.
fn serve_while_kept<
    'x,
    S: SeatService + Send,
    K: TapeKeeper + Sync,
    R: Clock + PollSource + RandomSource + Threads + Wait + Sync,
    E: Write + Send,
>(
    means: &WorkerMeans<'x, K, R, E>,
    alloc: Global,
    services: &mut Vec<S>,
    acceptor: &Acceptor<'_>,
    places: &mut [KeepPlace],
) -> Result<Option<FaultySession>, AllocError>
    requires { length means.now.sessions.now ≡ vec_len services.old }
    ensures { OnOk result (AllZip (ComesBySessions S.notes S.settles S.count) services.old.items services.new.items) }
{
    let listener = KeepTeller {
        rt: means.rt,
        teller: means.teller,
        sessions: means.sessions,
    };
    let keeper = means.keeper;
    let alloc_of_workers = alloc;
    let ((), served) = thread::join_mut(
        means.rt,
        &mut || work_at_all(alloc, keeper, &listener, places),
        &mut || -> Result<Option<FaultySession>, AllocError>
            requires { length means.now.sessions.now ≡ vec_len services.now }
        { serve_and_stop(means, alloc_of_workers, services, acceptor) },
    );
    served
}

/// Serves sessions with a worker at each seat. Then nothing is kept any more.
fn serve_and_stop<
    'x,
    S: SeatService + Send,
    K: TapeKeeper + Sync,
    R: Clock + PollSource + RandomSource + Threads + Wait + Sync,
    E: Write + Send,
>(
    means: &WorkerMeans<'x, K, R, E>,
    alloc: Global,
    services: &mut Vec<S>,
    acceptor: &Acceptor<'_>,
) -> Result<Option<FaultySession>, AllocError>
    requires { length means.now.sessions.now ≡ vec_len services.old }
    ensures { OnOk result (AllZip (ComesBySessions S.notes S.settles S.count) services.old.items services.new.items) }
{
    let served = serve_sessions(means, alloc, services, acceptor);
    means.keeper.end(means.rt);
    served
}

/// Serves sessions with a worker at each seat. The worker takes the seat's service, and gives it back. Answers the fault of the
/// session that was accepted first of those that had one.
fn serve_sessions<
    'x,
    S: SeatService + Send,
    K: TapeKeeper + Sync,
    R: Clock + PollSource + RandomSource + Threads + Wait + Sync,
    E: Write + Send,
>(
    means: &WorkerMeans<'x, K, R, E>,
    alloc: Global,
    services: &mut Vec<S>,
    acceptor: &Acceptor<'_>,
) -> Result<Option<FaultySession>, AllocError>
    requires { length means.now.sessions.now ≡ vec_len services.old }
    ensures { OnOk result (AllZip (ComesBySessions S.notes S.settles S.count) services.old.items services.new.items) }
{
    let mut back = Vec::new(alloc);
    back.reserve(services.len())?;
    let taken = mem::replace(services, Vec::new(alloc));
    let mut workers = workers_of(means, alloc, taken)?;
    work_all(means.rt, alloc, workers.as_mut_slice(), acceptor);
    let served = give_back(workers, &mut back);
    *services = back;
    Ok(served)
}

/// Has all workers serve sessions until there are no more.
fn work_all<
    'a,
    S: SeatService + Send,
    K: TapeKeeper + Sync,
    R: Clock + PollSource + RandomSource + Threads + Wait + Sync,
    E: Write + Send,
>(rt: &R, alloc: Global, workers: &mut [Worker<'a, S, K, R, E>], acceptor: &Acceptor<'_>)
    ensures { AllZip (λ v w. ComesBySessions S.notes S.settles S.count v.service w.service) workers.old workers.new }
{
    let count = workers.len();
    thread::for_each_mut(
        rt,
        workers,
        count.max(1),
        &|place: usize, worker: &mut Worker<'_, S, K, R, E>|
            ensures { ComesBySessions S.notes S.settles S.count worker.entry.now.service worker.exit.now.service }
        { worker.work(alloc, acceptor, place) },
    );
}
