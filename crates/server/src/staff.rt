//! The workers of a library, made over their services, which they give back.

ghost use Rattle.std.specs.Prelude.{◌≡◌, ◌++◌, ◌+◌, ◌≤◌, None, length, map, IfOk, vec_capacity, vec_len};
ghost use Rattle.server.specs.Faults.{first_among};

use crate::faulty_session::{FaultySession, first_accepted};
use crate::record_drain::RecordDrain;
use crate::session_flags::SessionFlags;
use crate::teller::Teller;
use crate::worker::Worker;
use crate::worker_service::{Replies, SessionSoFar, WorkerService};
use live_sessions::ResetCounts;
use session::SeatService;
use std::alloc::{AllocError, Global};
use std::io::Write;
use std::sync::Wait;
use tape_keeper::TapeKeeper;

/// The flags of so many workers' sessions.
pub(crate) fn flags_of(alloc: Global, count: usize) -> Result<Vec<SessionFlags>, AllocError>
    ensures { IfOk result (λ flags. vec_len flags ≡ count) }
{
    let mut flags = Vec::new(alloc);
    'flags: for _worker in 0..count {
        flags.push(SessionFlags::new(alloc)?)?;
    }
    Ok(flags)
}

/// What all workers of a library work with.
#[derive(Drop)]
pub(crate) struct WorkerMeans<'a, K: TapeKeeper, R: Wait, E: Write> {
    pub rt: &'a R,
    pub keeper: &'a K,
    pub resets: &'a ResetCounts,
    pub drain: Option<&'a RecordDrain>,
    pub teller: &'a Teller<E>,
    /// The flags of the session that each worker serves, by its place.
    pub sessions: &'a [SessionFlags],
}

/// A worker that has served no session.
fn worker_for<'a, S: SeatService, K: TapeKeeper, R: Wait, E: Write>(
    means: &WorkerMeans<'a, K, R, E>,
    seat_service: S,
    flags: &'a SessionFlags,
) -> Worker<'a, S, K, R, E>
    ensures { result.service ≡ seat_service }
{
    let service = WorkerService {
        seat_service,
        keeper: means.keeper,
        rt: means.rt,
        drain: means.drain,
        teller: means.teller,
        flags,
        sessions: means.sessions,
        resets: means.resets,
        session: SessionSoFar::new(Replies::InPlace),
    };
    Worker {
        service,
        fault: None,
    }
}

/// Workers that serve by these, in their order, each with the flags at its place.
pub(crate) fn workers_of<'a, S: SeatService, K: TapeKeeper, R: Wait, E: Write>(
    means: &WorkerMeans<'a, K, R, E>,
    alloc: Global,
    services: Vec<S>,
) -> Result<Vec<Worker<'a, S, K, R, E>>, AllocError>
    requires { length means.now.sessions.now ≡ vec_len services }
    ensures { IfOk result (λ workers. map (λ w. w.service) workers.items ≡ services.items) }
{
    let mut workers = Vec::new(alloc);
    let mut place = 0usize;
    'services: for seat_service in services {
        workers.push(worker_for(means, seat_service, &means.sessions[place]))?;
        place += 1;
    }
    Ok(workers)
}

/// Puts the services of workers after those that are there, in their order, and answers the fault of the session that was accepted first
/// of those that had one.
pub(crate) fn give_back<'a, S: SeatService, K: TapeKeeper, R: Wait, E: Write>(
    workers: Vec<Worker<'a, S, K, R, E>>,
    services: &mut Vec<S>,
) -> Option<FaultySession>
    requires { vec_len services.old + vec_len workers ≤ vec_capacity services.old }
    ensures services { services.new.items ≡ services.old.items ++ map (λ w. w.service) workers.entry.items }
    ensures fault { result ≡ first_among None (map (λ w. w.fault) workers.entry.items) }
{
    let mut told = None;
    'workers: for worker in workers {
        let Worker { service, fault } = worker;
        told = first_accepted(told, fault);
        services.push_reserved(service.into_seat_service());
    }
    told
}
