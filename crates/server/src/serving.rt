//! A session from its connection on, with the times that its host has.
ghost use Rattle.std.specs.Prelude.{◌⊎◌, IfOk, IfErr};
ghost use Rattle.iscsi_session.specs.Leaving as iscsi;
ghost use Rattle.session.specs.Leaving as frames;
ghost use Rattle.session.specs.Serving.{BreaksOff, IsKeptOut, Serves};
ghost use Rattle.server.specs.SeatService.{DoesForWorker};
ghost use Rattle.server.specs.Sessions.{Leaves};

use crate::acceptor::{Acceptor, WaitTimes};
use crate::door::{Door, PortalDoor};
use crate::faulty_session::{Cause, FaultySession};
use crate::reply_writer::ReplyWriter;
use crate::sessions_beside::SessionsBeside;
use crate::timed_reader::{Patience, TimedReader};
use crate::waiting::PollSource;
use crate::worker::NewSession;
use crate::worker_service::WorkerService;
use iscsi_login::{Authentication, Challenge};
use iscsi_session::{Arrival, IscsiEnd, IscsiFault, KeepingService, Portal, PortalAddress};
use scsi_cdb::Profile;
use session::{End, SeatService, SessionFault, serve};
use std::alloc::{AllocError, Global};
use std::cell::Cell;
use std::io::{Read, Write};
use std::net::SocketAddr;
use std::random::RandomSource;
use std::sync::Wait;
use std::time::{Clock, Duration};
use tape_keeper::TapeKeeper;

/// After how many seconds at most a session of iSCSI looks whether all sessions are to end.
const LOOK: u64 = 1;

/// Serves a session of a connection, for no longer than its host may be silent, or take for a reply, and names its fault, if it
/// had one.
pub(crate) fn serve_connection<
    'a,
    S: SeatService,
    K: TapeKeeper,
    R: Clock + PollSource + RandomSource + Wait,
    E: Write,
>(
    alloc: Global,
    service: &mut WorkerService<'a, S, K, R, E>,
    acceptor: &Acceptor<'_>,
    new_session: NewSession<'_, '_>,
) -> Result<End, FaultySession>
    ensures { Leaves (DoesForWorker S.notes S.settles) S.count service.old service.new }
{
    let stream = &new_session.connection.stream;
    let times = acceptor.limits.times;
    let flags = service.flags;
    let limited = stream.set_write_timeout(times.write);
    let (Ok(mut reader), Ok(())) = (
        TimedReader::new(
            service.rt,
            alloc,
            stream,
            flags,
            patience_at(new_session.door, times),
        ),
        limited,
    ) else {
        return Err(FaultySession {
            number: new_session.number,
            nexus: None,
            cause: Cause::Fault(SessionFault::Read),
        });
    };
    let mut writer = ReplyWriter { stream, flags };
    match serve_session(
        alloc,
        service,
        acceptor,
        new_session,
        &mut reader,
        &mut writer,
    ) {
        Ok(end) => Ok(end),
        Err(cause) => Err(FaultySession {
            number: new_session.number,
            nexus: service.session.nexus,
            cause: if reader.is_late() {
                cause.silent()
            } else {
                cause
            },
        }),
    }
}

/// How long the hosts of a door are waited for: a host whose session is of frames isn't pinged, and isn't notified that sessions are to
/// end.
fn patience_at(door: &Door<'_>, times: WaitTimes) -> Patience {
    Patience {
        login: times.login,
        idle: times.idle,
        ping: match door.portal() {
            Some(_) => times.ping,
            None => None,
        },
        look: match door.portal() {
            Some(_) => Some(Duration::from_secs(LOOK)),
            None => None,
        },
    }
}

/// Serves a session of a door.
#[tactic(auto, using(crate::proofs::Sessions::socket_left))]
fn serve_session<
    'a,
    S: SeatService,
    K: TapeKeeper,
    R: Clock + PollSource + RandomSource + Wait,
    E: Write,
    I: Read,
    O: Write,
>(
    alloc: Global,
    service: &mut WorkerService<'a, S, K, R, E>,
    acceptor: &Acceptor<'_>,
    new_session: NewSession<'_, '_>,
    reader: &mut I,
    writer: &mut O,
) -> Result<End, Cause>
    ensures { Leaves (DoesForWorker S.notes S.settles) S.count service.old service.new }
{
    match new_session.door.portal() {
        None => match serve_frames(alloc, acceptor.limits.profile, service, reader, writer) {
            Ok(end) => Ok(end),
            Err(fault) => Err(Cause::Fault(fault)),
        },
        Some(portal) => {
            let came_to = PortalDoor {
                address: new_session.connection.came_to.unwrap_or(portal.address),
                ..portal
            };
            let sessions = acceptor.limits.sessions;
            let beside = SessionsBeside {
                rt: service.rt,
                sessions,
                keeper: service.keeper,
                drain: service.drain,
                flags: service.flags,
                key: new_session.key,
                number: new_session.number,
                origin: new_session.connection.origin,
                teller: service.teller,
                missing: Cell::new(None),
                seen: sessions.resets().copied(),
            };
            let place = PortalPlace {
                came_to,
                doors: acceptor.doors(),
                tsih: new_session.tsih,
            };
            match serve_iscsi(alloc, service, &beside, place, reader, writer) {
                Ok(end) => Ok(end),
                Err(fault) => Err(Cause::Iscsi(fault)),
            }
        }
    }
}

/// Serves one session of frames with a library of a profile.
fn serve_frames<'a, S: SeatService, K: TapeKeeper, R: Wait, E: Write, I: Read, O: Write>(
    alloc: Global,
    profile: Profile,
    service: &mut WorkerService<'a, S, K, R, E>,
    reader: &mut I,
    writer: &mut O,
) -> Result<End, SessionFault>
    ensures session { IfOk result (λ end. Serves profile (DoesForWorker S.notes S.settles) S.count service.old (I.remaining reader.old) (I.remaining reader.new)
        (O.contents writer.old) (O.contents writer.new) end service.new) }
    ensures service { frames.Leaves (DoesForWorker S.notes S.settles) S.count service.old service.new }
    ensures broken { IfErr result (λ fault.
        IsKeptOut profile service.old (I.remaining reader.old) (I.remaining reader.new) (O.contents writer.old) (O.contents writer.new) fault service.new
        ⊎ BreaksOff profile (DoesForWorker S.notes S.settles) S.count service.old (I.remaining reader.old) fault service.new) }
{
    serve(alloc, profile, service, reader, writer, u64::MAX)
}

/// Where an initiator has come in.
#[derive(Clone, Copy)]
struct PortalPlace<'d> {
    /// The portal, with the address that the connection has come to.
    came_to: PortalDoor<'d>,
    /// Those among which the portals of its target are.
    doors: &'d [Door<'d>],
    /// What may be the target's part of its session's identifier.
    tsih: u16,
}

/// Serves one session of iSCSI, at a portal whose address is the one that it has come to.
fn serve_iscsi<
    S: KeepingService,
    K: TapeKeeper,
    R: Clock + RandomSource + Wait,
    E: Write,
    I: Read,
    O: Write,
>(
    alloc: Global,
    service: &mut S,
    beside: &SessionsBeside<'_, K, R, E>,
    place: PortalPlace<'_>,
    reader: &mut I,
    writer: &mut O,
) -> Result<End, IscsiFault>
    ensures { iscsi.Leaves S.notes S.count (λ _. Unit {0}) place.entry.came_to.group service.old service.new }
{
    let came_to = place.came_to;
    let portals = addresses_from(alloc, place.doors, came_to.address)?;
    let address = told_address(alloc, &came_to, came_to.address)?;
    let arrival = Arrival {
        portal: Portal {
            target: came_to.target,
            group: came_to.group,
            address: address.as_str(),
            portals: &portals,
        },
        challenge: challenge_for(beside.rt, &came_to.target.authentication),
        tsih: place.tsih,
    };
    let ended = iscsi_session::serve(alloc, service, beside, &arrival, reader, writer, u64::MAX)?;
    Ok(match ended {
        IscsiEnd::Logout => End::Logout,
        IscsiEnd::Closed => End::Closed,
        IscsiEnd::Cut => End::Cut,
    })
}

/// Where the portals among doors are found by an initiator that has come to an address.
fn addresses_from(
    alloc: Global,
    doors: &[Door<'_>],
    came_to: SocketAddr,
) -> Result<Vec<PortalAddress>, AllocError> {
    let mut addresses = Vec::new(alloc);
    for door in doors {
        if let Some(portal) = door.portal() {
            addresses.push(PortalAddress {
                address: told_address(alloc, &portal, came_to)?,
                group: portal.group,
            })?;
        }
    }
    Ok(addresses)
}

/// Where a portal is found by an initiator that has come to an address: at the address that initiators are to be sent, or else where
/// it listens, and where it listens at all addresses, at the one that the initiator has come to. An address of IPv4 that a portal of
/// IPv6 sees is sent as one of IPv4.
fn told_address(
    alloc: Global,
    portal: &PortalDoor<'_>,
    came_to: SocketAddr,
) -> Result<String, AllocError> {
    if let Some(told) = portal.told {
        return String::from_str(alloc, told);
    }
    let bound = portal.address;
    let ip = if bound.ip().is_unspecified() {
        came_to.ip()
    } else {
        bound.ip()
    };
    SocketAddr::new(ip.to_canonical(), bound.port()).to_string(alloc)
}

/// What an initiator is asked, if it is. `None` too where the system gives no random bytes.
fn challenge_for<R: RandomSource>(rt: &R, authentication: &Authentication) -> Option<Challenge> {
    match authentication {
        Authentication::None => None,
        Authentication::Chap(_) => new_challenge(rt),
    }
}

/// An identifier and a challenge that no host can foretell.
fn new_challenge<R: RandomSource>(rt: &R) -> Option<Challenge> {
    let mut identifier = [0u8; 1];
    let mut bytes = [0u8; 32];
    rt.fill_bytes(&mut identifier).ok()?;
    rt.fill_bytes(&mut bytes).ok()?;
    Some(Challenge {
        identifier: identifier[0],
        bytes,
    })
}
