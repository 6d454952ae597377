//! Who is let in beside the sessions that go on, and what waits for the end of one of them.

use crate::live_list::Entry;
use crate::live_session::{Initiator, Origin};
use crate::live_sessions::{EndInPlace, LiveSessions};
use crate::login_terms::{LoginTerms, Paths};
use crate::session_counts::SessionCounts;
use iscsi_login::Admission;
use iscsi_pdu::LoginStatus;
use iscsi_session::{Entrant, Joined, NexusEnd, SessionIdentity};
use scsi_nexus::Nexus;
use std::alloc::AllocGlobal;
use std::net::{IpAddr, Ipv4Addr, Net, SocketAddr};
use std::os::unix::net::UnixStream;
use std::process::Abort;
use std::sync::{Arc, Wait};
use std::thread;
use std::thread::Threads;
use std::time::{Clock, Duration};

const A: Nexus = Nexus {
    sas: 0x5000_0000_0000_000A,
    port: 1,
};

/// The key that A's nexus has in the directory.
const KEY: usize = 7;

/// What a session is told that asks to be let in.
#[derive(Clone, Copy, Debug, PartialEq, Eq)]
enum Told {
    First,
    Beside(usize),
    Refused(LoginStatus),
}

fn is_lost(end: NexusEnd) -> bool {
    match end {
        NexusEnd::Lost => true,
        NexusEnd::GoesOn => false,
    }
}

fn told_by(joined: Result<Joined, LoginStatus>) -> Told {
    match joined {
        Ok(Joined::First) => Told::First,
        Ok(Joined::Beside(key)) => Told::Beside(key),
        Err(status) => Told::Refused(status),
    }
}

/// One of A's sessions, by its ISID.
fn entrant(isid: u16) -> Entrant {
    Entrant {
        nexus: A,
        session: SessionIdentity {
            isid: u64::from(isid),
            tsih: isid,
            cid: 0,
        },
        admission: Admission::Listed(A.sas),
        proved: None,
    }
}

/// A session that has begun, with its stream, and its key.
fn begun<R: Abort + AllocGlobal + Clock + Net + Wait>(
    rt: &R,
    live: &LiveSessions,
    number: u64,
) -> (UnixStream, usize) {
    let (stream, _) = UnixStream::pair(rt).expect(rt, "a stream");
    let peer = SocketAddr::new(IpAddr::V4(Ipv4Addr::new(10, 0, 0, 1)), 1000);
    let origin = Some(Origin { peer, group: 1 });
    let counts = Arc::new(rt.alloc(), SessionCounts::new()).expect(rt, "memory");
    match live.begin(rt, &stream, number, origin, counts) {
        Ok(Entry::Begins { key, .. }) => (stream, key),
        Ok(Entry::Ended) | Ok(Entry::Crowded(_)) | Err(_) => rt.panic("no session begins"),
    }
}

fn sessions<R: AllocGlobal>(rt: &R) -> LiveSessions {
    LiveSessions::new(
        rt.alloc(),
        Some(LoginTerms {
            most_sessions: 8,
            paths: Paths::SameAddress,
            most_strangers: 8,
        }),
    )
}

/// A session of A that is in, and another one that has begun: the keys of both.
fn one_in<R: Abort + AllocGlobal + Clock + Net + Wait>(
    rt: &R,
    live: &LiveSessions,
) -> (usize, usize) {
    let (_, first) = begun(rt, live, 1);
    let joined = told_by(live.admit(rt, first, &entrant(1)));
    assert!(rt; joined == Told::First, "the first is the first");
    live.note_key(rt, first, KEY);
    let (_, second) = begun(rt, live, 2);
    (first, second)
}

/// What the second is told that comes while the nexus is being lost, where the first is forgotten after so many milliseconds, and whether it
/// is forgotten at all.
fn told_during_loss<R: Abort + AllocGlobal + Clock + Net + Threads + Wait + Sync>(
    rt: &R,
    forgets: bool,
) -> Told {
    let live = sessions(rt);
    let (first, second) = one_in(rt, &live);
    let lost = is_lost(live.leave(rt, first, A));
    assert!(rt; lost, "the nexus is lost with its last session");
    let (_, joined) = thread::join(
        rt,
        || {
            thread::sleep(rt, Duration::from_millis(100));
            if forgets {
                live.forget(rt, first);
            }
        },
        || live.admit(rt, second, &entrant(2)),
    );
    told_by(joined)
}

#[test]
fn a_login_waits_for_the_loss_of_its_nexus(rt: HostRuntime) {
    let joined = told_during_loss(&rt, true);
    assert!(&rt;
        joined == Told::First,
        "once it is lost the next is the first: {joined:?}"
    );
}

#[test]
fn a_loss_that_takes_too_long_refuses_a_login(rt: HostRuntime) {
    let joined = told_during_loss(&rt, false);
    let refused = Told::Refused(LoginStatus::TargetError);
    assert!(&rt;
        joined == refused,
        "after five seconds it is refused: {joined:?}"
    );
}

/// A login that comes before the nexus of the first has entered the directory waits too, and is then let in beside it.
#[test]
fn a_login_waits_until_its_nexus_is_entered(rt: HostRuntime) {
    let live = sessions(&rt);
    let (_, first) = begun(&rt, &live, 1);
    let (_, second) = begun(&rt, &live, 2);
    let joined = told_by(live.admit(&rt, first, &entrant(1)));
    assert!(&rt; joined == Told::First, "the first is the first");
    let (_, joined) = thread::join(
        &rt,
        || {
            thread::sleep(&rt, Duration::from_millis(100));
            live.note_key(&rt, first, KEY);
        },
        || live.admit(&rt, second, &entrant(2)),
    );
    let joined = told_by(joined);
    assert!(&rt;
        joined == Told::Beside(KEY),
        "it is let in beside the first: {joined:?}"
    );
}

/// A session that leaves others of its nexus doesn't take the nexus along.
#[test]
fn a_nexus_goes_on_with_its_other_session(rt: HostRuntime) {
    let live = sessions(&rt);
    let (first, second) = one_in(&rt, &live);
    let joined = told_by(live.admit(&rt, second, &entrant(2)));
    assert!(&rt;
        joined == Told::Beside(KEY),
        "the second is beside the first: {joined:?}"
    );
    let lost = is_lost(live.leave(&rt, first, A));
    assert!(&rt; !lost, "the nexus goes on");
    let lost = is_lost(live.leave(&rt, second, A));
    assert!(&rt; lost, "it is lost with the last");
}

/// A session that takes the place of another waits until that has ended.
#[test]
fn a_place_is_taken_once_it_is_free(rt: HostRuntime) {
    let live = sessions(&rt);
    let (first, _) = one_in(&rt, &live);
    let initiator = Initiator {
        nexus: A,
        session: entrant(1).session,
    };
    let (_, ended) = thread::join(
        &rt,
        || {
            thread::sleep(&rt, Duration::from_millis(100));
            live.forget(&rt, first);
        },
        || live.end(&rt, initiator),
    );
    let is_first = match ended {
        EndInPlace::Ended(number) => number == 1,
        EndInPlace::WasGone | EndInPlace::GoesOn => false,
    };
    assert!(&rt; is_first, "the first has ended");
}
