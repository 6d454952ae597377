//! Replies that are held until what their commands left is kept: by what the session is told of the keeper, and by what becomes of it
//! meanwhile. MaxCmdSN is 31 above ExpCmdSN, less the commands with numbers whose replies are held.

use super::keepers::{Handed, Keeper, Settlement, UNITS, Units};
use super::refused_resets::target;
use super::scripts::{Request, Script, Step};
use super::told::{Answer, Told, expected, first_number, pdus_of};
use super::{assert_list, assert_same};
use iscsi_login::LoginTarget;
use iscsi_session::{Arrival, IscsiEnd, IscsiFault, Portal, serve};
use std::alloc::Global;
use std::process::Abort;

/// How a session ended.
#[derive(Clone, Copy, PartialEq, Eq, Debug)]
enum Ended {
    Logout,
    Closed,
    Cut,
    Fault,
}

/// What it shows, what comes to the session, what that tells behind the login, what its units are handed, and how it ends.
struct Row {
    shows: &'static str,
    steps: &'static [Step],
    told: &'static [Told],
    handed: &'static [Handed],
    ended: Ended,
}

const SETTLEMENTS: [Row; 11] = [
    Row {
        shows: "a filemark is answered once it is kept, and all else before",
        steps: &[
            Step::Sent(&[Request::Mark(1, 1)]),
            Step::Sent(&[Request::Nop(0x51)]),
            Step::Sent(&[Request::AbortTask(0x52, 1, 9)]),
            Step::Sent(&[Request::Write(2, 2)]),
            Step::Sent(&[Request::Move(3)]),
            Step::Settled(&[Settlement::Kept(8, 1)]),
            Step::Settled(&[Settlement::Kept(1, 1)]),
        ],
        told: &[
            (Answer::Nop, 0x51, [1, 2, 32]),
            (Answer::NoTask, 0x52, [2, 2, 32]),
            (Answer::Busy, 2, [3, 3, 33]),
            (Answer::Busy, 3, [4, 4, 34]),
            (Answer::Busy, 1, [5, 4, 35]),
        ],
        handed: &[(0x10, 1, 1), (0x0A, 2, 1), (0xA5, 0, 1)],
        ended: Ended::Closed,
    },
    Row {
        shows: "where it is lost it is a target failure, whatever the unit replied, and the session goes on",
        steps: &[
            Step::Sent(&[Request::MarkThatReads(1, 1)]),
            Step::Settled(&[Settlement::Lost(1, 1)]),
            Step::Sent(&[Request::Mark(2, 3)]),
            Step::Settled(&[Settlement::Lost(3, 1)]),
            Step::Sent(&[Request::Mark(3, 1)]),
            Step::Settled(&[Settlement::Kept(1, 2)]),
        ],
        told: &[
            (Answer::Failure, 1, [1, 2, 33]),
            (Answer::Failure, 2, [2, 3, 34]),
            (Answer::Busy, 3, [3, 4, 35]),
        ],
        handed: &[(0x10, 1, 1), (0x10, 3, 1), (0x10, 1, 1)],
        ended: Ended::Closed,
    },
    Row {
        shows: "where it is kept it is what the unit replied: status, sense data and residual count",
        steps: &[
            Step::Sent(&[Request::MarkThatReads(1, 1), Request::Mark(2, 3)]),
            Step::Sent(&[Request::MarkThatWrites(3, 2)]),
            Step::Settled(&[Settlement::Kept(1, 1)]),
            Step::Settled(&[Settlement::Kept(3, 1)]),
            Step::Settled(&[Settlement::Kept(2, 1)]),
        ],
        told: &[
            (Answer::BusyWithoutData, 1, [1, 4, 33]),
            (Answer::Check, 2, [2, 4, 34]),
            (Answer::Busy, 3, [3, 4, 35]),
        ],
        handed: &[(0x10, 1, 1), (0x10, 3, 1), (0x10, 2, 1)],
        ended: Ended::Closed,
    },
    Row {
        shows: "one settlement answers two filemarks of a tape in order, and none behind them",
        steps: &[
            Step::Sent(&[Request::Mark(1, 1), Request::Mark(2, 1)]),
            Step::Sent(&[Request::Mark(3, 1)]),
            Step::Settled(&[Settlement::Kept(1, 2)]),
            Step::Woken,
            Step::Sent(&[Request::Nop(0x51)]),
            Step::Settled(&[Settlement::Kept(1, 3)]),
        ],
        told: &[
            (Answer::Busy, 1, [1, 4, 33]),
            (Answer::Busy, 2, [2, 4, 34]),
            (Answer::Nop, 0x51, [3, 4, 34]),
            (Answer::Busy, 3, [4, 4, 35]),
        ],
        handed: &[(0x10, 1, 3)],
        ended: Ended::Closed,
    },
    Row {
        shows: "what is settled together is answered in the order of the commands, each by its own outcome",
        steps: &[
            Step::Sent(&[
                Request::Mark(1, 1),
                Request::Mark(2, 2),
                Request::Mark(3, 1),
            ]),
            Step::Settled(&[Settlement::Lost(2, 1), Settlement::Kept(1, 2)]),
        ],
        told: &[
            (Answer::Busy, 1, [1, 4, 33]),
            (Answer::Failure, 2, [2, 4, 34]),
            (Answer::Busy, 3, [3, 4, 35]),
        ],
        handed: &[(0x10, 1, 1), (0x10, 2, 1), (0x10, 1, 1)],
        ended: Ended::Closed,
    },
    Row {
        shows: "what is kept and what is lost between two questions of one look have each their own outcome",
        steps: &[
            Step::Sent(&[
                Request::Mark(1, 1),
                Request::Mark(2, 2),
                Request::Mark(3, 1),
            ]),
            Step::Meanwhile(&[Settlement::Kept(1, 1), Settlement::Lost(1, 2)]),
            Step::Woken,
        ],
        told: &[
            (Answer::Failure, 3, [1, 4, 33]),
            (Answer::Busy, 1, [2, 4, 34]),
        ],
        handed: &[(0x10, 1, 1), (0x10, 2, 1), (0x10, 1, 1)],
        ended: Ended::Closed,
    },
    Row {
        shows: "what was kept before the session first asks is answered ahead of what comes then",
        steps: &[
            Step::Sent(&[Request::Load(1, 1)]),
            Step::Sent(&[Request::Nop(0x51)]),
        ],
        told: &[
            (Answer::Busy, 1, [1, 2, 33]),
            (Answer::Nop, 0x51, [2, 2, 33]),
        ],
        handed: &[(0x1B, 1, 1)],
        ended: Ended::Closed,
    },
    Row {
        shows: "the same behind a read that is interrupted",
        steps: &[Step::Sent(&[Request::Load(1, 1)]), Step::Woken],
        told: &[(Answer::Busy, 1, [1, 2, 33])],
        handed: &[(0x1B, 1, 1)],
        ended: Ended::Closed,
    },
    Row {
        shows: "the same behind a read that brings nothing for a while: a ping has the next StatSN and takes up none",
        steps: &[Step::Sent(&[Request::Load(1, 1)]), Step::Silence],
        told: &[(Answer::Ping, 0, [1, 2, 32]), (Answer::Busy, 1, [1, 2, 33])],
        handed: &[(0x1B, 1, 1)],
        ended: Ended::Closed,
    },
    Row {
        shows: "the data of a reply that is held are sent at once, with the numbers of that moment, and its status once it is settled",
        steps: &[
            Step::Sent(&[Request::Inquiry(1, 3), Request::Nop(0x51)]),
            Step::Settled(&[Settlement::Kept(9, 1)]),
        ],
        told: &[
            (Answer::Data, 1, [0, 2, 32]),
            (Answer::Nop, 0x51, [1, 2, 32]),
            (Answer::GoodBehindData, 1, [2, 2, 33]),
        ],
        handed: &[(0x12, 3, 1)],
        ended: Ended::Closed,
    },
    Row {
        shows: "where it is lost that is a target failure behind the data",
        steps: &[
            Step::Sent(&[Request::Inquiry(1, 3)]),
            Step::Settled(&[Settlement::Lost(9, 1)]),
        ],
        told: &[
            (Answer::Data, 1, [0, 2, 32]),
            (Answer::Failure, 1, [1, 2, 33]),
        ],
        handed: &[(0x12, 3, 1)],
        ended: Ended::Closed,
    },
];

const ABORTS: [Row; 6] = [
    Row {
        shows: "ABORT TASK of a filemark at its unit is complete, and there is no answer to it, also once it is kept",
        steps: &[
            Step::Sent(&[Request::Mark(1, 1), Request::Mark(2, 2)]),
            Step::Sent(&[Request::AbortTask(0x51, 2, 1)]),
            Step::Sent(&[Request::AbortTask(0x52, 1, 1)]),
            Step::Settled(&[Settlement::Kept(1, 1)]),
            Step::Sent(&[Request::AbortTask(0x53, 1, 1)]),
            Step::Settled(&[Settlement::Kept(2, 1)]),
        ],
        told: &[
            (Answer::NoTask, 0x51, [1, 3, 32]),
            (Answer::Complete, 0x52, [2, 3, 33]),
            (Answer::NoTask, 0x53, [3, 3, 33]),
            (Answer::Busy, 2, [4, 3, 34]),
        ],
        handed: &[(0x10, 1, 1), (0x10, 2, 1)],
        ended: Ended::Closed,
    },
    Row {
        shows: "ABORT TASK SET does so with those of a unit",
        steps: &[
            Step::Sent(&[
                Request::Mark(1, 1),
                Request::Mark(2, 1),
                Request::Mark(3, 2),
            ]),
            Step::Sent(&[Request::AbortTaskSet(0x51, 1)]),
            Step::Settled(&[Settlement::Kept(1, 2)]),
            Step::Settled(&[Settlement::Kept(2, 1)]),
        ],
        told: &[
            (Answer::Complete, 0x51, [1, 4, 34]),
            (Answer::Busy, 3, [2, 4, 35]),
        ],
        handed: &[(0x10, 1, 2), (0x10, 2, 1)],
        ended: Ended::Closed,
    },
    Row {
        shows: "LOGICAL UNIT RESET does so with those of a unit, also where they are lost",
        steps: &[
            Step::Sent(&[
                Request::Mark(1, 1),
                Request::Mark(2, 1),
                Request::Mark(3, 2),
            ]),
            Step::Sent(&[Request::ResetUnit(0x51, 1)]),
            Step::Settled(&[Settlement::Lost(1, 2)]),
            Step::Settled(&[Settlement::Kept(2, 1)]),
        ],
        told: &[
            (Answer::Complete, 0x51, [1, 4, 34]),
            (Answer::Busy, 3, [2, 4, 35]),
        ],
        handed: &[(0x10, 1, 2), (0x10, 2, 1)],
        ended: Ended::Closed,
    },
    Row {
        shows: "TARGET WARM RESET does so with those of all units",
        steps: &[
            Step::Sent(&[Request::Mark(1, 1), Request::Mark(2, 2)]),
            Step::Sent(&[Request::ResetAll(0x51)]),
            Step::Settled(&[Settlement::Kept(1, 1), Settlement::Kept(2, 1)]),
            Step::Sent(&[Request::Nop(0x52)]),
        ],
        told: &[
            (Answer::Complete, 0x51, [1, 3, 34]),
            (Answer::Nop, 0x52, [2, 3, 34]),
        ],
        handed: &[(0x10, 1, 1), (0x10, 2, 1)],
        ended: Ended::Closed,
    },
    Row {
        shows: "a reset by another session does so with those of the unit, and tells nothing",
        steps: &[
            Step::Sent(&[Request::Mark(1, 1), Request::Mark(2, 2)]),
            Step::ResetElsewhere(1),
            Step::Settled(&[Settlement::Kept(1, 1)]),
            Step::Sent(&[Request::Nop(0x51)]),
            Step::Settled(&[Settlement::Kept(2, 1)]),
        ],
        told: &[
            (Answer::Nop, 0x51, [1, 3, 33]),
            (Answer::Busy, 2, [2, 3, 34]),
        ],
        handed: &[(0x10, 1, 1), (0x10, 2, 1)],
        ended: Ended::Closed,
    },
    Row {
        shows: "the end of input ends the session, and there is no answer",
        steps: &[Step::Sent(&[Request::Mark(1, 1)])],
        told: &[],
        handed: &[(0x10, 1, 1)],
        ended: Ended::Closed,
    },
];

const LOGOUTS: [Row; 6] = [
    Row {
        shows: "a logout where no reply is held is answered at once",
        steps: &[Step::Sent(&[Request::Logout(0x51)])],
        told: &[(Answer::LoggedOut, 0x51, [1, 1, 32])],
        handed: &[],
        ended: Ended::Logout,
    },
    Row {
        shows: "a logout is answered behind a held reply, and what comes behind the logout is not",
        steps: &[
            Step::Sent(&[Request::Mark(1, 1)]),
            Step::Sent(&[Request::Logout(0x51), Request::Nop(0x52)]),
            Step::Sent(&[Request::Write(2, 1)]),
            Step::Woken,
            Step::Settled(&[Settlement::Kept(1, 1)]),
        ],
        told: &[
            (Answer::Busy, 1, [1, 2, 33]),
            (Answer::LoggedOut, 0x51, [2, 2, 33]),
        ],
        handed: &[(0x10, 1, 1)],
        ended: Ended::Logout,
    },
    Row {
        shows: "a logout waits for the last of them",
        steps: &[
            Step::Sent(&[
                Request::Mark(1, 1),
                Request::Mark(2, 2),
                Request::Logout(0x51),
            ]),
            Step::Settled(&[Settlement::Kept(2, 1)]),
            Step::Woken,
            Step::Settled(&[Settlement::Lost(1, 1)]),
        ],
        told: &[
            (Answer::Busy, 2, [1, 3, 33]),
            (Answer::Failure, 1, [2, 3, 34]),
            (Answer::LoggedOut, 0x51, [3, 3, 34]),
        ],
        handed: &[(0x10, 1, 1), (0x10, 2, 1)],
        ended: Ended::Logout,
    },
    Row {
        shows: "a logout waits for the reply of a command for immediate delivery too",
        steps: &[
            Step::Sent(&[Request::MarkAtOnce(0x51, 1), Request::Logout(0x52)]),
            Step::Settled(&[Settlement::Kept(1, 1)]),
        ],
        told: &[
            (Answer::Busy, 0x51, [1, 1, 32]),
            (Answer::LoggedOut, 0x52, [2, 1, 32]),
        ],
        handed: &[(0x10, 1, 1)],
        ended: Ended::Logout,
    },
    Row {
        shows: "a logout that waits uses its number up once it is answered",
        steps: &[
            Step::Sent(&[Request::Mark(1, 1), Request::LogoutInTurn(2)]),
            Step::Settled(&[Settlement::Kept(1, 1)]),
        ],
        told: &[
            (Answer::Busy, 1, [1, 2, 33]),
            (Answer::LoggedOut, 2, [2, 3, 34]),
        ],
        handed: &[(0x10, 1, 1)],
        ended: Ended::Logout,
    },
    Row {
        shows: "a logout waits no longer where another session has reset the unit",
        steps: &[
            Step::Sent(&[Request::Mark(1, 1), Request::Logout(0x51)]),
            Step::ResetElsewhere(1),
        ],
        told: &[(Answer::LoggedOut, 0x51, [1, 2, 33])],
        handed: &[(0x10, 1, 1)],
        ended: Ended::Logout,
    },
];

const WINDOWS: [Row; 4] = [
    Row {
        shows: "32 held replies close the window: the next command is passed over, until one of them is sent",
        steps: &[
            Step::Sent(&[Request::Marks(32)]),
            Step::Sent(&[Request::Nop(0x51)]),
            Step::Sent(&[Request::Write(33, 1)]),
            Step::Sent(&[Request::Nop(0x52)]),
            Step::Settled(&[Settlement::Kept(0, 2)]),
            Step::Sent(&[Request::Write(33, 1)]),
        ],
        told: &[
            (Answer::Nop, 0x51, [1, 33, 32]),
            (Answer::Nop, 0x52, [2, 33, 32]),
            (Answer::Busy, 1, [3, 33, 33]),
            (Answer::Busy, 2, [4, 33, 34]),
            (Answer::Busy, 33, [5, 34, 35]),
        ],
        handed: &[(0x10, 0, 32), (0x0A, 1, 1)],
        ended: Ended::Closed,
    },
    Row {
        shows: "a held reply of a command for immediate delivery takes nothing of the window",
        steps: &[
            Step::Sent(&[Request::MarkAtOnce(0x51, 1), Request::Nop(0x52)]),
            Step::Settled(&[Settlement::Kept(1, 1)]),
        ],
        told: &[
            (Answer::Nop, 0x52, [1, 1, 32]),
            (Answer::Busy, 0x51, [2, 1, 32]),
        ],
        handed: &[(0x10, 1, 1)],
        ended: Ended::Closed,
    },
    Row {
        shows: "32 held replies of such commands are as many as may be: the next is rejected",
        steps: &[
            Step::Sent(&[Request::MarksAtOnce(32)]),
            Step::Sent(&[Request::MarkAtOnce(33, 1), Request::Nop(0x51)]),
            Step::Settled(&[Settlement::Kept(0, 1)]),
            Step::Sent(&[Request::MarkAtOnce(34, 1)]),
            Step::Settled(&[Settlement::Kept(1, 1)]),
        ],
        told: &[
            (Answer::Crowded, 33, [1, 1, 32]),
            (Answer::Nop, 0x51, [2, 1, 32]),
            (Answer::Busy, 1, [3, 1, 32]),
            (Answer::Busy, 34, [4, 1, 32]),
        ],
        handed: &[(0x10, 0, 32), (0x10, 1, 1)],
        ended: Ended::Closed,
    },
    Row {
        shows: "the tag of a held reply is in use until it is sent",
        steps: &[
            Step::Sent(&[Request::Mark(1, 1), Request::MarkByTag(2, 2, 1)]),
            Step::Settled(&[Settlement::Kept(1, 1)]),
            Step::Sent(&[Request::MarkByTag(3, 2, 1)]),
            Step::Settled(&[Settlement::Kept(2, 1)]),
        ],
        told: &[
            (Answer::TagInUse, 1, [1, 3, 33]),
            (Answer::Busy, 1, [2, 3, 34]),
            (Answer::Busy, 1, [3, 4, 35]),
        ],
        handed: &[(0x10, 1, 1), (0x10, 2, 1)],
        ended: Ended::Closed,
    },
];

fn ended_as(ended: Result<IscsiEnd, IscsiFault>) -> Ended {
    match ended {
        Ok(IscsiEnd::Logout) => Ended::Logout,
        Ok(IscsiEnd::Closed) => Ended::Closed,
        Ok(IscsiEnd::Cut) => Ended::Cut,
        Err(_) => Ended::Fault,
    }
}

/// Serves a session of these steps, and says how it ended.
fn served(
    alloc: Global,
    target: &LoginTarget,
    units: &mut Units<'_>,
    steps: &[Step],
    told: &mut Vec<u8>,
) -> Ended {
    let arrival = Arrival {
        portal: Portal {
            target,
            group: 1,
            address: "10.0.0.1:3260",
            portals: &[],
        },
        challenge: None,
        tsih: 7,
    };
    let keeper = units.keeper;
    let mut script = Script {
        alloc,
        keeper,
        has_begun: false,
        steps,
    };
    ended_as(serve(alloc, units, keeper, &arrival, &mut script, told, 999))
}

/// However it ends, the nexus is lost at each unit once.
fn assert_row(rt: &impl Abort, alloc: Global, target: &LoginTarget, row: &Row) {
    let keeper = Keeper::new();
    let mut units = Units::new(alloc, &keeper);
    let mut bytes = Vec::new(alloc);
    let ended = served(alloc, target, &mut units, row.steps, &mut bytes);
    let (pdus, left) = pdus_of(rt, alloc, bytes.as_slice());
    let told = expected(rt, alloc, row.told, first_number(pdus.as_slice()));
    let found = pdus.as_slice().get(1..).unwrap_or(&[]);
    assert_list(rt, found, told.as_slice(), row.shows);
    assert_list(rt, units.handed.as_slice(), row.handed, row.shows);
    let end = (ended, left, units.losses);
    assert_same(rt, end, (row.ended, 0, u64::from(UNITS)), row.shows);
}

fn assert_rows(rt: &impl Abort, alloc: Global, rows: &[Row]) {
    let target = target(rt, alloc);
    for row in rows {
        assert_row(rt, alloc, &target, row);
    }
}

#[test]
fn held_replies_are_sent_as_they_are_settled(rt: HostRuntime) {
    assert_rows(&rt, rt.alloc(), &SETTLEMENTS);
}

#[test]
fn held_replies_are_dropped_as_rows_say(rt: HostRuntime) {
    assert_rows(&rt, rt.alloc(), &ABORTS);
}

#[test]
fn logouts_wait_for_held_replies(rt: HostRuntime) {
    assert_rows(&rt, rt.alloc(), &LOGOUTS);
}

#[test]
fn held_replies_count_in_the_window(rt: HostRuntime) {
    assert_rows(&rt, rt.alloc(), &WINDOWS);
}

/// Filemarks without data and with four bytes, an INQUIRY that is answered with data, and a WRITE.
const ASKING: &[Step] = &[
    Step::Sent(&[Request::Mark(1, 1), Request::MarkThatWrites(2, 2)]),
    Step::Sent(&[Request::Inquiry(3, 3), Request::Write(4, 1)]),
];

#[test]
fn each_reply_is_asked_for_once(rt: HostRuntime) {
    let alloc = rt.alloc();
    let target = target(&rt, alloc);
    let keeper = Keeper::new();
    let mut units = Units::new(alloc, &keeper);
    let mut told = Vec::new(alloc);
    let _ = served(alloc, &target, &mut units, ASKING, &mut told);
    let asked = units.asked.try_borrow().expect(&rt, "no other use");
    let expected = [(0x10, 0), (0x10, 4), (0x12, 0), (0x0A, 4)];
    assert_list(&rt, asked.as_slice(), &expected, "with how many bytes");
}

/// What it shows, what comes, and whether the session says at last that it holds replies.
type HoldingRow = (&'static str, &'static [Step], bool);

const HOLDING: [HoldingRow; 5] = [
    (
        "a reply that waits is held",
        &[Step::Sent(&[Request::Mark(1, 1)]), Step::Woken],
        true,
    ),
    (
        "one that was sent isn't",
        &[
            Step::Sent(&[Request::Mark(1, 1)]),
            Step::Settled(&[Settlement::Kept(1, 1)]),
        ],
        false,
    ),
    (
        "nor is one that was dropped",
        &[
            Step::Sent(&[Request::Mark(1, 1)]),
            Step::Sent(&[Request::AbortTask(0x51, 1, 1)]),
            Step::Woken,
        ],
        false,
    ),
    (
        "nor one that another session's reset dropped",
        &[Step::Sent(&[Request::Mark(1, 1)]), Step::ResetElsewhere(1)],
        false,
    ),
    (
        "of two one is left",
        &[
            Step::Sent(&[Request::Mark(1, 1), Request::Mark(2, 2)]),
            Step::Settled(&[Settlement::Kept(2, 1)]),
        ],
        true,
    ),
];

#[test]
fn a_session_says_whether_it_holds_replies(rt: HostRuntime) {
    let alloc = rt.alloc();
    let target = target(&rt, alloc);
    for (shows, steps, is_holding) in &HOLDING {
        let keeper = Keeper::new();
        let mut units = Units::new(alloc, &keeper);
        let mut told = Vec::new(alloc);
        let _ = served(alloc, &target, &mut units, steps, &mut told);
        assert_same(&rt, keeper.is_holding(), *is_holding, shows);
    }
}
