//! Resets that units refuse, where a write waits for its data: unit 0 is absent, and unit 1 has no room.
use super::assert_same;
use crate::socket_sessions::Empty;
use iscsi_login::{Access, Authentication, LoginTarget};
use iscsi_pdu::{LoginStatus, SerialNumber};
use iscsi_session::{
    Arrival, Entrant, Joined, NexusEnd, Portal, SessionIdentity, SessionRegister, serve,
};
use scsi_cdb::Profile;
use scsi_nexus::Nexus;
use std::alloc::Global;
use std::process::Abort;
use tickets::{Outcome, ReplyTicket};

/// No other session lives, none is to end, and none has reset a unit.
#[derive(Drop)]
struct Alone;

impl SessionRegister for Alone {
    fn living(&self, _nexus: Nexus, _isid: u64) -> Option<SessionIdentity> {
        None
    }

    fn end(&self, _nexus: Nexus, _session: SessionIdentity) -> bool {
        false
    }

    fn note_name(&self, _name: &[u8]) {}

    fn enter_discovery(&self) -> Result<(), LoginStatus> {
        Ok(())
    }

    fn enter(&self, _entrant: &Entrant) -> Result<Joined, LoginStatus> {
        Ok(Joined::First)
    }

    fn note_key(&self, _key: usize) {}

    fn note_login(&self, _nexus: Nexus, _name: &[u8], _joined: Joined) {}

    fn withdraw(&self, _status: LoginStatus) {}

    fn leave(&self, _nexus: Nexus) -> NexusEnd {
        NexusEnd::Lost
    }

    fn was_reset(&self, _unit: u8) -> bool {
        false
    }

    fn note_reset(&self, _unit: u8) {}

    fn ends_within(&self) -> Option<u16> {
        None
    }

    fn note_holding(&self, _is_holding: bool) {}

    fn note_missing(&self, _number: Option<SerialNumber>) {}

    fn outcome_of(&self, _ticket: ReplyTicket) -> Option<Outcome> {
        Some(Outcome::Kept)
    }
}

/// A login of `iqn.a` with CmdSN 1: from operational negotiation to full feature.
pub(super) const LOGIN: &[u8] = b"C\x87\0\0\0\0\08\0\x02=\0\0\x01\0\0\0\0\0\x01\0\x02\0\0\
    \0\0\0\x01\0\0\0\0\0\0\0\0\0\0\0\0\0\0\0\0\0\0\0\0\
    InitiatorName=iqn.a\0TargetName=iqn.t\0SessionType=Normal\0";

/// WRITE(6) of four bytes by task 2 at unit 0, with CmdSN 1, whose data are asked for, and these.
const WRITE: &[u8] = b"\x01\xa1\0\0\0\0\0\0\0\0\0\0\0\0\0\0\0\0\0\x02\0\0\0\x04\
    \0\0\0\x01\0\0\0\x01\x0a\0\0\0\0\0\0\0\0\0\0\0\0\0\0\0";

const DATA: &[u8] = b"\x05\x80\0\0\0\0\0\x04\0\0\0\0\0\0\0\0\0\0\0\x02\0\0\0\0\
    \0\0\0\0\0\0\0\x01\0\0\0\0\0\0\0\0\0\0\0\0\0\0\0\0\
    abcd";

/// An immediate task management function by task 3, of which byte 1 says which, and byte 9 the unit.
const FUNCTION: [u8; 48] = [
    0x42, 0x80, 0, 0, 0, 0, 0, 0, 0, 0, 0, 0, 0, 0, 0, 0, 0, 0, 0, 3, 0xFF, 0xFF, 0xFF, 0xFF, 0, 0,
    0, 2, 0, 0, 0, 1, 0, 0, 0, 1, 0, 0, 0, 0, 0, 0, 0, 0, 0, 0, 0, 0,
];

/// Where the result of the function is told: behind the login response, with its text of 24 bytes, and an R2T. And how many bytes are told
/// without an answer to the write, and with one.
const RESULT: usize = 72 + 48 + 2;

const DROPPED: usize = 72 + 48 + 48;

const EXECUTED: usize = DROPPED + 48 + 20;

/// What it shows, byte 1 of the function and its unit; its result, and how many bytes are told: a write that is executed is answered.
type Row = (&'static str, u8, u8, u8, usize);

const ROWS: [Row; 3] = [
    (
        "LOGICAL UNIT RESET of an absent unit: no such unit, and the write is gone",
        0x85,
        0,
        2,
        DROPPED,
    ),
    (
        "LOGICAL UNIT RESET, no room: rejected, and the write elsewhere is executed",
        0x85,
        1,
        0xFF,
        EXECUTED,
    ),
    (
        "TARGET WARM RESET, no room at one: rejected, and the write is gone",
        0x86,
        0,
        0xFF,
        DROPPED,
    ),
];

/// What an initiator sends: a login, a write, the function of a row, and the data of the write.
fn sent_by(rt: &impl Abort, alloc: Global, row: &Row) -> Vec<u8> {
    let mut function = FUNCTION;
    function[1] = row.1;
    function[9] = row.2;
    let parts = [LOGIN, WRITE, function.as_slice(), DATA];
    parts.concat(alloc).expect(rt, "memory")
}

/// The target `iqn.t`, which lets in every host.
pub(super) fn target(rt: &impl Abort, alloc: Global) -> LoginTarget {
    LoginTarget {
        name: Vec::from_slice(alloc, b"iqn.t").expect(rt, "memory"),
        access: Access {
            hosts: Vec::new(alloc),
            any_host: true,
        },
        authentication: Authentication::None,
        profile: Profile::Spec,
    }
}

/// How often the nexus is lost, with what is told.
fn served(alloc: Global, target: &LoginTarget, sent: &[u8], told: &mut Vec<u8>) -> u64 {
    let arrival = Arrival {
        portal: Portal {
            target,
            group: 1,
            address: "10.0.0.1:3260",
            portals: &[],
        },
        challenge: None,
        tsih: 7,
    };
    let mut service = Empty::new();
    let mut reader = sent;
    let _ = serve(
        alloc,
        &mut service,
        &Alone,
        &arrival,
        &mut reader,
        told,
        999,
    );
    service.losses
}

fn assert_row(rt: &impl Abort, alloc: Global, target: &LoginTarget, row: &Row) {
    let sent = sent_by(rt, alloc, row);
    let mut told = Vec::new(alloc);
    let losses = served(alloc, target, &sent, &mut told);
    let found = (told.get(RESULT).copied(), told.len(), losses);
    assert_same(rt, found, (Some(row.3), row.4, 2), row.0);
}

#[test]
fn resets_are_refused_as_rows_say(rt: HostRuntime) {
    let target = target(&rt, rt.alloc());
    for row in &ROWS {
        assert_row(&rt, rt.alloc(), &target, row);
    }
}
