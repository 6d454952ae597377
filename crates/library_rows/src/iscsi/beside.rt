//! Sessions beside others of their nexus.
use super::assert_same;
use super::refused_resets::{LOGIN, target};
use crate::socket_sessions::Empty;
use iscsi_pdu::{LoginStatus, SerialNumber};
use iscsi_session::{
    Arrival, Entrant, IscsiEnd, IscsiFault, Joined, NexusEnd, Portal, SessionIdentity,
    SessionRegister, serve,
};
use scsi_nexus::Nexus;
use tickets::{Outcome, ReplyTicket};

/// Lets sessions in so, and lets their nexus go on or not.
#[derive(Drop)]
struct Sessions {
    entered: Result<Joined, LoginStatus>,
    end: NexusEnd,
}

impl SessionRegister for Sessions {
    fn living(&self, _nexus: Nexus, _isid: u64) -> Option<SessionIdentity> {
        None
    }

    fn end(&self, _nexus: Nexus, _session: SessionIdentity) -> bool {
        false
    }

    fn note_name(&self, _name: &[u8]) {}

    fn enter_discovery(&self) -> Result<(), LoginStatus> {
        Ok(())
    }

    fn enter(&self, _entrant: &Entrant) -> Result<Joined, LoginStatus> {
        self.entered
    }

    fn note_key(&self, _key: usize) {}

    fn note_login(&self, _nexus: Nexus, _name: &[u8], _joined: Joined) {}

    fn withdraw(&self, _status: LoginStatus) {}

    fn leave(&self, _nexus: Nexus) -> NexusEnd {
        self.end
    }

    fn was_reset(&self, _unit: u8) -> bool {
        false
    }

    fn note_reset(&self, _unit: u8) {}

    fn ends_within(&self) -> Option<u16> {
        None
    }

    fn note_holding(&self, _is_holding: bool) {}

    fn note_missing(&self, _number: Option<SerialNumber>) {}

    fn outcome_of(&self, _ticket: ReplyTicket) -> Option<Outcome> {
        Some(Outcome::Kept)
    }
}

/// How a session ends that logs in and sends nothing more, how often its nexus is lost, at two units, and behind how many losses it leaves the
/// directory, if it does.
type Row = (
    &'static str,
    Result<Joined, LoginStatus>,
    NexusEnd,
    Result<IscsiEnd, IscsiFault>,
    u64,
    Option<u64>,
);

const ROWS: [Row; 4] = [
    (
        "the only session of its nexus",
        Ok(Joined::First),
        NexusEnd::Lost,
        Ok(IscsiEnd::Closed),
        2,
        Some(2),
    ),
    (
        "one beside others, which go on",
        Ok(Joined::Beside(7)),
        NexusEnd::GoesOn,
        Ok(IscsiEnd::Closed),
        0,
        None,
    ),
    (
        "the last of several",
        Ok(Joined::Beside(7)),
        NexusEnd::Lost,
        Ok(IscsiEnd::Closed),
        2,
        Some(2),
    ),
    (
        "one that isn't let in",
        Err(LoginStatus::OutOfResources),
        NexusEnd::Lost,
        Err(IscsiFault::Refused(LoginStatus::OutOfResources)),
        0,
        None,
    ),
];

#[test]
fn nexuses_are_lost_as_rows_say(rt: HostRuntime) {
    let target = target(&rt, rt.alloc());
    for (shows, entered, end, ended, losses, left) in &ROWS {
        let sessions = Sessions {
            entered: *entered,
            end: *end,
        };
        let arrival = Arrival {
            portal: Portal {
                target: &target,
                group: 1,
                address: "10.0.0.1:3260",
                portals: &[],
            },
            challenge: None,
            tsih: 7,
        };
        let mut service = Empty::new();
        let mut reader = LOGIN;
        let mut told = Vec::new(rt.alloc());
        let found = serve(
            rt.alloc(),
            &mut service,
            &sessions,
            &arrival,
            &mut reader,
            &mut told,
            999,
        );
        let found = (found, service.losses, service.left_behind.get());
        assert_same(&rt, found, (*ended, *losses, *left), shows);
    }
}
