//! What no socket shows of a session: that reads are counted, and keys of the directory.

use super::assert_same;
use iscsi_session::KeepingService;
use judgement::ReceivedCommand;
use logical_unit::{Done, EventKind};
use scsi_cdb::{Profile, commands_at};
use scsi_nexus::Nexus;
use session::{Directory, Service, SessionFault, serve};
use std::alloc::Global;
use std::cell::Cell;
use tickets::ReplyTicket;

const A: Nexus = Nexus {
    sas: 0x5000_0000_0000_000A,
    port: 1,
};

/// LOGIN of A.
const LOGIN: &[u8] = b"\0\0\0\x0b\x01\x50\0\0\0\0\0\0\x0a\0\x01";

const ACCEPTED: &[u8] = b"\0\0\0\x02\x81\0";

/// A service whose units are absent. It counts what was lost. A reset of unit 1 finds no room.
#[derive(Drop)]
pub(crate) struct Empty {
    pub(crate) losses: u64,
    /// How many losses there were when a nexus left the directory, if one did.
    pub(crate) left_behind: Cell<Option<u64>>,
}

impl Empty {
    pub(crate) fn new() -> Empty {
        Empty {
            losses: 0,
            left_behind: Cell::new(None),
        }
    }
}

impl Service for Empty {
    ghost notes = { λ _ _ _. Unit {0} };

    ghost count = { λ _. 2 };

    fn submit<'a>(
        &mut self,
        alloc: Global,
        nexus: Nexus,
        lun: u8,
        cdb: &'a [u8],
        bytes: &'a [u8],
    ) -> Done<'a> {
        let received = ReceivedCommand::new(nexus, commands_at(Profile::Spec, lun), cdb, bytes);
        Done::absent(alloc, lun, &received)
    }

    fn reset(&mut self, alloc: Global, lun: u8) -> Done<'static> {
        if lun == 1 {
            Done::busy(alloc, None, lun, EventKind::Reset)
        } else {
            Done::absent_reset(alloc, lun)
        }
    }

    fn lose(&mut self, alloc: Global, nexus: Nexus, lun: u8) -> Done<'static> {
        self.losses = self.losses.saturating_add(1);
        Done::absent_loss(alloc, nexus, lun)
    }

    fn units(&self) -> u8 {
        2
    }

    fn login(&mut self, _nexus: Nexus) -> Result<usize, SessionFault> {
        Ok(7)
    }

    fn logout(&mut self, _key: usize) {
        self.left_behind.set(Some(self.losses));
    }
}

/// No reply waits.
impl KeepingService for Empty {
    ghost use Rattle.std.specs.Prelude.{◌≡◌, None};

    ghost waits = { λ _ ticket. ticket ≡ None };

    fn ticket_for(&self, _done: &Done<'_>, _length: usize) -> Option<ReplyTicket> {
        None
    }

    fn join(&mut self, _nexus: Nexus) {}
}

/// The one read of a session brings its LOGIN.
#[test]
fn serve_ends_by_one_read_too_few(rt: HostRuntime) {
    let mut service = Empty::new();
    let mut reader = LOGIN;
    let mut output = Vec::new(rt.alloc());
    let ended = serve(
        rt.alloc(),
        Profile::Spec,
        &mut service,
        &mut reader,
        &mut output,
        1,
    );
    let found = (ended, output.as_slice(), service.losses);
    let expected = (Err(SessionFault::Read), ACCEPTED, 2);
    assert_same(&rt, found, expected, "one read too few");
}

/// The key of a new session, 9 where it is refused.
fn key_of(directory: &mut Directory, nexus: Nexus) -> usize {
    directory.login(nexus).unwrap_or(9)
}

/// How a second session of A is refused, whether another nexus has another key, and whether A has its key again behind a logout.
fn keys_of(directory: &mut Directory) -> (Option<SessionFault>, bool, bool) {
    let key = key_of(directory, A);
    let again = directory.login(A).err();
    let other = key_of(directory, Nexus { port: 2, ..A });
    directory.logout(key);
    (again, key != other, key_of(directory, A) == key)
}

#[test]
fn logout_frees_a_nexus_of_the_directory(rt: HostRuntime) {
    let mut directory = Directory::new(rt.alloc());
    let expected = (Some(SessionFault::AlreadyConnected), true, true);
    let shows = "a second session, another key, and the key again";
    assert_same(&rt, keys_of(&mut directory), expected, shows);
}
