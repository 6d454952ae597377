use iscsi_pdu::LoginStatus;
use std::fmt;
use std::net::IpAddr;

/// Why an initiator isn't let in whose login is as it should be.
#[derive(Clone, Copy)]
pub enum NoRoom {
    /// As many sessions as may have logged in at the portal.
    Portal,
    /// As many sessions of its nexus as there may be.
    Nexus,
    /// It comes from another address than the sessions of its nexus, one of which comes from this one.
    Address(IpAddr),
    /// Another name has its nexus.
    Name,
    /// The sessions of its nexus have proved another line of the secrets file.
    Secret,
    /// A session of its ISID was let in since it was looked for.
    Isid,
    /// A host that isn't named, beyond as many as leave slots to those that are.
    Stranger,
    /// Its nexus has a session at the Unix socket.
    Socket,
    /// Its nexus is being lost, which takes too long.
    Loss,
}

impl NoRoom {
    /// How its initiator is told.
    pub fn status(self) -> LoginStatus {
        match self {
            NoRoom::Portal
            | NoRoom::Nexus
            | NoRoom::Address(_)
            | NoRoom::Name
            | NoRoom::Secret
            | NoRoom::Isid
            | NoRoom::Stranger
            | NoRoom::Socket => LoginStatus::OutOfResources,
            NoRoom::Loss => LoginStatus::TargetError,
        }
    }
}

impl fmt::Display for NoRoom {
    ghost use Rattle.std.specs.Prelude.{Some};
    ghost use Rattle.live_sessions.specs.NoRooms.{no_room_text};

    ghost output = { λ reason. Some (no_room_text reason) };

    fn fmt<W: fmt::Write>(&self, f: &mut fmt::Formatter<W>) -> fmt::Result {
        match self {
            NoRoom::Portal => f.write_str("as many sessions are in as there are workers"),
            NoRoom::Nexus => f.write_str("its name has 8 sessions here"),
            NoRoom::Address(address) => write!(
                f,
                "its name is in from {address}, and there is no --multipath"
            ),
            NoRoom::Name => f.write_str("another name has its SAS address"),
            NoRoom::Secret => { f.write_str("its name is in by another line of the secrets file") }
            NoRoom::Isid => f.write_str("a session of its ISID came in meanwhile"),
            NoRoom::Stranger => f.write_str("hosts that are named need the slots that are left"),
            NoRoom::Socket => f.write_str("its nexus has a session at the Unix socket"),
            NoRoom::Loss => f.write_str("its nexus is being lost"),
        }
    }
}
