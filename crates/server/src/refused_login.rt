use crate::faulty_session::FaultySession;
use live_sessions::NoRoom;
use scsi_nexus::Nexus;
use std::fmt;
use std::net::SocketAddr;

/// A login that was refused at a portal.
#[derive(Clone, Copy)]
pub(crate) struct RefusedLogin<'a> {
    pub session: FaultySession,
    pub peer: SocketAddr,
    /// The name of its initiator, as that is reported.
    pub name: &'a str,
    /// Why there was no room, where its login was as it should be.
    pub no_room: Option<NoRoom>,
}

impl<'a> fmt::Display for RefusedLogin<'a> {
    ghost use Rattle.std.specs.Prelude.{Some};
    ghost use Rattle.server.specs.RefusedLogins.{refused_login_text};

    ghost output = { λ login. Some (refused_login_text login) };

    fn fmt<W: fmt::Write>(&self, f: &mut fmt::Formatter<W>) -> fmt::Result {
        let number = self.session.number;
        let words = self.session.cause.words();
        let peer = self.peer;
        let name = self.name;
        match (self.session.nexus, self.no_room) {
            (None, None) => write!(
                f,
                "vtl: session {number} before its LOGIN: {name} from {peer}: {words}"
            ),
            (None, Some(no_room)) => write!(
                f,
                "vtl: session {number} before its LOGIN: {name} from {peer}: {no_room}: {words}"
            ),
            (Some(nexus), None) => write!(
                f,
                "vtl: session {number} of {nexus}: {name} from {peer}: {words}"
            ),
            (Some(nexus), Some(no_room)) => write!(
                f,
                "vtl: session {number} of {nexus}: {name} from {peer}: {no_room}: {words}"
            ),
        }
    }
}
