ghost use Rattle.std.specs.Prelude.{◌≡◌};
ghost use Rattle.server.specs.Events.{end_words, is_detail};

use crate::faulty_session::FaultySession;
use output_lines::UnwrittenRecords;
use scsi_nexus::Nexus;
use session::End;
use std::fmt;
use std::net::IpAddr;

/// A session that has ended.
#[derive(Clone, Copy)]
pub struct EndedSession {
    /// Its place in the order of accepting, from 1 on.
    pub number: u64,
    /// Whose it was. `None` where it ended before its LOGIN.
    pub nexus: Option<Nexus>,
    /// How it ended. `None`: by a fault.
    pub end: Option<End>,
    /// How many commands it sent.
    pub commands: u64,
    pub seconds: u64,
}

/// What happens while a library is served, and is reported at once.
#[derive(Clone, Copy)]
pub enum Event {
    /// A connection was accepted, as the session of this number.
    Begins(u64),
    Ends(EndedSession),
    Fails(FaultySession),
    /// A connection of this address is closed, since as many of it as may be there haven't logged in.
    Crowded(IpAddr),
    /// A session was let in and joined others of its nexus, which has so many now.
    Joins {
        number: u64,
        nexus: Nexus,
        count: u64,
        address: IpAddr,
    },
    /// A session was let in in the place of another one, which has ended.
    TakesPlace {
        number: u64,
        nexus: Nexus,
        ended: u64,
    },
    /// Commands of a session are passed over, since the one with this number, which is before theirs, hasn't come.
    Awaits {
        number: u64,
        nexus: Nexus,
        command: u32,
    },
    /// A connection couldn't be accepted.
    NotAccepted,
    /// A command of a nexus was BUSY at a logical unit for want of memory, or of a record number once the last is used.
    Busy(Nexus, u8),
    /// A command of a nexus was BUSY at a logical unit since it finds no slot there.
    NoSlot(Nexus, u8),
    /// Lines of records can't be written from now on.
    Kept,
    /// They can again.
    CaughtUp,
    /// Lines that never were written.
    Unwritten(UnwrittenRecords),
    /// Who asked for the status of the library didn't get all of it.
    StatusUnsent,
    /// Who came for metrics asked for nothing that there is, or didn't take it in time.
    MetricsUnsent,
}

impl Event {
    /// Whether it is reported only where more than faults is asked for.
    pub fn is_detail(&self) -> bool
        ensures { result ≡ is_detail self.now }
    {
        match self {
            Event::Begins(_)
            | Event::Ends(_)
            | Event::TakesPlace { .. }
            | Event::Awaits { .. }
            | Event::Busy(_, _)
            | Event::NoSlot(_, _) => true,
            Event::Fails(_)
            | Event::Crowded(_)
            | Event::Joins { .. }
            | Event::NotAccepted
            | Event::Kept
            | Event::CaughtUp
            | Event::Unwritten(_)
            | Event::StatusUnsent
            | Event::MetricsUnsent => false,
        }
    }
}

impl fmt::Display for Event {
    ghost use Rattle.std.specs.Prelude.{Some};
    ghost use Rattle.server.specs.Events.{event_text};

    ghost output = { λ event. Some (event_text event) };

    fn fmt<W: fmt::Write>(&self, f: &mut fmt::Formatter<W>) -> fmt::Result {
        match self {
            Event::Begins(number) => write!(f, "vtl: session {number} begins"),
            Event::Ends(session) => write!(f, "vtl: session {session}"),
            Event::Fails(session) => write!(f, "vtl: session {session}"),
            Event::Crowded(address) => write!(
                f,
                "vtl: a connection from {address} is closed: 4 of its address have not logged in"
            ),
            Event::Joins {
                number,
                nexus,
                count,
                address,
            } => write!(
                f,
                "vtl: session {number} of {nexus}: its name has {count} sessions now, this one from {address}"
            ),
            Event::TakesPlace {
                number,
                nexus,
                ended,
            } => write!(
                f,
                "vtl: session {number} of {nexus}: takes the place of session {ended}"
            ),
            Event::Awaits {
                number,
                nexus,
                command,
            } => write!(
                f,
                "vtl: session {number} of {nexus}: command number {command} did not come, and those after it are ignored"
            ),
            Event::NotAccepted => { f.write_str("vtl: a connection could not be accepted") }
            Event::Busy(nexus, lun) => write!(
                f,
                "vtl: BUSY for {nexus} at logical unit {lun}: want of memory or of a record number"
            ),
            Event::NoSlot(nexus, lun) => write!(
                f,
                "vtl: BUSY for {nexus} at logical unit {lun}: all slots are taken there"
            ),
            Event::Kept => {
                f.write_str("vtl: lines of records could not be written, and are kept")
            }
            Event::CaughtUp => {
                f.write_str("vtl: the lines of records that were kept are written")
            }
            Event::Unwritten(records) => write!(f, "vtl: {records}"),
            Event::StatusUnsent => {
                f.write_str("vtl: the status could not be sent, or was not taken in time")
            }
            Event::MetricsUnsent => f.write_str(
                "vtl: a connection for metrics asked for none, or did not take them in time",
            ),
        }
    }
}

impl fmt::Display for EndedSession {
    ghost use Rattle.std.specs.Prelude.{Some};
    ghost use Rattle.server.specs.Events.{ended_session_text};

    ghost output = { λ session. Some (ended_session_text session) };

    fn fmt<W: fmt::Write>(&self, f: &mut fmt::Formatter<W>) -> fmt::Result {
        let number = self.number;
        let end = end_words(self.end);
        let commands = self.commands;
        let seconds = self.seconds;
        match self.nexus {
            None => write!(
                f,
                "{number} before its LOGIN: {end} after {commands} commands and {seconds} seconds"
            ),
            Some(nexus) => write!(
                f,
                "{number} of {nexus}: {end} after {commands} commands and {seconds} seconds"
            ),
        }
    }
}

fn end_words(end: Option<End>) -> &'static str
    ensures { result.now ≡ end_words end }
{
    match end {
        Some(End::Logout) => "ended by its LOGOUT",
        Some(End::Closed) => "ended by the end of input",
        Some(End::Cut) => "ended within a frame",
        None => "ended by a fault",
    }
}
