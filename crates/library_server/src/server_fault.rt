ghost use Rattle.std.specs.Prelude.{◌≡◌};
ghost use Rattle.library_server.specs.ServerFaults.{close_words, closing_fault, earlier, is_before, own_fault, rank, told_of};

use library_service::ClosingFault;
use lun_router::CloseFault;
use server::{FaultySession, InOrder, ServeTerm, first_by};
use std::alloc::{AllocError, AllocFailed};
use std::fmt;
use thiserror::Error;

/// Why a server has a fault. Of several that happened the first of this list is told, and of sessions the one
/// that was accepted first.
#[derive(Clone, Copy, Debug, Error)]
pub enum ServerFault {
    Session(FaultySession),
    /// The library couldn't be closed, so that there are no lines of its records.
    Close(CloseFault),
    /// The lines of the records couldn't be written, or not all of them.
    Write,
    /// Not all of the volumes are kept, or not where they lie.
    Media,
    NoMemory,
}

impl ServerFault {
    ghost use Rattle.library_server.specs.ServerFaults.{exit_status};

    /// The exit status of a program that ends by it: 3 for want of memory, else 4 (profile).
    pub fn status(&self) -> u8
        ensures { result ≡ exit_status self.now }
    {
        match self {
            ServerFault::NoMemory => 3,
            ServerFault::Session(_)
            | ServerFault::Close(_)
            | ServerFault::Write
            | ServerFault::Media => 4,
        }
    }

    /// Its place in the list.
    fn rank(&self) -> u8
        ensures { result ≡ rank self.now }
    {
        match self {
            ServerFault::Session(_) => 1,
            ServerFault::Close(_) => 2,
            ServerFault::Write => 3,
            ServerFault::Media => 4,
            ServerFault::NoMemory => 5,
        }
    }
}

impl InOrder for ServerFault {
    ghost comes_before = { is_before };

    fn is_before(&self, other: &ServerFault) -> bool {
        match (self, other) {
            (ServerFault::Session(this), ServerFault::Session(that)) => this.is_before(that),
            _ => self.rank() < other.rank(),
        }
    }
}

/// The one of two faults that is told, where either has happened.
pub fn earlier(first: Option<ServerFault>, second: Option<ServerFault>) -> Option<ServerFault>
    ensures { result ≡ earlier first second }
{
    first_by(first, second)
}

/// What of a session's fault is the server's.
pub(crate) fn own_fault(term: ServeTerm, session: Option<FaultySession>) -> Option<ServerFault>
    ensures { result ≡ own_fault term session }
{
    match (term, session) {
        (ServeTerm::Sessions(_), Some(session)) => Some(ServerFault::Session(session)),
        (_, None) | (ServeTerm::UntilClosed, Some(_)) => None,
    }
}

/// The server's fault, where closing its library had one.
pub(crate) fn closing_fault(closed: Result<(), ClosingFault>) -> Option<ServerFault>
    ensures { result ≡ closing_fault closed }
{
    match closed {
        Ok(()) => None,
        Err(fault) => Some(ServerFault::from(fault)),
    }
}

/// How it went, where a fault may have happened.
pub(crate) fn told_of(fault: Option<ServerFault>) -> Result<(), ServerFault>
    ensures { result ≡ told_of fault }
{
    match fault {
        None => Ok(()),
        Some(fault) => Err(fault),
    }
}

impl fmt::Display for ServerFault {
    ghost use Rattle.std.specs.Prelude.{Some};
    ghost use Rattle.library_server.specs.ServerFaults.{fault_text};

    ghost output = { λ fault. Some (fault_text fault) };

    fn fmt<W: fmt::Write>(&self, f: &mut fmt::Formatter<W>) -> fmt::Result {
        match self {
            ServerFault::Session(session) => {
                write!(f, "vtl: device fault\nvtl: session {session}")
            }
            ServerFault::Close(fault) => {
                f.write_str("vtl: device fault\nvtl: the library could not be closed: ")?;
                f.write_str(close_words(*fault))
            }
            ServerFault::Write => {
                f.write_str("vtl: device fault\nvtl: the lines of the records could not be written")
            }
            ServerFault::Media => {
                f.write_str("vtl: device fault\nvtl: not all of the media could be written")
            }
            ServerFault::NoMemory => f.write_str("vtl: want of memory"),
        }
    }
}

fn close_words(fault: CloseFault) -> &'static str
    ensures { result.now ≡ close_words fault }
{
    match fault {
        CloseFault::Mismatch => "what the sessions were told is not what the records say",
        CloseFault::SeatMissing => "a seat is missing",
        CloseFault::NoMemory => "want of memory",
    }
}

impl From<ClosingFault> for ServerFault {
    ghost use Rattle.library_server.specs.ServerFaults.{fault_of_closing};

    ghost from_gives = { λ closing fault. fault ≡ fault_of_closing closing };

    fn from(fault: ClosingFault) -> ServerFault {
        match fault {
            ClosingFault::Close(fault) => ServerFault::Close(fault),
            ClosingFault::Write => ServerFault::Write,
            ClosingFault::NoMemory => ServerFault::NoMemory,
        }
    }
}

impl From<AllocError> for ServerFault {
    ghost use Rattle.library_server.specs.declared.server_fault.ServerFault.TheVariants.{NoMemory};

    ghost from_gives = { λ _ fault. fault ≡ NoMemory };

    fn from(_error: AllocError) -> ServerFault {
        ServerFault::NoMemory
    }
}

impl<T: Drop> From<AllocFailed<T>> for ServerFault {
    ghost use Rattle.library_server.specs.declared.server_fault.ServerFault.TheVariants.{NoMemory};

    ghost from_gives = { λ _ fault. fault ≡ NoMemory };

    fn from(_error: AllocFailed<T>) -> ServerFault {
        ServerFault::NoMemory
    }
}
