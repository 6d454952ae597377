use std::fmt;
use std::io::ErrorKind;
use thiserror::Error;

/// Why the server can't listen at a place where a library is to be served.
#[derive(Debug, Drop, Error)]
pub enum ListenFault {
    /// A file is at the path of the socket already.
    IsThere(String),
    /// The socket can't be made at this path, or no program can listen at this address.
    CannotListen(String),
    /// Another program listens at this address already.
    IsTaken(String),
}

impl ListenFault {
    ghost use Rattle.std.specs.Prelude.{◌≡◌};
    ghost use Rattle.program_options.specs.ListenFaults.{listen_status};

    /// Why there is no listener at a path.
    pub fn of_listening(path: String, kind: ErrorKind) -> ListenFault {
        match kind {
            ErrorKind::AddrInUse => ListenFault::IsThere(path),
            _ => ListenFault::CannotListen(path),
        }
    }

    /// Why there is no listener at an address.
    pub fn of_portal(address: String, kind: ErrorKind) -> ListenFault {
        match kind {
            ErrorKind::AddrInUse => ListenFault::IsTaken(address),
            _ => ListenFault::CannotListen(address),
        }
    }

    /// The exit status of a program that ends by it (profile).
    pub fn status(&self) -> u8
        ensures { result ≡ listen_status self.now }
    {
        match self {
            ListenFault::IsThere(_) | ListenFault::CannotListen(_) | ListenFault::IsTaken(_) => 4,
        }
    }
}

impl fmt::Display for ListenFault {
    ghost use Rattle.std.specs.Prelude.{Some};
    ghost use Rattle.program_options.specs.ListenFaults.{listen_text};

    ghost output = { λ fault. Some (listen_text fault) };

    fn fmt<W: fmt::Write>(&self, f: &mut fmt::Formatter<W>) -> fmt::Result {
        match self {
            ListenFault::IsThere(path) => write!(
                f,
                "vtl: device fault\nvtl: cannot listen on {path}: it is there already"
            ),
            ListenFault::CannotListen(path) => {
                write!(f, "vtl: device fault\nvtl: cannot listen on {path}")
            }
            ListenFault::IsTaken(address) => write!(
                f,
                "vtl: device fault\nvtl: cannot listen on {address}: another program listens there already"
            ),
        }
    }
}
