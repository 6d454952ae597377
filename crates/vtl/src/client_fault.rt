use client_session::ClientSessionFault;
use script_input::InputFault;
use std::fmt;
use thiserror::Error;

/// Why a host's script wasn't sent to its end.
#[derive(Debug, Drop, Error)]
pub enum ClientFault {
    /// The script couldn't be read.
    Input(#[from] InputFault),
    /// Nobody listens at this path, or nobody that takes a connection.
    CannotConnect(String),
    Session(#[from] ClientSessionFault),
}

impl ClientFault {
    ghost use Rattle.std.specs.Prelude.{◌≡◌};
    ghost use Rattle.vtl.specs.Faults.{client_status};

    /// The exit status of a program that ends by it: 2 where the script is refused, 3 for want of memory, else 4 (profile).
    pub fn status(&self) -> u8
        ensures { result ≡ client_status self.now }
    {
        match self {
            ClientFault::Input(fault) => fault.status(),
            ClientFault::CannotConnect(_) => 4,
            ClientFault::Session(fault) => fault.status(),
        }
    }
}

impl fmt::Display for ClientFault {
    ghost use Rattle.std.specs.Prelude.{Some};
    ghost use Rattle.vtl.specs.Faults.{client_text};

    ghost output = { λ fault. Some (client_text fault) };

    fn fmt<W: fmt::Write>(&self, f: &mut fmt::Formatter<W>) -> fmt::Result {
        match self {
            ClientFault::Input(fault) => write!(f, "{fault}"),
            ClientFault::CannotConnect(path) => {
                write!(f, "vtl: device fault\nvtl: cannot connect to {path}")
            }
            ClientFault::Session(fault) => write!(f, "{fault}"),
        }
    }
}
