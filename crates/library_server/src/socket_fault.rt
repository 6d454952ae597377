use crate::server_fault::ServerFault;
use iscsi_chap::LineFault;
use media_folder::FolderFault;
use program_options::ListenFault;
use record_file::FileFault;
use std::alloc::AllocError;
use std::fmt;
use std::io::ErrorKind;
use thiserror::Error;

/// Why a library wasn't served to its end.
#[derive(Debug, Drop, Error)]
pub enum SocketFault {
    /// Nobody can listen at the socket or at a portal.
    Listen(#[from] ListenFault),
    /// The file of secrets can't be read.
    CannotRead(String),
    /// Others than its owner may read or change the file of secrets.
    OpenSecrets(String),
    /// A line of the file of secrets, all lines counted from 1, is none.
    BadSecrets(String, usize, LineFault),
    /// The library's folder isn't one that can be served.
    Folder(#[from] FolderFault),
    /// Records can't be written into their file.
    Records(FileFault),
    Server(#[from] ServerFault),
    /// The lines of what would be served can't be written.
    Lines,
}

impl SocketFault {
    ghost use Rattle.std.specs.Prelude.{◌≡◌};
    ghost use Rattle.library_server.specs.Faults.{socket_status};

    /// Why the file of secrets wasn't read.
    pub fn of_reading(path: String, kind: ErrorKind) -> SocketFault {
        match kind {
            ErrorKind::OutOfMemory => SocketFault::Server(ServerFault::NoMemory),
            _ => SocketFault::CannotRead(path),
        }
    }

    /// The exit status of a program that ends by it: 2 where a file of secrets is refused, 3 for want of memory, else 4 (profile).
    pub fn status(&self) -> u8
        ensures { result ≡ socket_status self.now }
    {
        match self {
            SocketFault::Listen(fault) => fault.status(),
            SocketFault::CannotRead(_) | SocketFault::Records(_) | SocketFault::Lines => 4,
            SocketFault::OpenSecrets(_) | SocketFault::BadSecrets(_, _, _) => 2,
            SocketFault::Folder(fault) => fault.status(),
            SocketFault::Server(fault) => fault.status(),
        }
    }
}

impl fmt::Display for SocketFault {
    ghost use Rattle.library_server.specs.Faults.{socket_text};

    ghost output = { socket_text };

    fn fmt<W: fmt::Write>(&self, f: &mut fmt::Formatter<W>) -> fmt::Result {
        match self {
            SocketFault::Listen(fault) => write!(f, "{fault}"),
            SocketFault::CannotRead(path) => {
                write!(f, "vtl: device fault\nvtl: cannot read {path}")
            }
            SocketFault::OpenSecrets(path) => write!(
                f,
                "vtl: {path} must be readable by its owner only (chmod 600 {path})"
            ),
            SocketFault::BadSecrets(path, number, what) => {
                let words = LineWords(*what);
                write!(f, "vtl: {path}, line {number}: {words}")
            }
            SocketFault::Folder(fault) => write!(f, "{fault}"),
            SocketFault::Records(fault) => write!(f, "{fault}"),
            SocketFault::Server(fault) => write!(f, "{fault}"),
            SocketFault::Lines => f.write_str(
                "vtl: device fault\nvtl: the lines of what would be served could not be written",
            ),
        }
    }
}

/// What is to be said in place of a line of a file of secrets.
#[derive(Drop)]
struct LineWords(LineFault);

impl fmt::Display for LineWords {
    ghost use Rattle.std.specs.Prelude.{Some};
    ghost use Rattle.library_server.specs.Faults.{line_words};

    ghost output = { λ words. Some (line_words words.0) };

    fn fmt<W: fmt::Write>(&self, f: &mut fmt::Formatter<W>) -> fmt::Result {
        match self.0 {
            LineFault::FieldCount => f.write_str(
                "give NAME USER SECRET, or NAME USER SECRET TARGET-USER TARGET-SECRET",
            ),
            LineFault::Name => {
                f.write_str("NAME is not an iSCSI name: give one such as iqn.2026-11.example:a")
            }
            LineFault::SecretLength => f.write_str("a secret has 12 to 128 bytes"),
            LineFault::SameSecret => {
                f.write_str("the target has the host's secret: give it another")
            }
            LineFault::UserTwice => f.write_str("the host has a line with this user already"),
            LineFault::SecretOfHost { line } => write!(
                f,
                "the target has the secret of the host in line {line}: give it another"
            ),
            LineFault::SecretOfTarget { line } => write!(
                f,
                "the host has the secret of the target in line {line}: give it another"
            ),
        }
    }
}

impl From<FileFault> for SocketFault {
    fn from(fault: FileFault) -> SocketFault {
        SocketFault::Records(fault)
    }
}

impl From<AllocError> for SocketFault {
    fn from(error: AllocError) -> SocketFault {
        SocketFault::Server(ServerFault::from(error))
    }
}
