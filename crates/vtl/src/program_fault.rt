use crate::client_fault::ClientFault;
use crate::status_fault::StatusFault;
use command_line::CommandLineFault;
use configuration_file::ConfigurationFault;
use given_options::OptionRule;
use library_server::SocketFault;
use media_folder::CheckFault;
use record_words::ExplainFault;
use replay::ReplayFault;
use std::alloc::AllocError;
use std::fmt;
use thiserror::Error;

/// Why the program ended before its task was done.
#[derive(Debug, Drop, Error)]
pub enum ProgramFault {
    CommandLine(#[from] CommandLineFault),
    /// Options can't be given together, or one means nothing without another.
    Options(#[from] OptionRule),
    /// A file of configuration gives no options.
    Configuration(#[from] ConfigurationFault),
    Replay(#[from] ReplayFault),
    Serve(#[from] SocketFault),
    Client(#[from] ClientFault),
    Status(#[from] StatusFault),
    /// The permission table couldn't be written, or not all of it.
    Cells,
    /// A folder that was looked over isn't well.
    Check(#[from] CheckFault),
    /// Not all lines of records are said in words.
    Explain(#[from] ExplainFault),
}

impl ProgramFault {
    ghost use Rattle.std.specs.Prelude.{◌≡◌};
    ghost use Rattle.vtl.specs.Faults.{program_status};

    /// The exit status: 2 where arguments, a file of configuration, the script or a folder are refused, 3 for want of memory, 4 for a fault
    /// of input or output or of the other end of a session, and 0 after help and the version (profile).
    pub fn status(&self) -> u8
        ensures { result ≡ program_status self.now }
    {
        match self {
            ProgramFault::CommandLine(fault) => fault.status(),
            ProgramFault::Options(rule) => rule.status(),
            ProgramFault::Configuration(fault) => fault.status(),
            ProgramFault::Replay(fault) => fault.status(),
            ProgramFault::Serve(fault) => fault.status(),
            ProgramFault::Client(fault) => fault.status(),
            ProgramFault::Status(fault) => fault.status(),
            ProgramFault::Cells => 4,
            ProgramFault::Check(fault) => fault.status(),
            ProgramFault::Explain(fault) => fault.status(),
        }
    }
}

impl fmt::Display for ProgramFault {
    ghost use Rattle.vtl.specs.Faults.{program_text};

    ghost output = { program_text };

    fn fmt<W: fmt::Write>(&self, f: &mut fmt::Formatter<W>) -> fmt::Result {
        match self {
            ProgramFault::CommandLine(fault) => write!(f, "{fault}"),
            ProgramFault::Options(rule) => write!(f, "{rule}"),
            ProgramFault::Configuration(fault) => write!(f, "{fault}"),
            ProgramFault::Replay(fault) => write!(f, "{fault}"),
            ProgramFault::Serve(fault) => write!(f, "{fault}"),
            ProgramFault::Client(fault) => write!(f, "{fault}"),
            ProgramFault::Status(fault) => write!(f, "{fault}"),
            ProgramFault::Cells => {
                f.write_str("vtl: device fault\nvtl: the permission table could not be written")
            }
            ProgramFault::Check(fault) => write!(f, "{fault}"),
            ProgramFault::Explain(fault) => write!(f, "{fault}"),
        }
    }
}

impl From<AllocError> for ProgramFault {
    fn from(_error: AllocError) -> ProgramFault {
        ProgramFault::CommandLine(CommandLineFault::NoMemory)
    }
}
