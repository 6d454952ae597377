use crate::option_fault::OptionFault;
use clap::error::ErrorKind;
use std::alloc::AllocError;
use std::fmt;
use thiserror::Error;

/// Why a command line names no task.
#[derive(Debug, Drop, Error)]
pub enum CommandLineFault {
    /// It isn't the program's, or it asks for help or the version.
    Refused(clap::Error),
    NotText,
    /// No class of commands has this name.
    NoClass(String),
    /// Options that are each within their range mean nothing.
    Options(#[from] OptionFault),
    /// The same of one word.
    Word(OptionFault, String),
    NoMemory,
}

impl fmt::Display for CommandLineFault {
    ghost use Rattle.program_options.specs.CommandLineFaults.{command_line_text};

    ghost output = { command_line_text };

    fn fmt<W: fmt::Write>(&self, f: &mut fmt::Formatter<W>) -> fmt::Result {
        match self {
            CommandLineFault::Refused(error) => write!(f, "{error}"),
            CommandLineFault::NotText => f.write_str("vtl: arguments that are not text"),
            CommandLineFault::NoClass(name) => {
                write!(f, "vtl: no class of commands is named {name}")
            }
            CommandLineFault::Options(fault) => write!(f, "{fault}"),
            CommandLineFault::Word(fault, word) => write!(f, "{fault}: {word}"),
            CommandLineFault::NoMemory => f.write_str("vtl: want of memory"),
        }
    }
}

impl CommandLineFault {
    ghost use Rattle.std.specs.Prelude.{◌≡◌};
    ghost use Rattle.program_options.specs.CommandLineFaults.{command_line_status};

    /// The exit status of a program that ends by it: 0 after help and the version, 3 where memory is refused, else 2 (profile).
    pub fn status(&self) -> u8
        ensures { result ≡ command_line_status self.now }
    {
        match self {
            CommandLineFault::Refused(error) => match error.kind() {
                ErrorKind::DisplayHelp | ErrorKind::DisplayVersion => 0,
                _ => 2,
            },
            CommandLineFault::NotText => 2,
            CommandLineFault::NoClass(_) => 2,
            CommandLineFault::Options(_) => 2,
            CommandLineFault::Word(_, _) => 2,
            CommandLineFault::NoMemory => 3,
        }
    }
}

impl From<AllocError> for CommandLineFault {
    fn from(_error: AllocError) -> CommandLineFault {
        CommandLineFault::NoMemory
    }
}

impl From<clap::Error> for CommandLineFault {
    fn from(error: clap::Error) -> CommandLineFault {
        match error.kind() {
            ErrorKind::OutOfMemory => CommandLineFault::NoMemory,
            _ => CommandLineFault::Refused(error),
        }
    }
}
