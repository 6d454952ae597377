use crate::text_fault::TextFault;
use std::alloc::AllocError;
use std::fmt;
use std::io::ErrorKind;
use thiserror::Error;

/// Why a file of configuration gives no options.
#[derive(Debug, Drop, Error)]
pub enum ConfigurationFault {
    NoMemory,
    /// The file at this path can't be read.
    CannotRead(String),
    /// It has more bytes than a configuration may have.
    TooLong(String),
    /// Its text is none of a configuration.
    Text(String, TextFault),
}

impl ConfigurationFault {
    ghost use Rattle.std.specs.Prelude.{◌≡◌};
    ghost use Rattle.configuration_file.specs.Faults.{configuration_status, fault_of_text};

    /// Why the file at a path wasn't read.
    pub(crate) fn of_reading(path: String, kind: ErrorKind) -> ConfigurationFault {
        match kind {
            ErrorKind::OutOfMemory => ConfigurationFault::NoMemory,
            _ => ConfigurationFault::CannotRead(path),
        }
    }

    /// Why the text of the file at a path gives no options.
    pub(crate) fn of_text(path: String, fault: TextFault) -> ConfigurationFault
        ensures { result ≡ fault_of_text path fault }
    {
        if matches!(&fault, TextFault::NoMemory) {
            ConfigurationFault::NoMemory
        } else {
            ConfigurationFault::Text(path, fault)
        }
    }

    /// The exit status of a program that ends by it: 2 where the file is to be corrected, 3 for want of memory, 4 where it can't be read
    /// (profile).
    pub fn status(&self) -> u8
        ensures { result ≡ configuration_status self.now }
    {
        match self {
            ConfigurationFault::NoMemory => 3,
            ConfigurationFault::CannotRead(_) => 4,
            ConfigurationFault::TooLong(_) | ConfigurationFault::Text(_, _) => 2,
        }
    }
}

impl From<AllocError> for ConfigurationFault {
    fn from(_error: AllocError) -> ConfigurationFault {
        ConfigurationFault::NoMemory
    }
}

impl fmt::Display for ConfigurationFault {
    fn fmt<W: fmt::Write>(&self, f: &mut fmt::Formatter<W>) -> fmt::Result {
        match self {
            ConfigurationFault::NoMemory => f.write_str("vtl: want of memory"),
            ConfigurationFault::CannotRead(path) => {
                write!(f, "vtl: device fault\nvtl: cannot read {path}")
            }
            ConfigurationFault::TooLong(path) => {
                write!(f, "vtl: {path}: a configuration has at most 1 MiB")
            }
            ConfigurationFault::Text(path, fault) => write!(f, "vtl: {path}, {fault}"),
        }
    }
}
