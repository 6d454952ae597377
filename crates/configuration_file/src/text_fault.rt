use crate::key_fault::KeyFault;
use std::alloc::AllocError;
use std::fmt;
use thiserror::Error;
use toml::de;
use toml_lines::line_of;

/// Why a text isn't one of a configuration. Lines are counted from 1.
#[derive(Debug, Drop, Error)]
pub enum TextFault {
    NoMemory,
    /// It isn't TOML.
    Syntax { line: usize, fault: de::Error },
    /// What it has at a key is wrong, or there is no such option.
    Key { line: usize, fault: KeyFault },
}

impl TextFault {
    ghost use Rattle.std.specs.Prelude.{◌≡◌, ◌↔◌};
    ghost use Rattle.toml.specs.Errors.{IsMemory, IsWithin};
    ghost use Rattle.configuration_file.specs.Faults.{fault_on_line};
    ghost use Rattle.configuration_file.specs.declared.text_fault.TextFault.TheVariants.{NoMemory};

    /// Why a text isn't TOML.
    pub(crate) fn of_syntax(text: &[u8], fault: de::Error) -> TextFault
        requires { IsWithin text.now fault }
        ensures { (result ≡ NoMemory) ↔ IsMemory fault }
    {
        match fault.span() {
            None => TextFault::NoMemory,
            Some(span) => TextFault::Syntax {
                line: line_of(text, span.start),
                fault,
            },
        }
    }

    /// What is wrong with a key that a text has on a line.
    pub(crate) fn of_key(line: usize, fault: KeyFault) -> TextFault
        ensures { result ≡ fault_on_line line fault }
    {
        if matches!(&fault, KeyFault::NoMemory) {
            TextFault::NoMemory
        } else {
            TextFault::Key { line, fault }
        }
    }
}

impl From<AllocError> for TextFault {
    fn from(_error: AllocError) -> TextFault {
        TextFault::NoMemory
    }
}

impl fmt::Display for TextFault {
    fn fmt<W: fmt::Write>(&self, f: &mut fmt::Formatter<W>) -> fmt::Result {
        match self {
            TextFault::NoMemory => f.write_str("want of memory"),
            TextFault::Syntax { line, fault } => {
                let words = fault.message();
                write!(f, "line {line}: {words}")
            }
            TextFault::Key { line, fault } => write!(f, "line {line}: {fault}"),
        }
    }
}
