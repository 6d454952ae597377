use crate::line_fault::LineFault;
use std::fmt;
use thiserror::Error;

/// Why a text gave no events.
#[derive(Clone, Copy, Debug, Error)]
pub enum ScriptFault {
    /// The first line with a fault, counted from 1.
    Line { number: u64, what: LineFault },
    NoMemory,
}

impl fmt::Display for ScriptFault {
    ghost use Rattle.std.specs.Prelude.{Some};
    ghost use Rattle.script_input.specs.Faults.{script_fault_text};

    ghost output = { λ fault. Some (script_fault_text fault) };

    fn fmt<W: fmt::Write>(&self, f: &mut fmt::Formatter<W>) -> fmt::Result {
        match self {
            ScriptFault::Line { number, what } => write!(f, "line {number}: {what}"),
            ScriptFault::NoMemory => f.write_str("want of memory"),
        }
    }
}
