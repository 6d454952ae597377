//! The sense data of a drive's own ends (SSC-4, "Sense data"). INFORMATION is what is left to do.

ghost use Rattle.std.specs.Prelude.{◌≡◌};
ghost use Rattle.device_server.specs.EarlyWarning.{early_warning};
ghost use Rattle.device_server.specs.Senses.{informed, at_mark, at_end_of_data, at_beginning, past_the_end, of_other_length};

use scsi_sense::{Condition, Sense};

fn informed(condition: Condition, left: u32) -> Sense
    ensures { result ≡ informed condition left }
{
    Sense {
        valid: true,
        information: left,
        ..Sense::of(condition)
    }
}

pub(crate) fn at_mark(left: u32) -> Sense
    ensures { result ≡ at_mark left }
{
    Sense {
        filemark: true,
        ..informed(Condition::FilemarkDetected, left)
    }
}

pub(crate) fn at_end_of_data(left: u32) -> Sense
    ensures { result ≡ at_end_of_data left }
{
    informed(Condition::EndOfDataDetected, left)
}

pub(crate) fn at_beginning(left: u32) -> Sense
    ensures { result ≡ at_beginning left }
{
    Sense {
        eom: true,
        ..informed(Condition::BeginningOfMediumDetected, left)
    }
}

pub(crate) fn past_the_end(left: u32) -> Sense
    ensures { result ≡ past_the_end left }
{
    Sense {
        eom: true,
        ..informed(Condition::EndOfMediumDetected, left)
    }
}

pub(crate) fn of_other_length(left: u32) -> Sense
    ensures { result ≡ of_other_length left }
{
    Sense {
        ili: true,
        ..informed(Condition::NoAdditionalSenseInformation, left)
    }
}

/// All was written, and the tape stands in its early-warning zone.
pub(crate) fn early_warning() -> Sense
    ensures { result ≡ early_warning }
{
    Sense {
        eom: true,
        ..informed(Condition::EarlyWarning, 0)
    }
}
