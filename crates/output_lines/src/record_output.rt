ghost use Rattle.std.specs.Prelude.{◌≡◌};

use crate::audit_lines::Audit;

/// What is written of the records of a library that is served.
#[derive(Clone, Copy)]
pub enum RecordOutput {
    /// What is wanted of them at the end.
    AtTheEnd(Audit),
    /// A line for each record so far, LUN 0 first, behind each session and whenever a unit has 4,096 of them, by a thread of its
    /// own. The units then no longer keep them. At the end a line for each that is left.
    AsTheyCome,
}

impl RecordOutput {
    ghost use Rattle.output_lines.specs.RecordOutputs.{of_the_rest, records_of};

    /// When records are written: as they come where they are drained.
    pub fn new(drain: bool, audit: Audit) -> RecordOutput
        ensures { result ≡ records_of drain audit }
    {
        if drain {
            RecordOutput::AsTheyCome
        } else {
            RecordOutput::AtTheEnd(audit)
        }
    }

    /// What is wanted of the records that are left at the end.
    pub fn of_the_rest(self) -> Audit
        ensures { result ≡ of_the_rest self }
    {
        match self {
            RecordOutput::AtTheEnd(audit) => audit,
            RecordOutput::AsTheyCome => Audit::Lines,
        }
    }
}
