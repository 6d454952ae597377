//! Worked rows that the definitions compute to.

ghost use Rattle.vtl.specs.Rows.{StatusesOfTheProgram, LinesOfTheProgram};

/// How the program ends.
pub fn worked_rows()
    ensures statuses { StatusesOfTheProgram }
    ensures lines { LinesOfTheProgram }
{}
