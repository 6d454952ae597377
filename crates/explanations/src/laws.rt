//! Worked rows that the definitions compute to.

ghost use Rattle.explanations.specs.DataRows.{DriveLines, ElementLines, UnitLines};
ghost use Rattle.explanations.specs.HostRows.{HostLines};
ghost use Rattle.explanations.specs.Rows.{ReservationLines, SenseLines, StatusLines};

/// The lines of statuses, of sense data and of data.
pub fn worked_rows()
    ensures statuses { StatusLines }
    ensures senses { SenseLines }
    ensures reservations { ReservationLines }
    ensures units { UnitLines }
    ensures drives { DriveLines }
    ensures elements { ElementLines }
    ensures hosts { HostLines }
{}
