//! Worked rows that the definitions compute to.

ghost use Rattle.library_status.specs.Rows.{StatusRows};

/// What is told of a volume, an element, a reservation, a registration, a session and a server, in JSON and in the picture.
pub fn worked_rows()
    ensures rows { StatusRows }
{}
