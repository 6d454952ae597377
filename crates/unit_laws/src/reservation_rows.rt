ghost use Rattle.unit_laws.specs.ReservationRows.{WorkedRows, ToldRows, RefusalRows};

/// Worked cases, which the definitions of states, verdicts and outcomes meet.
pub fn worked_rows()
    ensures states { WorkedRows }
    ensures told { ToldRows }
    ensures refused { RefusalRows }
{}
