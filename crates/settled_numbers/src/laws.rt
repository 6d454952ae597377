ghost use Rattle.settled_numbers.specs.NumberRows.{NumberRows};

/// Worked rows: which numbers ranges have, how many, and where a range goes among others.
pub fn number_rows()
    ensures { NumberRows }
{}
