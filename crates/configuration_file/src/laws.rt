//! Worked rows that the definitions compute to.

ghost use Rattle.configuration_file.specs.Rows.{FormsTold, StatusesOfFiles, ValuesRead};

/// What values say, what is reported of those that say nothing, and how the program ends.
pub fn worked_rows()
    ensures values { ValuesRead }
    ensures forms { FormsTold }
    ensures statuses { StatusesOfFiles }
{}
