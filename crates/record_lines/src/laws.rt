//! Worked rows that the definitions compute to, and laws.

ghost use Rattle.record_lines.specs.CountRows.{CountsOfRecords};
ghost use Rattle.record_lines.specs.Counts.{CountsAddUp};
ghost use Rattle.record_lines.specs.Rows.{LinesOfRecords};
ghost use Rattle.record_lines.specs.Standing.{FollowsTrails};

/// The lines of records, in JSON and in text, and how often records of a kind were counted.
pub fn worked_rows()
    ensures lines { LinesOfRecords }
    ensures counts { CountsOfRecords }
{}

/// Law: followed by the records of a legal trail, reservations are those that their unit keeps.
pub fn follows_trails()
    ensures { FollowsTrails }
{}

/// Law: a count says how many records of its kind were counted.
pub fn counts_add_up()
    ensures { CountsAddUp }
{}
