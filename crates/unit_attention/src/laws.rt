//! Worked rows that the definitions compute to. Each function has an empty body: its clauses are the rows.

ghost use Rattle.unit_attention.specs.Rows.{PendingRows, SlotRows};

/// What waits for one nexus, and for two, as conditions are raised and reported.
pub fn attention_rows()
    ensures pending { PendingRows }
    ensures slots { SlotRows }
{}
