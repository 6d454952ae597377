use permit_tables::{Cell, KeyRule};

/// How a PERSISTENT RESERVE OUT command is judged. All but `Allowed` end in RESERVATION CONFLICT.
#[derive(Clone, Copy)]
pub enum Verdict {
    /// The table and the rules on keys let it through.
    Allowed,
    /// Its cell of the permission table is a conflict.
    Denied(Cell),
    /// Its cell is allowed, and this is the first rule on keys that it breaks.
    Rule(KeyRule),
}
