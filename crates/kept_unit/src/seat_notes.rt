use logical_unit::Entry;
use settled_numbers::NumberRange;

/// What a seat has noted of one unit, in the order in which it was told: the last number that it handed over, 0 where none was,
/// then the numbers whose records were handed out, then an entry for each further call, at any unit.
#[derive(Clone, Copy)]
pub struct SeatNotes<'a> {
    pub handed_over: u64,
    pub settled: &'a [NumberRange],
    pub listed: &'a [Entry],
}
