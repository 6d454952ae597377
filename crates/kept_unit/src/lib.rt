//! A logical unit beside the book of its record numbers: what lies under one lock, each call at it, counted, and whether
//! all that was answered agrees with the unit's trail.
#![tactic(auto)]

mod agree;
mod carrying;
mod fitting;
mod handing_over;
mod kept;
mod laws;
mod ledgers;
mod ranges;
mod seat_notes;

pub use carrying::{move_kept_one, move_kept_two};
pub use kept::Kept;
pub use laws::{agreement_rows, range_rows};
pub use ledgers::{At, Ledgers, UnitLedger};
pub use ranges::{add_ranges, listed_ranges, make_room};
pub use seat_notes::SeatNotes;
pub use settled_numbers::{NumberRange, SettleFault};
