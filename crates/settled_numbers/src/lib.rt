//! The record numbers of one unit that were settled and whose records were handed out, as ranges beside a part of the unit's ledger.
#![tactic(auto)]

mod gap;
mod laws;
mod number_range;
mod placing;
mod settled_numbers;

pub use laws::number_rows;
pub use number_range::NumberRange;
pub use settled_numbers::{SettleFault, SettledNumbers};
