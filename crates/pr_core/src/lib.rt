//! Persistent reservations of one unit: who is registered, who holds, how a command is judged, and
//! what an accepted act changes and tells.
#![tactic(auto)]

mod act;
mod apply;
mod judging;
mod key_table;
mod outcome;
mod raising;
mod state;
mod targets;
mod verdict;

pub use act::ReservationAct;
pub use key_table::REGISTRATIONS;
pub use permit_tables::{KeyRule, PrFault};
pub use state::{PrState, type_in};
pub use targets::{TARGET_ROOM, list_targets};
pub use verdict::Verdict;
