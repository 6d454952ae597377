//! The unit attention conditions that wait to be reported, a list for each nexus.
#![tactic(auto)]

mod kind;
mod laws;
mod others;
mod pending;
mod queues;

pub use kind::Kind;
pub use laws::attention_rows;
pub use queues::{NoSlot, Queues, SLOTS};
