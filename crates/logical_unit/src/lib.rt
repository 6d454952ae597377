//! One logical unit: how a command is judged, carried out, answered and recorded; and a call at one with its answer.
#![tactic(auto)]

mod act_kind;
mod audit;
mod carrying_out;
mod done;
mod entry;
mod exchanges;
mod medium_fault;
mod move_finding;
mod move_judgement;
mod moves;
mod numbers;
mod receipt;
mod route;
mod state;
mod unit;

pub use act_kind::{ActKind, act_kind_of};
pub use carrying_out::{carry_out_move_one, carry_out_move_two};
pub use done::{Done, EventKind};
pub use entry::Entry;
pub use judgement::{Reply, absent};
pub use medium_fault::MediumFault;
pub use moves::{move_one, move_two};
pub use numbers::Numbers;
pub use receipt::Receipt;
pub use route::{Errand, ExchangeRoute, Route, named};
pub use unit::{Busy, LogicalUnit};
