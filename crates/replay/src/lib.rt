//! A replay: a script is read, run by a target, and written as its replies and records.
#![tactic(auto)]

mod laws;
mod replaying;

pub use laws::{lines_alone, worked_rows};
pub use replaying::replay;
pub use script_input::ReplayFault;
