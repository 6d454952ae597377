//! What a program is given to read, whole; and how it may fail: to be read, to be a script, and as a replay.
#![tactic(auto)]

mod input;
mod input_fault;
mod laws;
mod line_fault;
mod replay_fault;
mod script_fault;

pub use input::read_all;
pub use input_fault::InputFault;
pub use laws::worked_rows;
pub use line_fault::LineFault;
pub use replay_fault::ReplayFault;
pub use script_fault::ScriptFault;
