//! What a logical unit makes of a command: the command that its bytes decode to, what the unit keeps beside its device and
//! its records, the replies and the data of the commands that every unit has, and the stages in which a command is
//! judged, of which the first that applies answers.
#![tactic(auto)]

mod absence;
mod command;
mod conditions;
mod decision;
pub mod laws;
mod layout;
mod preventers;
mod received;
mod reply;
mod stages;
mod standing;
mod unit_data;
mod unit_state;

pub use absence::absent;
pub use command::{Command, act_of, passes_over};
pub use conditions::{condition_of_attention, condition_of_fault, condition_of_refusal};
pub use decision::Decision;
pub use received::ReceivedCommand;
pub use reply::Reply;
pub use stages::judge;
pub use standing::{Standing, stands_before};
pub use unit_data::{inquiry, report_luns, sense_data};
pub use unit_state::UnitState;
