//! Laws of whole runs of a target, the mission's among them, and worked runs.
#![tactic(auto)]

mod laws;
mod library_laws;

pub use laws::{
    accepted_history, headline, runs_one_after_another, when_busy, worked_carrying,
    worked_exchange, worked_headline, worked_run, worked_units,
};
pub use library_laws::{cartridges_stay, never_fails, volumes_stay, worked_moves};
