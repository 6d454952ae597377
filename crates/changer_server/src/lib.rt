//! A medium changer, and the commands that it carries out on its elements.
#![tactic(auto)]

mod changer;
mod faults;
mod host_answers;
mod host_changer;
mod mode;

pub use changer::Changer;
