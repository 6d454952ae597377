//! What keeps copies of the tapes of a library that is served, if anything does, and what is told of it.
#![tactic(auto)]

mod event;
mod keeper;
mod source;

pub use event::{KeepChange, KeepEvent, KeepFault, SavedThing};
pub use keeper::{CarriedOutCommand, KeepListener, KeepPlace, NoKeeper, TapeKeeper};
pub use source::TapeSource;
