//! Copies summaries of the units of a library that is served, each while the unit's lock is held. Nothing of a unit changes, and no record is
//! made. No input or output here; it waits for locks, and for nothing else.
#![tactic(auto)]

mod copying;
mod elements;
mod reading;

pub use reading::read_library;
