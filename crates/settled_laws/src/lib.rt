//! Laws of devices that are the same but for how many objects of each tape count as unchanged: they do the same.
#![tactic(auto)]

mod laws;

pub use laws::{attended_devices_answer_alike, settled_devices_perform_alike, worked_rows};
