//! All units of the target, and runs of events over them. No input or output here, no lock and no clock.
#![tactic(auto)]

mod event;
mod order;
mod target;

pub use event::{Event, MAX_CDB};
pub use order::CoreFault;
pub use target::TargetCore;
