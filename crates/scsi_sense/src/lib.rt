//! Sense data in fixed format, the conditions that it reports, and the statuses of commands.
#![tactic(auto)]

mod carried_out;
mod condition;
mod fault;
mod laws;
mod layout;
mod sense;
mod sense_key;
mod status;

pub use carried_out::is_carried_out;
pub use condition::Condition;
pub use fault::SenseFault;
pub use laws::{
    condition_reads_back, key_is_unique, sense_reads_back, worked_ends, worked_keys, worked_rows,
    worked_words,
};
pub use layout::SENSE_LENGTH;
pub use sense::Sense;
pub use sense_key::SenseKey;
pub use status::Status;
