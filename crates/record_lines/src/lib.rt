//! The lines of records that were taken out of their units: each as an object of JSON or as text, with the time, the unit, the host's
//! name and the reservation before it.
#![tactic(auto)]

mod counts;
mod field;
mod host_name;
mod kind;
mod laws;
mod line;
mod lines;
mod names;
mod standing;
mod times;
mod words;

pub use counts::{RecordCount, RecordCounts};
pub use host_name::HostName;
pub use kind::RecordKind;
pub use laws::{counts_add_up, follows_trails, worked_rows};
pub use line::{TakenRecord, write_line};
pub use lines::{LineContext, records_text};
pub use names::name_of;
pub use standing::follow;
pub use times::time_text;
