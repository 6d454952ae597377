//! What the replies to commands wait for until what those left is kept, and how that goes.
#![tactic(auto)]

mod laws;
mod progress;
mod ticket;

pub use laws::{answered_once_settled, kept_stays_kept, progress_rows};
pub use progress::Progress;
pub use ticket::{Outcome, RecordTicket, ReplyTicket, Ticket};
