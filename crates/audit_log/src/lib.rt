//! The records of what was asked of a unit: how each command was judged and answered, in the order
//! of their numbers, and the lines that they are written as.
#![tactic(auto)]

mod act;
mod laws;
mod lines;
mod record;
mod stage;
mod trail;

pub use act::{Act, Asked};
pub use laws::{line_rows, numbers_count_up, reservation_rows, trail_rows};
pub use lines::{add_line, line, status_text, write_reservation};
pub use record::Record;
pub use stage::Stage;
pub use trail::Trail;
