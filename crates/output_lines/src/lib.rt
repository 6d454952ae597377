//! The text that a replay or a server writes: replies and records, a line each; and what is left of it where a writer takes no more, to be
//! written later or told.
#![tactic(auto)]

mod audit_lines;
mod audit_output;
mod explained;
mod laws;
mod left_lines;
mod left_records;
mod record_output;
mod reply_line;
mod unwritten_records;
mod writing;

pub use audit_lines::{Audit, audit_text, records_text};
pub use audit_output::{AuditFault, write_audit};
pub use explained::{Explanations, write_explained};
pub use laws::worked_rows;
pub use left_lines::Lines;
pub use left_records::{LeftRecords, LinesFault};
pub use record_output::RecordOutput;
pub use reply_line::{write_answer, write_reply};
pub use unwritten_records::{UnwrittenListener, UnwrittenRecords, records_behind};
pub use writing::write_out;
