//! A file to which the lines of records are appended, as long as its path leads to it: what it is, and what is left to be written. A
//! file that was moved away, as by logrotate, is followed by a new one.
#![tactic(auto)]

mod appended_file;
mod file_fault;
mod places;
mod record_lines_left;

pub use appended_file::AppendedFile;
pub use file_fault::{FileFault, WhyNoFile};
pub use places::look_at;
pub use record_lines_left::RecordLinesLeft;
