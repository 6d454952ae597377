//! Lines of records that were written as JSON, in words: a line for each. Others are refused, each by its number.
#![tactic(auto)]

mod explain_fault;
mod explaining;
mod input_lines;
mod line_fault;
mod members;
mod read_record;
mod words;

pub use explain_fault::ExplainFault;
pub use explaining::explain_lines;
pub use line_fault::LineFault;
