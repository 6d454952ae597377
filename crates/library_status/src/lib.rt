//! What is to be reported of a library while it is served, as plain values: a summary of each unit, and its text.
#![tactic(auto)]

mod json;
mod laws;
mod picture;
mod rows;
mod sessions;
mod summary;
mod text;
mod word;
mod words;

pub use laws::worked_rows;
pub use summary::{
    ElementSummary, LibrarySummary, ServerSummary, SessionSummary, UnitContents, UnitSummary,
    VolumeSummary,
};
pub use text::status_text;
pub use words::without_spaces;
