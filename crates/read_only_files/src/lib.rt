//! The files of a system, of which none is changed.
#![tactic(auto)]

mod files;

pub use files::ReadOnlyFiles;
