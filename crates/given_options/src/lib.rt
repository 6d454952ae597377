//! What a source says of how a library is served: the options that it gives. There are two sources, the command line and a file of
//! configuration. Which of them wins, which options exclude each other, and which mean nothing without another.
#![tactic(auto)]

mod key;
mod laws;
mod options;
mod portal_guard;
mod rule;
mod word_fault;
mod words;

pub use key::{SERVE_KEYS, ServeKey};
pub use laws::worked_rows;
pub use options::{
    GivenIscsi, GivenMedia, GivenMetrics, GivenOptions, GivenPlace, GivenRecordFile, GivenRecords,
    GivenTimes, MOST_SESSIONS, MOST_WAIT,
};
pub use portal_guard::open_portal;
pub use rule::OptionRule;
pub use word_fault::WordFault;
pub use words::{
    digests_by, format_by, hosts_by, library_number_by, memory_size_by, metrics_by, portals_by,
    profile_by, target_name_by, volume_size_by,
};
