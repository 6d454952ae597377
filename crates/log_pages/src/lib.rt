//! Log pages of drives and changers: the data of LOG SENSE, what a LOG SELECT resets, and the counters of a drive.
#![tactic(auto)]

mod change;
mod counters;
mod drive_log;
mod laws;
mod layout;
mod log_select;
mod log_sense;
mod page;
mod parameter;
mod parameter_lists;
#[cfg(test)]
mod tests;
mod writing;

pub use change::LogChange;
pub use counters::LogCounters;
pub use drive_log::{DriveLog, VolumeLog};
pub use laws::{
    fields_alone_are_refused, rows_of_counters, rows_of_error_counters, rows_of_log_select,
    rows_of_refusals, rows_of_sequential_access, rows_of_supported_pages, rows_of_tape_alert,
    rows_of_tape_capacity,
};
pub use layout::LONGEST_LOG_DATA;
pub use log_select::{LogSelect, selected};
pub use log_sense::{
    LogSense, changer_log_data, changer_log_fault, drive_log_data, drive_log_fault,
};
