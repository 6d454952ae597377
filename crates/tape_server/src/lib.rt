//! A tape drive with one bay, and the commands that it carries out on the volume in it.
#![tactic(auto)]

mod drive;
mod early_warning;
mod host_drive;
mod logs;
mod mode;
mod positioning;
mod reading;
mod sense;
mod writing;

pub use drive::TapeDrive;
