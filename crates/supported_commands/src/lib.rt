//! The commands and task management functions that a library with the hosts' profile supports, and the answers of REPORT SUPPORTED
//! OPERATION CODES and REPORT SUPPORTED TASK MANAGEMENT FUNCTIONS (SPC-4).
#![tactic(auto)]

mod answer;
mod command;
mod commands;
mod laws;
mod layout;
mod options;
mod request;
mod task_management;
#[cfg(test)]
mod tests;

pub use answer::{operation_codes_fault, supported_operation_codes};
pub use laws::{
    commands_are_well_formed, listed_codes, listed_service_actions, worked_rows,
    worked_rows_of_all_commands, worked_rows_of_service_actions,
    worked_rows_without_service_actions,
};
pub use options::ReportingOptions;
pub use request::ReportOperationCodes;
pub use task_management::supported_task_management;
