//! What PERSISTENT RESERVE OUT asks by its parameter list, and the data that PERSISTENT RESERVE IN
//! answers.
#![tactic(auto)]

mod bits;
mod full_status;
mod layout;
mod list_fault;
mod parameter_list;
mod register_list;
mod rows;
mod status_data;

pub use full_status::write_full_status;
pub use list_fault::ListLengthFault;
pub use parameter_list::read_out;
pub use permit_tables::{KeptParams, ListDefect, OutParams, TARGETS};
pub use rows::{parameter_list_rows, status_data_rows};
pub use status_data::{key_of, write_capabilities, write_keys, write_reservation};
