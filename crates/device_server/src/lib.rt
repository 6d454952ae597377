//! What a logical unit asks of the device behind it, and what contracts see of a device.
#![tactic(auto)]

mod attendant;
mod device;
mod fault;
mod fields;
mod host_changer;
mod host_drive;
mod host_fields;
mod host_queries;
pub mod laws;
pub mod mode_layout;
mod outcome;
mod payload;

pub use attendant::Attendant;
pub use device::DeviceServer;
pub use fault::{BadPlace, PutFault, TakeFault};
pub use fields::field_fault;
pub use host_changer::HostChanger;
pub use host_drive::HostDrive;
pub use host_queries::{codes_answer, log_query, mode_query, told_of_log};
pub use outcome::Outcome;
pub use payload::Payload;
