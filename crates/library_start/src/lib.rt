//! The library at power on: its devices by its profile, its changer with elements, and the volumes that it begins with, new ones or those of
//! a folder.
#![tactic(auto)]

mod device;
mod power_on;
mod profiled;
mod start;
mod start_rows;
mod stock;
mod stock_rows;
mod unit;

pub use device::Device;
pub use power_on::{library, library_within};
pub use start::{LibraryFault, StartedVolume, library_of_volumes};
pub use start_rows::placing_rows;
pub use stock_rows::{default_devices, power_on_rows};
pub use unit::unit_at;
