//! Mode parameters: the data of MODE SENSE of a drive and of a medium changer, and what a MODE SELECT of a drive says (SPC-4, "Mode
//! parameter list formats"; SSC-4 and SMC-3, "Mode parameters").
#![tactic(auto)]

mod asked;
mod changer_data;
mod changer_page;
mod drive_data;
mod drive_page;
mod elements;
mod head_page;
mod laws;
mod layout;
mod lists;
mod request;
mod select;
#[cfg(test)]
mod tests;
mod values;

pub use changer_data::{changer_mode_data, changer_mode_fault};
pub use changer_page::ChangerPage;
pub use drive_data::{drive_mode_data, drive_mode_fault};
pub use drive_page::DrivePage;
pub use elements::{ElementAddresses, ElementRange};
pub use laws::{
    changer_rows, drive_data_rows, drive_fault_rows, drive_page_rows, pages_are_whole,
    select_fault_rows, select_rows, selected_stays_within, shown_is_selected,
};
pub use request::{HeaderForm, ModeSense, PageControl};
pub use select::selected;
pub use values::{DriveState, ModeValues};
