//! What a unit of a library says of itself: its serial number, standard INQUIRY data, vital product data, and the device identifier of a
//! drive.
#![tactic(auto)]

mod designators;
mod inquiry;
mod inquiry_context;
mod laws;
mod layout;
mod library_number;
mod page;
mod standard;
#[cfg(test)]
mod tests;
mod unit_identity;
mod vital_product_data;

pub use designators::device_identifier;
pub use inquiry::inquiry_data;
pub use inquiry_context::InquiryContext;
pub use laws::{
    digits_read_back, listed_pages, serial_numbers_are_unique, worked_device_identifier,
    worked_identities, worked_inquiries, worked_pages_of_changers, worked_pages_of_drives,
    worked_standard_inquiry,
};
pub use layout::{
    DEVICE_IDENTIFIER_LENGTH, LIBRARY_NUMBER_LENGTH, SERIAL_NUMBER_LENGTH, STANDARD_INQUIRY_LENGTH,
};
pub use library_number::LibraryNumber;
pub use page::VitalProductPage;
pub use standard::standard_inquiry;
pub use unit_identity::UnitIdentity;
pub use vital_product_data::vital_product_page;
