//! What a reply says, in words for people: a line for each; and bytes in hexadecimal.
#![tactic(auto)]

mod codes;
mod commands;
mod contents;
mod drives;
mod elements;
mod explaining;
mod fields;
mod hex_text;
mod laws;
mod layout;
mod pieces;
mod reservations;
mod senses;
mod units;
mod words;

pub use explaining::explain;
pub use hex_text::{digits_of, write_hex};
pub use laws::worked_rows;
