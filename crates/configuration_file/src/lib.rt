//! A file of configuration, in TOML: which options of `vtl serve` it gives, or the first fault in it, with its line and key.
#![tactic(auto)]

mod fault;
mod form;
mod key_fault;
mod laws;
mod reading;
mod text_fault;
mod texts;
mod values;

pub use fault::ConfigurationFault;
pub use form::ValueForm;
pub use key_fault::{KeyFault, ValueFault};
pub use laws::worked_rows;
pub use reading::{options_of_text, read_configuration};
pub use text_fault::TextFault;

#[cfg(test)]
mod tests;
