//! The elements of a medium changer, what each holds, and how READ ELEMENT STATUS reports them.
#![tactic(auto)]

mod address;
mod element_type;
mod elements;
mod exchange;
mod layout;
mod moves;
mod place;
mod report;
mod run;
mod status;

pub use element_type::ElementType;
pub use elements::Elements;
