//! Which commands a reservation lets through: the permission table, a cell for each class of command, type of reservation
//! and role of the sender. With it stand the terms that go with such a verdict: what a PERSISTENT RESERVE OUT command asks,
//! the rules on keys, and why an allowed command is refused.
#![tactic(auto)]

mod addresses;
mod cell;
mod class_names;
mod kept_params;
mod key_rule;
mod laws;
mod layout;
mod list_defect;
mod out_params;
mod pr_fault;
mod res_type;
mod role;
mod words;

pub use addresses::Addresses;
pub use cell::{Cell, allowed};
pub use class_names::class_text;
pub use kept_params::KeptParams;
pub use key_rule::KeyRule;
pub use laws::permission_rows;
pub use layout::TARGETS;
pub use list_defect::ListDefect;
pub use out_params::OutParams;
pub use pr_fault::PrFault;
pub use res_type::ResType;
pub use role::Role;
pub use words::{permission_words, word, word_holds_each_cell};
