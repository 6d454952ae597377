//! The text of login and text requests: its keys, and how the target answers them.
#![tactic(auto)]

mod answer;
mod fault;
mod iscsi_name;
mod key;
mod kind;
mod laws;
mod negotiation;
mod number;
mod parameters;
mod rows;
mod text;
mod value;
mod word;

pub use answer::{KeyAnswer, Terms, answer_to};
pub use fault::{NegotiationFault, TextFault};
pub use iscsi_name::{LONGEST_NAME, is_iscsi_name, is_same_name};
pub use key::{KEYS, Key};
pub use kind::{KeyKind, Range};
pub use laws::{agreed_in_range, item_is_read};
pub use negotiation::Negotiation;
pub use number::number_in;
pub use parameters::{SessionParameters, TARGET_MAX_RECV_DATA_SEGMENT_LENGTH};
pub use rows::{answer_rows, name_rows, negotiation_rows, number_rows, text_rows};
pub use text::{TextItem, first_item, write_item};
pub use value::{boolean_in, has_word, key_named};
pub use word::Word;
