//! Sessions: the frames of one connection, answered one after another by a service. No socket here: a session reads and writes what it
//! is handed. A stream is also cut into frames by itself, piece by piece, for runtimes that hand over what came, where `serve` reads.
#![tactic(auto)]

mod answering;
mod directory;
mod fault;
mod frame;
mod logged_in;
mod login;
mod rows;
mod service;
mod serving;
mod splitter;
mod splitter_laws;

pub use directory::Directory;
pub use fault::{End, SessionFault};
pub use frame::Frame;
pub use rows::limit_rows;
pub use service::{SeatService, Service};
pub use serving::{lose_all, lose_at_units, serve};
pub use splitter::Splitter;
pub use splitter_laws::{cuts_change_nothing, splitting_rows};
