//! The script of a replay, and that of one host, as text: its lines to events or requests, or its first line with a fault.
#![tactic(auto)]

mod blocks;
mod client_request;
mod cutting;
mod digits;
mod events;
mod host_script;
mod laws;
mod line;
mod request_line;
mod script;
mod sixteen;
mod words;

pub use client_request::ClientRequest;
pub use events::Events;
pub use host_script::requests_of;
pub use laws::worked_rows;
pub use script::events_of;
