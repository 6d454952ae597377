//! A host's session with a served library: its requests sent one after another, each behind the reply to the one
//! before, and a line of text for each reply.
#![tactic(auto)]

mod awaiting;
mod client_session_fault;
mod exchanging;
mod host_session;
mod laws;

pub use client_session_fault::ClientSessionFault;
pub use host_session::{HostSettings, run_session};
pub use laws::worked_rows;
