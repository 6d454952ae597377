//! iSCSI sessions: one connection from its first Login Request to its end, its commands handed to a service. No socket here: a session
//! reads and writes what it is handed.
#![tactic(auto)]

mod answering;
mod claiming;
mod connection;
mod executing;
mod fault;
mod keeping;
mod kinds;
mod login;
mod managing;
mod pdu_buffer;
mod portal;
mod register;
mod releasing;
mod requests;
mod resets;
mod rows;
mod serving;
mod talking;
mod texts;

pub use claiming::{Claim, SessionIdentity, claim_of, claim_rows};
pub use fault::{IscsiEnd, IscsiFault};
pub use iscsi_answers::PortalAddress;
pub use keeping::KeepingService;
pub use portal::{Arrival, Portal};
pub use register::{Entrant, Joined, NexusEnd, SessionRegister};
pub use rows::{ending_rows, handing_rows, outcome_rows, reset_rows, room_rows};
pub use serving::serve;
