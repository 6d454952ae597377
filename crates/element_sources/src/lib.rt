//! What a medium changer with the hosts' profile knows of its elements beside what they hold: from where each volume came, and READ ELEMENT
//! STATUS with it.
#![tactic(auto)]

mod laws;
mod layout;
mod place;
mod report;
mod reported_element;
mod run;
mod sources;
mod status;
mod status_request;
#[cfg(test)]
mod tests;

pub use laws::{
    default_status_but_for_two_bytes, drives_have_origins, moves_change_two_sources,
    worked_device_identifier, worked_moves, worked_sources, worked_types,
};
pub use sources::ElementSources;
pub use status::host_status;
pub use status_request::StatusRequest;
