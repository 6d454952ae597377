//! A library as sessions are served at it: a service at each of its seats, made over the seat, which comes back once there are no more
//! sessions. Then the library is closed, and the lines of its records are written, or those that have none are reported. It waits for
//! locks, and for nothing else.
#![tactic(auto)]

mod closing;
mod closing_fault;
mod seats;
mod service;

pub use closing::close_and_write;
pub use closing_fault::ClosingFault;
pub use seats::{give_back, services_of};
pub use service::LibraryService;
