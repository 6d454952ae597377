//! Sessions of a library by many workers, at a Unix socket and at portals of iSCSI, whichever library that is, and what is reported
//! meanwhile.
#![tactic(auto)]

mod acceptor;
mod door;
mod event;
mod faulty_session;
mod handed_out;
mod iscsi_words;
mod keeping;
mod logged_in;
mod record_drain;
mod refused_login;
mod reply_writer;
mod rows;
mod serving;
mod session_flags;
mod sessions_beside;
mod staff;
mod staffing;
mod teller;
mod timed_reader;
mod waiting;
mod worker;
mod worker_service;

pub use acceptor::{Acceptor, ServeLimits, ServeTerm, WaitTimes};
pub use door::Door;
pub use event::{EndedSession, Event};
pub use faulty_session::{Cause, FaultySession, InOrder, first_by};
pub use keeping::KeepTeller;
pub use live_sessions::{LiveSessions, LoginTerms, Paths, SessionReport};
pub use record_drain::RecordDrain;
pub use rows::session_rows;
pub use staffing::{serve_all, serve_and_end};
pub use teller::{Teller, Telling};
pub use waiting::PollSource;
