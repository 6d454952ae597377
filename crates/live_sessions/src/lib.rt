//! The sessions that go on, and who is let in beside them.
#![tactic(auto)]

mod end_notice;
mod live_list;
mod live_session;
mod live_sessions;
mod login_terms;
mod no_room;
mod reset_counts;
mod session_counts;
mod session_totals;
#[cfg(test)]
mod tests;

pub use end_notice::EndNotice;
pub use live_list::{Entry, RefusedInitiator};
pub use live_session::{Initiator, InitiatorName, Origin, SessionReport};
pub use live_sessions::{EndInPlace, LiveSessions};
pub use login_terms::{LoginTerms, Paths, SPARE_WORKERS};
pub use no_room::NoRoom;
pub use reset_counts::ResetCounts;
pub use session_counts::SessionCounts;
pub use session_totals::SessionTotals;
