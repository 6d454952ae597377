//! The login phase of an iSCSI session, from the first Login Request to full feature or a refusal, without input or output.
#![tactic(auto)]

mod admitted;
mod answers;
mod authentication;
mod chap;
mod chap_answers;
mod chap_keys;
mod exchange;
mod identity;
mod laws;
mod login;
mod names;
mod offers;
mod progress;
mod responding;
mod response;
mod stages;
mod target;
mod turn;

pub use admitted::Admitted;
pub use chap::ChapState;
pub use exchange::LoginExchange;
pub use identity::LoginIdentity;
pub use iscsi_chap::{
    Access, Admission, Authentication, Challenge, ChapAccess, ChapDigests, ChapPhase, Host,
    SessionType,
};
pub use laws::{
    begins_by_name, end_stays, login_rows, reached_by_name, stages_ascend, told_as_begun,
};
pub use login::{FullFeature, Login, LoginEnd, LoginStep, OpenLogin};
pub use names::declared_value;
pub use progress::LoginProgress;
pub use target::LoginTarget;
