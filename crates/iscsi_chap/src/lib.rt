//! Who is let in over iSCSI, and to which type of session: by its name, and where that is asked for by CHAP: secrets, challenges, digests, and
//! the values of its keys (RFC 1994; RFC 7143, "Challenge Handshake Authentication Protocol (CHAP)").
#![tactic(auto)]

mod access;
mod algorithm;
mod authentication;
mod binary;
mod challenge;
mod digest;
mod entry;
mod fields;
mod file_mode;
mod laws;
mod md5_digest;
mod phase;
mod response;
mod rows;
mod same;
mod secrets;
mod secrets_fault;
mod session_type;
mod sha256_digest;
mod words;

pub use access::{Access, Admission, Host};
pub use algorithm::{ChapAlgorithm, ChapDigests, chosen_algorithm};
pub use authentication::{Authentication, ChapAccess};
pub use binary::{LONGEST_BINARY, binary_in, write_hexadecimal};
pub use challenge::Challenge;
pub use digest::{ChapDigest, chap_digest};
pub use entry::{ChapEntry, ChapSecrets, Credentials};
pub use file_mode::is_open_to_others;
pub use laws::{secrets_apart, users_once};
pub use phase::ChapPhase;
pub use response::is_response;
pub use rows::{algorithm_rows, entry_rows, line_rows, mirrored_rows, secrets_rows};
pub use same::are_same;
pub use secrets_fault::{LineFault, SecretsFault};
pub use session_type::SessionType;
