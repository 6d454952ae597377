//! What the options of the program's commands mean: what a library is made of, its profile and its number, where and how long it is served
//! and waits for its hosts, which hosts it lets in, and which host a client is; and why a command line names nothing to do, or names a place where no server can
//! listen.
#![tactic(auto)]

mod chap_digests;
mod command_line_fault;
mod given_library;
mod given_profile;
mod host;
mod laws;
mod library_options;
mod library_profile;
mod listen_fault;
mod metrics_address;
mod named_host;
mod option_fault;
mod portal;
mod profile_words;
mod record_format;
mod serve_times;
mod serve_until;
mod sign;
mod sizes;
mod strangers;
mod told_address;
mod without_library;

pub use chap_digests::{ChapDigests, chap_digests_of};
pub use command_line_fault::CommandLineFault;
pub use given_library::GivenLibrary;
pub use given_profile::GivenProfile;
pub use host::nexus_of;
pub use iscsi_keys::is_iscsi_name;
pub use laws::worked_rows;
pub use library_options::{LibraryOptions, MAX_READS};
pub use library_profile::LibraryProfile;
pub use listen_fault::ListenFault;
pub use metrics_address::metrics_address_of;
pub use named_host::{HostText, NamedHost, host_beside};
pub use option_fault::OptionFault;
pub use portal::{PortalOptions, PortalText, portal_of};
pub use profile_words::{library_number_of, number_of_target, profile_of};
pub use record_format::{RecordFormat, record_format_of};
pub use serve_times::ServeTimes;
pub use serve_until::ServeUntil;
pub use sizes::{memory_size_of, volume_size_of};
pub use strangers::most_strangers;
pub use without_library::WithoutLibrary;
