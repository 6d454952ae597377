//! A library that is served at a socket whose file is made for it, at portals of iSCSI, or at both: for a number of sessions, or until
//! standard input ends. What opens a library and has it closed is here, with what writes the lines of its records meanwhile, and what says what
//! would be served.
#![tactic(auto)]

mod batch;
mod checking;
mod control;
mod handing_out;
mod iscsi_target;
mod keeping;
mod laws;
mod library_tapes;
mod locked_media;
mod metrics;
mod metrics_page;
mod notice;
mod places;
mod process_memory;
mod record_source;
mod recording;
mod saved_library;
mod secrets_file;
mod served_lines;
mod server_fault;
mod server_state;
mod serving;
mod session_summaries;
mod socket;
mod socket_fault;
mod socket_file;
mod timed_stream;
mod unwritten_teller;

pub use checking::check_serving;
pub use control::ControlSocket;
pub use laws::{fault_rows, memory_rows, worked_rows};
pub use library_service::LibraryService;
pub use metrics::MetricsSocket;
pub use recording::RecordSink;
pub use saved_library::{FolderInventory, FolderKeeper};
pub use server_fault::{ServerFault, earlier};
pub use serving::{ServiceMeans, serve_library};
pub use socket::serve;
pub use socket_fault::SocketFault;
