//! Command descriptor blocks: bytes to requests and back, and each request's class of permission.
#![tactic(auto)]

mod action;
mod changer;
mod classes;
mod classify;
mod decoding;
mod encoding;
mod fault;
mod fields;
mod host_decoding;
mod host_encoding;
mod host_request;
mod kind;
mod laws;
mod layout;
mod primary;
mod profile;
mod request;
mod service_action;
mod tape;

pub use action::InServiceAction;
pub use classes::Class;
pub use classify::{class, class_of_prevent, is_immediate};
pub use decoding::decode;
pub use encoding::encode;
pub use fault::CdbFault;
pub use host_request::HostRequest;
pub use kind::{Kind, kind_at};
pub use laws::{
    hosts_decode_what_spec_decodes, request_reads_back, worked_rows, worked_rows_of_changers,
    worked_rows_of_drives, worked_rows_of_hosts, worked_rows_of_kinds,
};
pub use layout::{CDB_LENGTH, INQUIRY, REQUEST_SENSE};
pub use primary::{inquiry_at, request_sense_at};
pub use profile::{CommandSet, Profile, commands_at};
pub use request::Request;
pub use service_action::OutServiceAction;
