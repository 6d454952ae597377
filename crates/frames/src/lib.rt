//! The frames of a session over a byte stream: what a stream begins with, read where it lies; and the
//! reply frames. Of each a server's side and a client's: what the one writes the other reads back (profile).
#![tactic(auto)]

mod awaiting;
mod fault;
mod frame;
mod laws;
mod layout;
mod parse;
mod reply_fault;
mod reply_frame;
mod reply_laws;
mod reply_parse;
mod sending;
mod sending_laws;

pub use awaiting::{ReplyWait, await_reply};
pub use fault::FrameFault;
pub use frame::{FrameRef, ParsedFrame};
pub use laws::{
    broken_rows, fault_rows, frame_rows, limit_rows, one_reading, partial_rows, pieces_join,
    reply_rows, stream_rows, taken_is_read,
};
pub use layout::{
    FRAME_BUFFER, HOSTS_FRAME_BUFFER, LENGTH_FIELD, most_body, most_command_data, most_reply,
    most_reply_data,
};
pub use parse::parse_frame;
pub use reply_fault::ReplyFault;
pub use reply_frame::{LoginAnswer, ParsedReply, ReplyFrame, write_reply};
pub use reply_laws::{
    parsed_reply_rows, reply_fault_rows, reply_is_read, reply_partial_rows, reply_stays,
};
pub use reply_parse::parse_reply;
pub use sending::write_frame;
pub use sending_laws::{frame_is_read, sendable_rows, sent_rows};
