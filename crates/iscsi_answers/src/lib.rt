//! The PDUs that answer an initiator in full feature: data and the response to a command, and the answers to NOP-Out, text, task
//! management and logout; and what is sent unasked, a ping and a logout that is asked for, and when. No state here: what an answer goes by is
//! handed in.
#![tactic(auto)]

mod answers;
mod command_answer;
mod data_in;
mod laws;
mod leaving;
mod limits;
mod repeats;
mod send_targets;
mod sequence;
mod text;
mod writing;

pub use answers::{
    TextTags, write_leave_request, write_logout_response, write_nop_in, write_ping,
    write_ready_to_transfer, write_reject, write_target_failure, write_task_management_response,
    write_text_response,
};
pub use command_answer::{
    AnsweredCommand, UnitAnswer, count_data_before, write_command_answer, write_data_before,
    write_late_response,
};
pub use laws::{data_are_whole, repeat_rows, residual_balances, residual_rows, segments_are_short};
pub use leaving::seconds_to_leave;
pub use limits::TransferLimits;
pub use repeats::is_overdone;
pub use send_targets::{PortalAddress, Portals};
pub use sequence::SequenceNumbers;
pub use text::{declared_length, write_text_answers};
