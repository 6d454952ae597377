//! The full feature phase's order and data: the commands of a session that wait for their turn or their data, in the order in
//! which they are executed, and what is to be done next (RFC 7143).
#![tactic(auto)]

mod awaiting;
mod fault;
mod held_reply;
mod holding;
mod laws;
mod next_task;
mod passed_over;
mod reset_tasks;
mod rows;
mod sequence;
mod taken;
mod task;
mod tasks;
mod waiting;

pub use fault::{TaskFault, TasksFault};
pub use held_reply::{DueAnswer, HeldReply, Response, UnitReply};
pub use holding::MOST_REPLIES;
pub use laws::{
    aborted_is_gone, commands_in_order, data_are_its_own, data_are_sent_for_it, dropped_is_gone,
    held_are_handed_out, held_leave_once, released_in_time, target_failures, tasks_are_bounded,
    window_moves_on,
};
pub use next_task::{NextTask, TransferRequest};
pub use rows::{
    data_rows, gap_rows, holding_rows, number_rows, own_data_rows, reset_rows, window_rows,
};
pub use taken::{TakenCommand, TakenData};
pub use task::Task;
pub use tasks::{MOST_HELD, Tasks, WINDOW};
