//! The command lines of the program: its commands with their options, the task that one names, alone or with a file of configuration, and
//! why another names none.
#![tactic(auto)]

mod commands;
mod options;
mod reading;
mod serving;
mod task;

pub use program_options::CommandLineFault;
pub use reading::asked_of;
pub use serving::serve_task;
pub use task::{
    Asked, ClientOptions, IscsiOptions, MediaOptions, RecordFileOptions, ServeAim, ServeLine,
    ServeOptions, StatusOptions, Task,
};
