//! The program `vtl`: runs a script of commands through a tape library and prints its replies, serves the library
//! behind a Unix socket, or is a host of one that is served.
#![tactic(auto)]

mod client;
mod client_fault;
mod explaining;
mod laws;
mod program;
mod program_fault;
mod status;
mod status_fault;

use std::process::ExitCode;

fn main(rt: HostRuntime) -> ExitCode {
    ExitCode::from(program::run(&rt, &rt, &mut rt.stderr()))
}
