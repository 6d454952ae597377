//! Replays each case of standard input in a library of its own, and writes its heading and what a replay writes of it.
//!
//! A case begins with a heading, a line `== NAME`. From the first ` --` on it has options, as `vtl replay` takes them, so
//! `== a tour of moves --drives 2 --audit`. The lines up to the next heading are the script.
#![tactic(auto)]

mod case;
mod cases;

fn main(rt: HostRuntime) -> std::io::Result<()> {
    cases::tell_all(&rt)
}
