ghost use Rattle.command_line.specs.Tasks.{IsDoable, MakesLibrary};

use command_line::{Asked, Task, asked_of};
use library_start::library;
use output_lines::{Audit, Explanations};
use program_options::{LibraryOptions, LibraryProfile, MAX_READS};
use replay::{ReplayFault, replay};
use std::alloc::{AllocError, Global};
use std::io;

/// A script and the heading that names it.
#[derive(Drop)]
pub(crate) struct Case {
    /// The name, and behind it the options as `vtl replay` takes them.
    heading: String,
    /// Bytes, since a script may be no text.
    script: Vec<u8>,
}

impl Case {
    /// A case with no line yet, unless its heading is no text.
    pub(crate) fn new(alloc: Global, heading: Vec<u8>) -> Option<Case> {
        let heading = String::from_utf8(heading).ok()?;
        let script = Vec::new(alloc);
        Some(Case { heading, script })
    }

    /// Adds a line to the script.
    pub(crate) fn push_line(&mut self, line: &[u8]) -> Result<(), AllocError> {
        self.script.extend_from_slice(line)?;
        self.script.push(b'\n')?;
        Ok(())
    }

    /// Writes the heading as it stands, and then what a replay of the script writes, or the fault that it ends with. Options that
    /// make no library together are told as the program tells them, and so is a heading that asks for no replay.
    pub(crate) fn tell(&self, rt: &(impl AllocGlobal + Print)) -> io::Result<()> {
        println!(rt; "{}", self.heading)?;
        let words = words_of(rt.alloc(), &self.heading)?;
        match asked_of(rt.alloc(), &words) {
            Ok(Asked::Task(task)) => self.tell_task(rt, task),
            Ok(Asked::Serving(_)) => println!(rt; "no replay"),
            Err(fault) => println!(rt; "{fault}"),
        }
    }

    fn tell_task(&self, rt: &(impl AllocGlobal + Print), task: Task) -> io::Result<()>
        requires { IsDoable task }
    {
        match task {
            Task::Replay(options, profile, explanations, audit) => {
                let outcome = replay_script(
                    rt,
                    &self.script,
                    options,
                    profile,
                    explanations,
                    audit,
                );
                tell_fault(rt, outcome)
            }
            _ => println!(rt; "no replay"),
        }
    }
}

/// The words of the command line that replays what stands behind a heading.
fn words_of(alloc: Global, heading: &str) -> Result<Vec<String>, AllocError> {
    let command = match heading.split_once(" --") {
        Some((_, options)) => format!(in alloc; "vtl replay --{options}")?,
        None => String::from_str(alloc, "vtl replay")?,
    };
    let mut words = Vec::new(alloc);
    for word in command.split_whitespace() {
        words.push(String::from_str(alloc, word)?)?;
    }
    Ok(words)
}

/// Replays a script in a library of its own.
fn replay_script(
    rt: &(impl AllocGlobal + Print),
    script: &[u8],
    options: LibraryOptions,
    profile: LibraryProfile,
    explanations: Explanations,
    audit: Audit,
) -> Result<(), ReplayFault>
    requires { MakesLibrary options }
{
    let mut core = library(rt.alloc(), &options, profile)?;
    let mut reader = script;
    let mut writer = io::writer(rt);
    replay(
        rt.alloc(),
        &mut core,
        &mut reader,
        &mut writer,
        explanations,
        audit,
        MAX_READS,
    )
}

/// Writes the fault that a replay ended with, if it did.
fn tell_fault(rt: &impl Print, outcome: Result<(), ReplayFault>) -> io::Result<()> {
    match outcome {
        Ok(()) => Ok(()),
        Err(fault) => println!(rt; "{fault}"),
    }
}
