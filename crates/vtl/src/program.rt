ghost use Rattle.std.specs.Prelude.{◌≡◌, OnOk, IfOk, IfSome};
ghost use Rattle.std.specs.Io.KnownBytes.{Appends};
ghost use Rattle.command_line.specs.Tasks.{IsAsked, IsDoable, MakesLibrary};
ghost use Rattle.given_options.specs.Ranges.{AreGiven};
ghost use Rattle.vtl.specs.Faults.{ending_line, ending_status};

use crate::client::client;
use crate::explaining::explain;
use crate::program_fault::ProgramFault;
use crate::status::print_status;
use command_line::{Asked, CommandLineFault, ServeLine, Task, asked_of, serve_task};
use configuration_file::read_configuration;
use library_server::{check_serving, serve};
use library_start::library;
use media_folder::check_folder;
use output_lines::{Audit, Explanations};
use permission_chart::write_cells;
use program_options::{LibraryOptions, LibraryProfile, MAX_READS};
use replay::{ReplayFault, replay};
use std::fs::Files;
use std::io::Write;
use std::net::{Net, TcpListener, TcpStream};
use std::random::RandomSource;
use std::rt::Env;
use std::sync::Wait;
use std::thread::Threads;
use std::time::Clock;
use std::{env, io};

/// Does what the command line asks for, writes on `errors` why it couldn't, and answers the exit status.
pub fn run<
    R: AllocGlobal
        + Clock
        + Env
        + Files
        + Input
        + Net<Listener = TcpListener, Stream = TcpStream>
        + Print
        + RandomSource
        + Sync
        + Threads
        + Wait,
    W: Write + Send,
>(rt: &R, files: &HostRuntime, errors: &mut W) -> u8 {
    let outcome = perform(rt, files, errors);
    // Where the line can't be written, the status alone tells.
    let _ = print_outcome(rt, errors, &outcome);
    status_of(&outcome)
}

/// The exit status: 0 where the task was done, else that of the fault.
fn status_of(outcome: &Result<(), ProgramFault>) -> u8
    ensures { result ≡ ending_status outcome.now }
{
    match outcome {
        Ok(()) => 0,
        Err(fault) => fault.status(),
    }
}

/// Writes a fault as its lines. What `clap` says of a command line has lines of its own, which go to
/// standard output where they are help or the version.
fn print_outcome<R: Print, W: Write>(
    rt: &R,
    errors: &mut W,
    outcome: &Result<(), ProgramFault>,
) -> io::Result<()>
    ensures { OnOk result (IfSome (ending_line outcome.now) (Appends (W.contents errors.old) (W.contents errors.new))) }
{
    match outcome {
        Ok(()) => Ok(()),
        Err(ProgramFault::CommandLine(CommandLineFault::Refused(error))) => {
            if error.use_stderr() {
                write!(errors, "{error}")
            } else {
                rt.print(error)
            }
        }
        Err(fault) => writeln!(errors, "{fault}"),
    }
}

fn perform<
    R: AllocGlobal
        + Clock
        + Env
        + Files
        + Input
        + Net<Listener = TcpListener, Stream = TcpStream>
        + Print
        + RandomSource
        + Sync
        + Threads
        + Wait,
    W: Write + Send,
>(rt: &R, files: &HostRuntime, errors: &mut W) -> Result<(), ProgramFault> {
    match task_of_arguments(rt)? {
        Task::Replay(options, profile, explanations, audit) => {
            Ok(replay_standard_input(rt, options, profile, explanations, audit)?)
        }
        Task::Serve(options, profile, serving, audit) => {
            Ok(serve(rt, files, options, profile, serving, audit, errors)?)
        }
        Task::CheckServe(options, profile, serving, audit) => {
            let mut out = io::writer(rt);
            Ok(check_serving(files, options, profile, serving, audit, &mut out, errors)?)
        }
        Task::Client(host, explanations) => Ok(client(rt, host, explanations)?),
        Task::Status(options) => Ok(print_status(rt, options)?),
        Task::Cells(profile, class) => {
            write_cells(&mut io::writer(rt), profile, class).map_err(|_| ProgramFault::Cells)
        }
        Task::Explain(file) => Ok(explain(rt, file, errors)?),
        Task::CheckMedia(folder) => { Ok(check_folder(rt, folder, &mut io::writer(rt), errors)?) }
    }
}

fn task_of_arguments<R: AllocGlobal + Env + Files>(rt: &R) -> Result<Task, ProgramFault>
    ensures { IfOk result IsDoable }
{
    match asked_of_arguments(rt)? {
        Asked::Task(task) => Ok(task),
        Asked::Serving(line) => task_of_line(rt, line),
    }
}

fn asked_of_arguments<R: AllocGlobal + Env>(rt: &R) -> Result<Asked, CommandLineFault>
    ensures { IfOk result IsAsked }
{
    match env::args(rt) {
        Ok(arguments) => {
            let words: Vec<String> = arguments.collect(rt.alloc())?;
            asked_of(rt.alloc(), &words)
        }
        Err(error) => match error.kind() {
            io::ErrorKind::OutOfMemory => Err(CommandLineFault::NoMemory),
            _ => Err(CommandLineFault::NotText),
        },
    }
}

/// The task of what a command line says, and where that says nothing what its file of configuration says, if it names one.
fn task_of_line<R: AllocGlobal + Files>(rt: &R, line: ServeLine) -> Result<Task, ProgramFault>
    requires { AreGiven line.given }
    ensures { IfOk result IsDoable }
{
    let ServeLine {
        given,
        configuration,
        aim,
    } = line;
    let given = match configuration {
        Some(path) => given.over(read_configuration(rt, path)?),
        None => given,
    };
    given.judge()?;
    Ok(serve_task(rt.alloc(), aim, given)?)
}

fn replay_standard_input<R: AllocGlobal + Input + Print>(
    rt: &R,
    options: LibraryOptions,
    profile: LibraryProfile,
    explanations: Explanations,
    audit: Audit,
) -> Result<(), ReplayFault>
    requires { MakesLibrary options }
{
    let mut core = library(rt.alloc(), &options, profile)?;
    let mut reader = rt.reader();
    let mut writer = io::writer(rt);
    replay(
        rt.alloc(),
        &mut core,
        &mut reader,
        &mut writer,
        explanations,
        audit,
        MAX_READS,
    )
}
