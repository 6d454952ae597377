//! A host of a served library.
ghost use Rattle.command_line.specs.Tasks.{IsClientOptions};

use crate::client_fault::ClientFault;
use client_session::{HostSettings, run_session};
use command_line::ClientOptions;
use output_lines::Explanations;
use program_options::MAX_READS;
use script_input::read_all;
use std::io;
use std::net::Net;
use std::os::unix::net::UnixStream;

/// Reads the script of standard input to its end, sends it as a host to the library that is served at a socket, and
/// writes a line for each reply to standard output as it comes, with one behind it in words where those are wanted.
pub fn client<R: AllocGlobal + Input + Net + Print>(
    rt: &R,
    host: ClientOptions,
    explanations: Explanations,
) -> Result<(), ClientFault>
    requires { IsClientOptions host }
{
    let ClientOptions {
        socket,
        nexus,
        profile,
    } = host;
    let script = read_all(rt.alloc(), &mut rt.reader(), MAX_READS)?;
    let stream = match UnixStream::connect(rt, socket.as_str()) {
        Ok(stream) => stream,
        Err(_) => return Err(ClientFault::CannotConnect(socket)),
    };
    let mut reader = &stream;
    let mut writer = &stream;
    let mut out = io::writer(rt);
    let settings = HostSettings {
        nexus,
        profile,
        explanations,
        turns: MAX_READS,
    };
    run_session(
        rt.alloc(),
        settings,
        &script,
        &mut reader,
        &mut writer,
        &mut out,
    )?;
    Ok(())
}
