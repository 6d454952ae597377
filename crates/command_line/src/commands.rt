//! What the program's commands are and say of themselves.

use crate::options::{
    AUDIT, CELLS, CHECK, CLIENT, EXPLAIN, EXPLAINED, ISCSI, LIBRARY, LOG, MEDIA, METRICS,
    OptionRow, PLACE, PROFILE, PROFILE_ALONE, RECORDS, SOURCE, STATUS, TIMES, with_options,
};
use clap::Command;
use std::alloc::{AllocError, Global};

/// A command of the program.
#[derive(Clone, Copy)]
struct CommandRow {
    name: &'static str,
    about: &'static str,
    /// What its help ends with.
    examples: &'static str,
    /// Its options, in tables.
    tables: &'static [&'static [OptionRow]],
}

const REPLAY_EXAMPLE: &str =
    "Examples: a library with two drives, with its records after the replies; and replies in words:
  vtl replay --drives 2 --audit < examples/four_commands.script
  vtl replay --explain < examples/four_commands.script";

const SERVE_EXAMPLE: &str =
    "Examples: a library for two connections, and one that is served until its standard input ends:
  vtl serve --socket /run/vtl/socket --sessions 2
  vtl serve --socket /run/vtl/socket --workers 16 --drain --log
Example: a library for one host over iSCSI:
  vtl serve --iscsi 127.0.0.1:3260 --host iqn.2026-11.example:a=500000000000000a --drain --log
Examples: what a file of options would serve, and the same served:
  vtl serve --config examples/vtl.toml --check
  vtl serve --config examples/vtl.toml
Example: records for other programs:
  vtl serve --socket /run/vtl/socket --records /var/log/vtl/records.json
Example: metrics for Prometheus, at http://127.0.0.1:9100/metrics:
  vtl serve --socket /run/vtl/socket --records /var/log/vtl/records.json --metrics 127.0.0.1:9100";

const CLIENT_EXAMPLE: &str =
    "Example: a host that asks logical unit 0 whether it is ready, with the reply in words:
  echo '0 000000000000' | vtl client --socket /run/vtl/socket --sas 500000000000000a --port 1 --explain";

const STATUS_EXAMPLE: &str =
    "Examples: the library of the package's service, every two seconds, and as JSON:
  vtl status --watch
  vtl status --control /run/vtl/control --json";

const CELLS_EXAMPLE: &str = "Example: which host may write under which type of reservation:
  vtl cells 'WRITE(6)'";

const MEDIA_EXAMPLE: &str = "Example: what the images in a folder hold, and where one has a fault:
  vtl media check /var/lib/vtl";

const WORDS_EXAMPLE: &str = "Example: what happened last:
  tail /var/log/vtl/records.json | vtl explain";

const EXAMPLES: &str = "Examples:
  vtl replay < examples/four_commands.script
  vtl cells 'WRITE(6)'
  vtl serve --socket /run/vtl/socket --sessions 2
  vtl client --socket /run/vtl/socket --sas 500000000000000a --port 1 < examples/host_a.script";

const COMMANDS: [CommandRow; 6] = [
    CommandRow {
        name: "replay",
        about: "Runs the script on standard input, and prints a line for each reply",
        examples: REPLAY_EXAMPLE,
        tables: &[&LIBRARY, &PROFILE_ALONE, &EXPLAIN, &AUDIT],
    },
    CommandRow {
        name: "serve",
        about: "Serves the library at a Unix socket, over iSCSI or both, and prints a line for each record",
        examples: SERVE_EXAMPLE,
        tables: &[
            &SOURCE, &LIBRARY, &PROFILE, &MEDIA, &PLACE, &METRICS, &ISCSI, &RECORDS, &TIMES, &LOG,
        ],
    },
    CommandRow {
        name: "client",
        about: "Sends the script on standard input to a served library as one host, and prints a line for each reply",
        examples: CLIENT_EXAMPLE,
        tables: &[&CLIENT, &PROFILE_ALONE, &EXPLAIN],
    },
    CommandRow {
        name: "status",
        about: "Prints the state of a library that is served: its drives, elements, reservations and slots",
        examples: STATUS_EXAMPLE,
        tables: &[&STATUS],
    },
    CommandRow {
        name: "cells",
        about: "Prints which commands the permission table of persistent reservations allows",
        examples: CELLS_EXAMPLE,
        tables: &[&PROFILE_ALONE, &CELLS],
    },
    CommandRow {
        name: "explain",
        about: "Says in words what lines of records say that a server wrote into a file as JSON",
        examples: WORDS_EXAMPLE,
        tables: &[&EXPLAINED],
    },
];

/// What can be done with a library in a folder while it isn't served, or next to its server.
const MEDIA_COMMANDS: [CommandRow; 1] = [CommandRow {
    name: "check",
    about: "Prints what the image of each volume in a library's folder holds, or what is wrong with it",
    examples: MEDIA_EXAMPLE,
    tables: &[&CHECK],
}];

/// The program with its commands.
pub(crate) fn program<'a>(alloc: Global) -> Result<Command<'a>, AllocError> {
    let mut program = bare_program(alloc);
    for row in &COMMANDS {
        program = with_command(alloc, program, row)?;
    }
    program.subcommand(media_command(alloc)?)
}

/// The command whose commands are about the folders of libraries.
fn media_command<'a>(alloc: Global) -> Result<Command<'a>, AllocError> {
    let about = "Checks the folder in which a library is saved";
    let mut command = command_named(alloc, "media", about, MEDIA_EXAMPLE).subcommand_required(true);
    for row in &MEDIA_COMMANDS {
        command = with_command(alloc, command, row)?;
    }
    Ok(command)
}

fn bare_program<'a>(alloc: Global) -> Command<'a> {
    command_named(alloc, "vtl", "A tape library as a SCSI target", EXAMPLES)
        .version("0.1.0")
        .subcommand_required(true)
}

/// A command without options. What `clap` promises of it isn't needed above, and a contract that goes along makes proofs long.
fn command_named<'a>(
    alloc: Global,
    name: &'static str,
    about: &'static str,
    examples: &'static str,
) -> Command<'a> {
    Command::new(alloc, name).about(about).after_help(examples)
}

/// A program with one more command.
fn with_command<'a>(
    alloc: Global,
    program: Command<'a>,
    row: &CommandRow,
) -> Result<Command<'a>, AllocError> {
    let command = command_of(alloc, row)?;
    program.subcommand(command)
}

/// A command with its options.
fn command_of<'a>(alloc: Global, row: &CommandRow) -> Result<Command<'a>, AllocError> {
    let mut command = command_named(alloc, row.name, row.about, row.examples);
    for rows in row.tables {
        command = with_options(alloc, command, *rows)?;
    }
    Ok(command)
}
