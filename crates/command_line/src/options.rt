//! The options of the program's commands, in tables, and how `clap` is given them.

use clap::{Arg, ArgAction, Command, value_parser};
use given_options::{MOST_SESSIONS, MOST_WAIT};
use program_options::{LibraryOptions, ServeTimes};
use scsi_nexus::TARGET_PORTS;
use std::alloc::{AllocError, Global};

/// What is given after an option.
#[derive(Clone, Copy)]
enum OptionValue {
    /// A text without the option's name, by what the help calls it.
    Operand(&'static str),
    /// Nothing: the option is given, or it isn't.
    Switch,
    /// A text, by what the help calls it.
    Text(&'static str),
    /// The same, as often as the option is given.
    Texts(&'static str),
    /// A number of 8 bits, by what the help calls it, with the least and the greatest.
    Number8(&'static str, u8, u8),
    /// A number of 16 bits.
    Number16(&'static str, u16, u16),
    /// A number of 32 bits.
    Number32(&'static str, u32, u32),
}

/// An option of a command.
#[derive(Clone, Copy)]
pub(crate) struct OptionRow {
    name: &'static str,
    value: OptionValue,
    presence: Presence,
    /// The option together with which it can't be given, where no file has options too.
    excludes: Option<&'static str>,
    help: &'static str,
}

/// Whether an option has to be given.
#[derive(Clone, Copy)]
enum Presence {
    Required,
    Optional,
    /// It has this value where it isn't given.
    Default(&'static str),
}

/// Where the status of a library is asked for, where nothing else is said (profile).
pub(crate) const DEFAULT_CONTROL: &str = "/run/vtl/control";

/// What the help calls a time.
const SECONDS: &str = "SECONDS";

/// Where more is said of how a library is served, and whether it is served at all.
pub(crate) const SOURCE: [OptionRow; 2] = [
    OptionRow {
        name: "config",
        value: OptionValue::Text("FILE"),
        presence: Presence::Optional,
        excludes: None,
        help: "A file in TOML with options of this command by their names; those given here win",
    },
    OptionRow {
        name: "check",
        value: OptionValue::Switch,
        presence: Presence::Optional,
        excludes: None,
        help: "Reads all that a start reads, prints what would be served, and ends: takes no lock, writes nothing, and may run next to a server",
    },
];

/// What a library is made of.
pub(crate) const LIBRARY: [OptionRow; 5] = [
    OptionRow {
        name: "drives",
        value: OptionValue::Number8("D", LibraryOptions::MIN.drives, LibraryOptions::MAX.drives),
        presence: Presence::Default("1"),
        excludes: None,
        help: "How many tape drives there are: logical units 1, 2 and so on",
    },
    OptionRow {
        name: "slots",
        value: OptionValue::Number16("S", LibraryOptions::MIN.slots, LibraryOptions::MAX.slots),
        presence: Presence::Default("8"),
        excludes: None,
        help: "How many storage elements the changer has",
    },
    OptionRow {
        name: "portals",
        value: OptionValue::Number8(
            "P",
            LibraryOptions::MIN.import_exports,
            LibraryOptions::MAX.import_exports,
        ),
        presence: Presence::Default("0"),
        excludes: None,
        help: "How many import/export elements the changer has",
    },
    OptionRow {
        name: "volumes",
        value: OptionValue::Number16(
            "V",
            LibraryOptions::MIN.volumes,
            LibraryOptions::MAX.volumes,
        ),
        presence: Presence::Default("1"),
        excludes: None,
        help: "How many volumes there are, in the first storage elements",
    },
    OptionRow {
        name: "volume-size",
        value: OptionValue::Text("SIZE"),
        presence: Presence::Default("16M"),
        excludes: None,
        help: "How many bytes of blocks a volume takes, from 1M to 64G: a number of bytes, or of KiB, MiB or GiB with K, M or G after it",
    },
];

/// Which profile a served library has, and which number.
pub(crate) const PROFILE: [OptionRow; 2] = [
    OptionRow {
        name: "profile",
        value: OptionValue::Text("PROFILE"),
        presence: Presence::Optional,
        excludes: None,
        help: "How units answer: spec for the commands that sharing tapes needs, or hosts for those that unmodified programs ask for too; spec \
            by default, or as the library in the folder is",
    },
    OptionRow {
        name: "library-id",
        value: OptionValue::Text("HEX8"),
        presence: Presence::Optional,
        excludes: None,
        help: "The number of a library with the profile hosts, in 8 hexadecimal digits: the serial numbers of its units begin with it; by \
            default that of the folder, where one is made once, or without a folder one from the target's name",
    },
];

/// The profile alone.
pub(crate) const PROFILE_ALONE: [OptionRow; 1] = [OptionRow {
    name: "profile",
    value: OptionValue::Text("PROFILE"),
    presence: Presence::Optional,
    excludes: None,
    help: "spec for the commands that sharing tapes needs, or hosts for those that unmodified programs ask for too; spec by default",
}];

/// Where a library is saved, and how much memory it takes.
pub(crate) const MEDIA: [OptionRow; 5] = [
    OptionRow {
        name: "media",
        value: OptionValue::Text("DIR"),
        presence: Presence::Optional,
        excludes: None,
        help: "The folder in which the library is saved: its tapes, and where its volumes are; without it they end with the server",
    },
    OptionRow {
        name: "new-library",
        value: OptionValue::Switch,
        presence: Presence::Optional,
        excludes: None,
        help: "Makes a library in the folder if it has none, and the folder if there is none; without this option such a folder is refused",
    },
    OptionRow {
        name: "wait-for-folder",
        value: OptionValue::Number32(SECONDS, 0, MOST_WAIT),
        presence: Presence::Default("0"),
        excludes: None,
        help: "How many seconds a start waits while another program has the folder; 0 to be refused at once",
    },
    OptionRow {
        name: "memory",
        value: OptionValue::Text("SIZE"),
        presence: Presence::Optional,
        excludes: None,
        help: "How many bytes of memory all volumes together may take, from 1M to 65536G; a write that finds none left ends in BUSY",
    },
    OptionRow {
        name: "volumes-larger-than-memory",
        value: OptionValue::Switch,
        presence: Presence::Optional,
        excludes: None,
        help: "For tests: the volumes may hold more than --memory together without --media too; writes then end in BUSY",
    },
];

/// Replies in words.
pub(crate) const EXPLAIN: [OptionRow; 1] = [OptionRow {
    name: "explain",
    value: OptionValue::Switch,
    presence: Presence::Optional,
    excludes: None,
    help: "Prints a line in words after each reply; it begins with #",
}];

/// The records, of which one may be asked for.
pub(crate) const AUDIT: [OptionRow; 2] = [
    OptionRow {
        name: "audit",
        value: OptionValue::Switch,
        presence: Presence::Optional,
        excludes: None,
        help: "Prints a line for each record after the replies, LUN 0 first",
    },
    OptionRow {
        name: "spans",
        value: OptionValue::Switch,
        presence: Presence::Optional,
        excludes: Some("audit"),
        help: "The same, each line with the reservation that was held before its record",
    },
];

/// Where the library of a client is, and as which host it comes.
pub(crate) const CLIENT: [OptionRow; 3] = [
    OptionRow {
        name: "socket",
        value: OptionValue::Text("PATH"),
        presence: Presence::Required,
        excludes: None,
        help: "The path of the served library's socket",
    },
    OptionRow {
        name: "sas",
        value: OptionValue::Text("HEX"),
        presence: Presence::Required,
        excludes: None,
        help: "The SAS address of the host, in 16 hexadecimal digits",
    },
    OptionRow {
        name: "port",
        value: OptionValue::Number16("P", 1, TARGET_PORTS),
        presence: Presence::Required,
        excludes: None,
        help: "The target port through which the host connects",
    },
];

/// Where the library is whose status is printed, and how it is printed.
pub(crate) const STATUS: [OptionRow; 3] = [
    OptionRow {
        name: "control",
        value: OptionValue::Text("PATH"),
        presence: Presence::Default(DEFAULT_CONTROL),
        excludes: None,
        help: "The path that the server has as its --control",
    },
    OptionRow {
        name: "watch",
        value: OptionValue::Switch,
        presence: Presence::Optional,
        excludes: None,
        help: "Prints it again every two seconds, until it is interrupted or the server ends",
    },
    OptionRow {
        name: "json",
        value: OptionValue::Switch,
        presence: Presence::Optional,
        excludes: None,
        help: "Prints it as a line of JSON",
    },
];

/// Which part of the permission table is printed.
pub(crate) const CELLS: [OptionRow; 1] = [OptionRow {
    name: "class",
    value: OptionValue::Operand("CLASS"),
    presence: Presence::Optional,
    excludes: None,
    help: "The one class of commands to print, by its name in the table",
}];

/// The folder that is checked.
pub(crate) const CHECK: [OptionRow; 1] = [OptionRow {
    name: "dir",
    value: OptionValue::Operand("DIR"),
    presence: Presence::Required,
    excludes: None,
    help: "The folder of the library",
}];

/// The file whose lines are said in words.
pub(crate) const EXPLAINED: [OptionRow; 1] = [OptionRow {
    name: "file",
    value: OptionValue::Operand("FILE"),
    presence: Presence::Optional,
    excludes: None,
    help: "The file with the lines; without it they are read from standard input",
}];

/// Where a library is served, for how long, and to how many.
pub(crate) const PLACE: [OptionRow; 4] = [
    OptionRow {
        name: "socket",
        value: OptionValue::Text("PATH"),
        presence: Presence::Optional,
        excludes: None,
        help: "The path of the socket that the server makes",
    },
    OptionRow {
        name: "control",
        value: OptionValue::Text("PATH"),
        presence: Presence::Optional,
        excludes: None,
        help: "The path of a second socket, at which vtl status asks for the state of the library; only the server's user may open it",
    },
    OptionRow {
        name: "sessions",
        value: OptionValue::Number8("N", 1, MOST_SESSIONS),
        presence: Presence::Optional,
        excludes: None,
        help: "Ends after this many connections; without it the library is served until standard input ends",
    },
    OptionRow {
        name: "workers",
        value: OptionValue::Number8("W", 1, MOST_SESSIONS),
        presence: Presence::Optional,
        excludes: None,
        help: "How many sessions may be in at a time, at the socket and at each portal; 64 by default",
    },
];

/// Where the metrics of a served library are asked for, and by whom.
pub(crate) const METRICS: [OptionRow; 2] = [
    OptionRow {
        name: "metrics",
        value: OptionValue::Text("ADDRESS:PORT"),
        presence: Presence::Optional,
        excludes: None,
        help: "Where Prometheus asks for metrics, at /metrics: how many records say what, and the state of each unit; needs --records or --drain",
    },
    OptionRow {
        name: "metrics-open",
        value: OptionValue::Switch,
        presence: Presence::Optional,
        excludes: None,
        help: "Lets other machines read the metrics; without it their address must be one of the loopback",
    },
];

/// Where iSCSI initiators connect, which of them may log in, and what they must prove.
pub(crate) const ISCSI: [OptionRow; 8] = [
    OptionRow {
        name: "iscsi",
        value: OptionValue::Texts("ADDRESS:PORT"),
        presence: Presence::Optional,
        excludes: None,
        help: "Where iSCSI initiators connect, up to 4 times: the k-th is portal group k and target port k; =HOST:PORT after it is the address \
            that is sent to initiators instead, for example if a port is forwarded",
    },
    OptionRow {
        name: "target-name",
        value: OptionValue::Text("NAME"),
        presence: Presence::Optional,
        excludes: None,
        help: "The target's iSCSI name; iqn.2026-11.localhost:vtl by default",
    },
    OptionRow {
        name: "host",
        value: OptionValue::Texts("NAME=SAS"),
        presence: Presence::Optional,
        excludes: None,
        help: "Lets the initiator with this iSCSI name in, as the nexus of this SAS address; up to 64 times",
    },
    OptionRow {
        name: "any-host",
        value: OptionValue::Switch,
        presence: Presence::Optional,
        excludes: None,
        help: "Lets every other initiator in too, as a SAS address that is made from its name",
    },
    OptionRow {
        name: "multipath",
        value: OptionValue::Switch,
        presence: Presence::Optional,
        excludes: None,
        help: "Lets one iSCSI name in from different addresses, such as those of a host with several network cards",
    },
    OptionRow {
        name: "chap",
        value: OptionValue::Text("FILE"),
        presence: Presence::Optional,
        excludes: None,
        help: "A file with a line NAME USER SECRET for each host; hosts then prove by CHAP that they have their secret",
    },
    OptionRow {
        name: "chap-digests",
        value: OptionValue::Text("LIST"),
        presence: Presence::Optional,
        excludes: None,
        help: "Which digests hosts may use for that: sha256, or sha256,md5, which is the default",
    },
    OptionRow {
        name: "no-authentication",
        value: OptionValue::Switch,
        presence: Presence::Optional,
        excludes: None,
        help: "Lets every machine that reaches a portal in by its name alone",
    },
];

/// When and how the records of a served library are printed.
pub(crate) const RECORDS: [OptionRow; 5] = [
    OptionRow {
        name: "spans",
        value: OptionValue::Switch,
        presence: Presence::Optional,
        excludes: None,
        help: "Adds to each line the reservation that was held before its record",
    },
    OptionRow {
        name: "drain",
        value: OptionValue::Switch,
        presence: Presence::Optional,
        excludes: None,
        help: "Prints records while it serves: after each session, and whenever a unit has 4,096 of them; without it all are kept to the \
            end, or with --sessions until the last session has ended, some 255 bytes a command. With --iscsi this is the default, \
            unless --keep-records or --spans is given",
    },
    OptionRow {
        name: "keep-records",
        value: OptionValue::Switch,
        presence: Presence::Optional,
        excludes: None,
        help: "Keeps the records to the end with --iscsi too",
    },
    OptionRow {
        name: "records",
        value: OptionValue::Text("FILE"),
        presence: Presence::Optional,
        excludes: None,
        help: "Appends a line for each record to this file, at least once a second, and prints none; a file that was moved away is \
            followed by a new one",
    },
    OptionRow {
        name: "format",
        value: OptionValue::Text("FORMAT"),
        presence: Presence::Optional,
        excludes: None,
        help: "How these lines are written: json, which is the default, or text",
    },
];

/// How long a served library waits for its hosts.
pub(crate) const TIMES: [OptionRow; 5] = [
    OptionRow {
        name: "grace",
        value: OptionValue::Number32(SECONDS, 0, ServeTimes::MAX_GRACE),
        presence: Presence::Default("10"),
        excludes: None,
        help: "How many seconds sessions go on after the server is asked to end",
    },
    OptionRow {
        name: "login-timeout",
        value: OptionValue::Number32(SECONDS, 0, ServeTimes::MAX_TIMEOUT),
        presence: Presence::Default("10"),
        excludes: None,
        help: "Closes a connection that hasn't logged in after this many seconds; 0 for never",
    },
    OptionRow {
        name: "idle-timeout",
        value: OptionValue::Number32(SECONDS, 0, ServeTimes::MAX_TIMEOUT),
        presence: Presence::Default("0"),
        excludes: None,
        help: "Ends a session from which nothing has come for this many seconds; 0 for never",
    },
    OptionRow {
        name: "write-timeout",
        value: OptionValue::Number32(SECONDS, 0, ServeTimes::MAX_TIMEOUT),
        presence: Presence::Default("30"),
        excludes: None,
        help: "Ends a session that hasn't taken a reply after this many seconds; 0 for never",
    },
    OptionRow {
        name: "idle-ping",
        value: OptionValue::Number32(SECONDS, 0, ServeTimes::MAX_TIMEOUT),
        presence: Presence::Default("30"),
        excludes: None,
        help: "Asks an iSCSI initiator from which nothing has come for this many seconds whether it is still there; 0 for never",
    },
];

/// What is logged of sessions.
pub(crate) const LOG: [OptionRow; 1] = [OptionRow {
    name: "log",
    value: OptionValue::Switch,
    presence: Presence::Optional,
    excludes: None,
    help: "Prints a line on standard error for each session that begins, ends or takes the place of another, for each iSCSI initiator that \
        logs in, for each iSCSI command number that did not come, and for each command that ended in BUSY",
}];

/// A command with the options of a table, in its order.
pub(crate) fn with_options<'a>(
    alloc: Global,
    command: Command<'a>,
    rows: &[OptionRow],
) -> Result<Command<'a>, AllocError> {
    let mut command = command;
    for row in rows {
        command = command.arg(argument_of(alloc, row)?)?;
    }
    Ok(command)
}

/// An option, as `clap` has it.
fn argument_of<'a>(alloc: Global, row: &OptionRow) -> Result<Arg<'a>, AllocError> {
    let argument = with_second_name(named_argument(alloc, row), row.name)?;
    let argument = with_value(argument, row.value);
    let argument = with_presence(argument, row.presence);
    with_exclusion(argument, row.excludes)
}

/// An option with its name and what the help says of it.
fn named_argument<'a>(alloc: Global, row: &OptionRow) -> Arg<'a> {
    let argument = Arg::new(alloc, row.name).help(row.help);
    match row.value {
        OptionValue::Operand(_) => argument,
        _ => argument.long(row.name),
    }
}

/// An option that also goes by another name: import/export elements are called mail slots by most libraries.
fn with_second_name<'a>(argument: Arg<'a>, name: &str) -> Result<Arg<'a>, AllocError> {
    match name {
        "portals" => argument.visible_alias("mail-slots"),
        _ => Ok(argument),
    }
}

fn with_value<'a>(argument: Arg<'a>, value: OptionValue) -> Arg<'a> {
    match value {
        OptionValue::Switch => argument.action(ArgAction::SetTrue),
        OptionValue::Operand(name) | OptionValue::Text(name) => argument.value_name(name),
        OptionValue::Texts(name) => argument.value_name(name).action(ArgAction::Append),
        OptionValue::Number8(name, least, most) => with_number8(
            argument.value_name(name),
            least,
            most,
        ),
        OptionValue::Number16(name, least, most) => with_number16(
            argument.value_name(name),
            least,
            most,
        ),
        OptionValue::Number32(name, least, most) => with_number32(
            argument.value_name(name),
            least,
            most,
        ),
    }
}

fn with_number8<'a>(argument: Arg<'a>, least: u8, most: u8) -> Arg<'a> {
    argument.value_parser(value_parser!(u8).range(i64::from(least)..=i64::from(most)))
}

fn with_number16<'a>(argument: Arg<'a>, least: u16, most: u16) -> Arg<'a> {
    argument.value_parser(value_parser!(u16).range(i64::from(least)..=i64::from(most)))
}

fn with_number32<'a>(argument: Arg<'a>, least: u32, most: u32) -> Arg<'a> {
    argument.value_parser(value_parser!(u32).range(i64::from(least)..=i64::from(most)))
}

fn with_presence<'a>(argument: Arg<'a>, presence: Presence) -> Arg<'a> {
    match presence {
        Presence::Required => argument.required(true),
        Presence::Optional => argument,
        Presence::Default(value) => argument.default_value(value),
    }
}

fn with_exclusion<'a>(
    argument: Arg<'a>,
    excludes: Option<&'static str>,
) -> Result<Arg<'a>, AllocError> {
    match excludes {
        Some(other) => argument.conflicts_with(other),
        None => Ok(argument),
    }
}
