use given_options::GivenOptions;
use output_lines::{Audit, Explanations};
use program_options::{
    ChapDigests, GivenLibrary, GivenProfile, LibraryOptions, LibraryProfile, NamedHost,
    PortalOptions, RecordFormat, ServeTimes, ServeUntil, WithoutLibrary,
};
use scsi_cdb::{Class, Profile};
use scsi_nexus::Nexus;
use std::net::SocketAddr;

/// What the program is asked to do.
#[derive(Drop)]
pub enum Task {
    /// Run the script of standard input at a library of a profile, and print its replies, in words too where that is wanted, and
    /// what is wanted of the records.
    Replay(LibraryOptions, LibraryProfile, Explanations, Audit),
    /// Serve a library at a socket or by iSCSI, and print what is wanted of the records. Where it is kept in a folder, the options of the
    /// library are what one is made of that isn't there yet, and may ask for more volumes than there are storage elements; its profile is
    /// decided there.
    Serve(LibraryOptions, LibraryProfile, ServeOptions, Audit),
    /// Print what would be served, and serve nothing.
    CheckServe(LibraryOptions, LibraryProfile, ServeOptions, Audit),
    /// Send the script of standard input to a served library, and print its replies, in words too where that is wanted.
    Client(ClientOptions, Explanations),
    /// Print the state of a library that is served.
    Status(StatusOptions),
    /// Print the permission table of a profile, or the line of one class of its commands.
    Cells(Profile, Option<Class>),
    /// Print what the images of the volumes hold that are in the folder at this path, and what is wrong with them.
    CheckMedia(String),
    /// Print what the lines of records in a file at this path say, or those of standard input.
    Explain(Option<String>),
}

/// What a command line asks for.
#[derive(Drop)]
pub enum Asked {
    /// A task.
    Task(Task),
    /// A library is to be served, or what would be served is to be checked, by what the command line says of it and a file may add.
    Serving(ServeLine),
}

/// What a command line says of how a library is served.
#[derive(Drop)]
pub struct ServeLine {
    pub given: GivenOptions,
    /// The path of the file that says more, if there is one.
    pub configuration: Option<String>,
    pub aim: ServeAim,
}

/// What is done with a library that may be served.
#[derive(Clone, Copy, PartialEq, Eq)]
pub enum ServeAim {
    Serve,
    /// It is read, and what would be served is printed.
    Check,
}

/// Where a library is served and kept, for how long, when its records are printed, and what is logged of its sessions.
#[derive(Drop)]
pub struct ServeOptions {
    /// The path of the socket's file, if there is to be one.
    pub socket: Option<String>,
    /// The path of the file of the socket at which the library's status is asked for, if there is to be one.
    pub control: Option<String>,
    /// Where the library's metrics are asked for, if somewhere.
    pub metrics: Option<SocketAddr>,
    /// What iSCSI initiators connect to, if any may.
    pub iscsi: Option<IscsiOptions>,
    /// Where the library is kept, if it is to be.
    pub media: Option<MediaOptions>,
    /// How many bytes of memory its volumes may take together, if there is a limit.
    pub memory: Option<u64>,
    pub until: ServeUntil,
    /// Whether records are printed after each session, and within one whenever a unit has many of them, and are kept no longer.
    pub drain: bool,
    /// The file into which they are written instead, if there is to be one.
    pub record_file: Option<RecordFileOptions>,
    /// How long it waits for its hosts.
    pub times: ServeTimes,
    /// Whether what goes on in sessions is logged too: those that begin, end or take the place of others, initiators that log in, command
    /// numbers that did not come, and commands that ended in BUSY.
    pub log: bool,
}

/// Into which file records are written, and in which form.
#[derive(Drop)]
pub struct RecordFileOptions {
    pub path: String,
    pub format: RecordFormat,
}

/// Where a library is kept, and what it has to agree with.
#[derive(Drop)]
pub struct MediaOptions {
    /// The path of its folder.
    pub folder: String,
    /// What is done where it has no library.
    pub without: WithoutLibrary,
    /// For how many seconds a start waits while another program has it.
    pub wait: u32,
    /// What the command line and the file of configuration say of the library.
    pub given: GivenLibrary,
    /// The same of its profile.
    pub profile: GivenProfile,
}

/// Where iSCSI initiators connect, and which of them may log in.
#[derive(Drop)]
pub struct IscsiOptions {
    /// The portals: the first is portal group 1 and target port 1, and so on.
    pub portals: Vec<PortalOptions>,
    /// The target's iSCSI name.
    pub target_name: String,
    /// The hosts that are let in by name.
    pub hosts: Vec<NamedHost>,
    /// Whether every other name is let in too.
    pub any_host: bool,
    /// How many nexuses of hosts whose name isn't among those may be let in.
    pub most_strangers: u8,
    /// Whether sessions of one name may come from different addresses.
    pub multipath: bool,
    /// The path of the file with the secrets by which initiators prove that a name is theirs. `None`: they need prove nothing.
    pub chap: Option<String>,
    /// By which digests they may prove it.
    pub chap_digests: ChapDigests,
}

/// Where the status of a library is asked for, and how it is printed.
#[derive(Drop)]
pub struct StatusOptions {
    /// The path of the file of the server's control socket.
    pub control: String,
    /// Whether it is printed again and again.
    pub watch: bool,
    /// Whether it is printed as JSON.
    pub json: bool,
}

/// Where a client connects to a library, and as which host.
#[derive(Drop)]
pub struct ClientOptions {
    /// The path of the socket's file.
    pub socket: String,
    pub nexus: Nexus,
    /// That of the library.
    pub profile: Profile,
}
