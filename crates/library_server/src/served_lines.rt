//! The lines that say what would be served.

use crate::iscsi_target::PortalTarget;
use crate::notice::{at_each, plural};
use command_line::RecordFileOptions;
use iscsi_login::{Authentication, ChapDigests};
use library_inventory::{Element, PlacedVolume, StartProfile, name_of_tag};
use media_folder::{PlannedFolder, PlannedImage, PlannedVolume};
use output_lines::Audit;
use program_options::{PortalOptions, ServeTimes, ServeUntil};
use server::Paths;
use std::io::{self, Write};
use std::net::SocketAddr;
use std::time::Duration;
use tape_medium::VolumeTag;

/// Where hosts would connect, and how many at a time.
#[derive(Clone, Copy)]
pub(crate) struct ServedPlaces<'a> {
    pub socket: &'a Option<String>,
    pub control: &'a Option<String>,
    pub metrics: Option<SocketAddr>,
    pub made: &'a PortalTarget,
    pub until: ServeUntil,
}

/// How a library would be served.
#[derive(Clone, Copy)]
pub(crate) struct ServedTerms<'a> {
    pub volume_size: u64,
    /// How many bytes of memory all volumes may take, if there is a limit.
    pub memory: Option<u64>,
    pub drain: bool,
    pub audit: Audit,
    /// The file into which records would be written, if there is one.
    pub record_file: &'a Option<RecordFileOptions>,
    pub times: ServeTimes,
}

/// Writes what would be served: first a line like the one that a server reports once it serves.
pub(crate) fn write_served<W: Write>(
    out: &mut W,
    places: &ServedPlaces<'_>,
    library: &PlannedFolder,
    terms: &ServedTerms<'_>,
) -> io::Result<()> {
    write_places(out, places, library.size.drives)?;
    write_profile(out, library.profile)?;
    write_library(out, library, terms)?;
    for volume in &library.volumes {
        write_volume(out, volume)?;
    }
    for volume in &library.missing {
        write_missing(out, volume)?;
    }
    if !places.made.portals.is_empty() {
        write_target(out, places.made)?;
    }
    write_terms(out, terms)
}

fn write_places<W: Write>(out: &mut W, places: &ServedPlaces<'_>, drives: u8) -> io::Result<()> {
    write!(out, "would serve at ")?;
    let portals = &places.made.portals;
    let mut count = portals.len();
    if let Some(path) = places.socket {
        let and = if count == 0 { "" } else { " and " };
        write!(out, "{path}{and}")?;
        count = count.saturating_add(1);
    }
    for (nth, portal) in portals.iter().enumerate() {
        let and = if nth == 0 { "" } else { " and " };
        let address = portal.address;
        write!(out, "{and}{address}")?;
    }
    let units = u32::from(drives).saturating_add(1);
    let workers = places.until.workers();
    let more = plural(workers);
    let at_each = at_each(count);
    writeln!(out, ": {units} units, {workers} worker{more}{at_each}")?;
    if let Some(path) = places.control {
        writeln!(out, "status: at {path}")?;
    }
    match places.metrics {
        Some(address) => writeln!(out, "metrics: at {address}"),
        None => Ok(()),
    }
}

/// Writes how units would answer, and the number of a library that has one. One that a start draws isn't known before.
fn write_profile<W: Write>(out: &mut W, profile: StartProfile) -> io::Result<()> {
    match profile {
        StartProfile::Spec => writeln!(out, "profile: spec"),
        StartProfile::Hosts(Some(number)) => {
            writeln!(out, "profile: hosts, library number {number}")
        }
        StartProfile::Hosts(None) => {
            writeln!(out, "profile: hosts, library number yet to be drawn")
        }
    }
}

fn write_library<W: Write>(
    out: &mut W,
    library: &PlannedFolder,
    terms: &ServedTerms<'_>,
) -> io::Result<()> {
    let size = library.size;
    let (drives, slots, portals) = (size.drives, size.slots, size.import_exports);
    writeln!(
        out,
        "elements: drives {drives}, storage {slots}, import/export {portals}"
    )?;
    let count = library.volumes.len();
    let most = terms.volume_size;
    writeln!(out, "volumes: {count}, for {most} bytes of blocks each")?;
    match terms.memory {
        Some(memory) => writeln!(out, "memory: {memory} bytes at most for all volumes"),
        None => writeln!(out, "memory: as much as there is"),
    }
}

fn write_volume<W: Write>(out: &mut W, volume: &PlannedVolume) -> io::Result<()> {
    write_placed(out, "volume", &volume.tag, volume.element)?;
    match volume.image {
        PlannedImage::Made => writeln!(out, ", blank"),
        PlannedImage::Read {
            objects,
            is_protected,
        } => {
            let protected = if is_protected {
                ", write-protected"
            } else {
                ""
            };
            writeln!(out, ", {objects} blocks and filemarks{protected}")
        }
    }
}

fn write_missing<W: Write>(out: &mut W, volume: &PlacedVolume) -> io::Result<()> {
    write_placed(out, "missing", &volume.tag, volume.element)?;
    writeln!(out)
}

/// Writes where a volume is, without the line's end.
fn write_placed<W: Write>(
    out: &mut W,
    what: &str,
    tag: &VolumeTag,
    element: Element,
) -> io::Result<()> {
    // A volume of a folder has a name.
    let name = name_of_tag(tag).unwrap_or("");
    match element {
        Element::DataTransfer(number) => write!(out, "{what} {name}: drive {number}"),
        Element::Storage(number) => write!(out, "{what} {name}: storage element {number}"),
        Element::ImportExport(number) => {
            write!(out, "{what} {name}: import/export element {number}")
        }
    }
}

/// Writes what initiators would find, and which of them would be let in.
fn write_target<W: Write>(out: &mut W, made: &PortalTarget) -> io::Result<()> {
    for (nth, portal) in made.portals.iter().enumerate() {
        write_portal(out, nth.saturating_add(1), portal)?;
    }
    let name = text_of(&made.target.name);
    writeln!(out, "target: {name}")?;
    for host in &made.target.access.hosts {
        let name = text_of(&host.name);
        let sas = host.sas;
        writeln!(out, "host {name}: {sas:016x}")?;
    }
    if made.target.access.any_host {
        let most = made.most_strangers;
        writeln!(out, "other hosts: {most} at most")?;
    }
    match made.paths {
        Paths::SameAddress => writeln!(out, "sessions of a name: from one address")?,
        Paths::Any => writeln!(out, "sessions of a name: from any address")?,
    }
    write_authentication(out, &made.target.authentication)
}

fn write_portal<W: Write>(out: &mut W, group: usize, portal: &PortalOptions) -> io::Result<()> {
    let address = portal.address;
    match &portal.told {
        Some(told) => writeln!(out, "portal {group}: {address}, sent as {told}"),
        None => writeln!(out, "portal {group}: {address}"),
    }
}

fn write_authentication<W: Write>(out: &mut W, by: &Authentication) -> io::Result<()> {
    match by {
        Authentication::None => writeln!(out, "authentication: none"),
        Authentication::Chap(chap) => match chap.digests {
            ChapDigests::Sha256 => writeln!(out, "authentication: CHAP with sha256"),
            ChapDigests::Sha256AndMd5 => writeln!(out, "authentication: CHAP with sha256 or md5"),
        },
    }
}

fn write_terms<W: Write>(out: &mut W, terms: &ServedTerms<'_>) -> io::Result<()> {
    match terms.record_file {
        Some(file) => {
            let path = file.path.as_str();
            let format = file.format.text();
            writeln!(out, "records: into {path}, as {format}")?;
        }
        None => write_printed(out, terms)?,
    }
    write_times(out, terms.times)
}

/// Writes when records would be printed.
fn write_printed<W: Write>(out: &mut W, terms: &ServedTerms<'_>) -> io::Result<()> {
    let when = if terms.drain {
        "while it serves"
    } else {
        "at the end"
    };
    let spans = match terms.audit {
        Audit::Spans => ", with reservations",
        Audit::Lines | Audit::Off => "",
    };
    writeln!(out, "records: {when}{spans}")
}

fn write_times<W: Write>(out: &mut W, times: ServeTimes) -> io::Result<()> {
    let grace = times.grace.as_secs();
    writeln!(out, "grace: {grace} seconds")?;
    write_time(out, "login-timeout", times.login)?;
    write_time(out, "idle-timeout", times.idle)?;
    write_time(out, "write-timeout", times.write)?;
    write_time(out, "idle-ping", times.ping)
}

fn write_time<W: Write>(out: &mut W, name: &str, time: Option<Duration>) -> io::Result<()> {
    match time {
        Some(time) => {
            let seconds = time.as_secs();
            writeln!(out, "{name}: {seconds} seconds")
        }
        None => writeln!(out, "{name}: never"),
    }
}

/// A name, which is of ASCII.
fn text_of(name: &[u8]) -> &str {
    match std::str::from_utf8(name) {
        Ok(text) => text,
        Err(_) => "",
    }
}
