ghost use Rattle.std.specs.Prelude.{◌≡◌, ◌≤◌, Some, find, not, option_copied, string_bytes, true, IfOk, IfSome, vec_len};
ghost use Rattle.std.specs.BTreeMap.{keys};
ghost use Rattle.program_options.specs.Options.{AreGivenInRange, IsWithin};
ghost use Rattle.toml.specs.Data.{Members};
ghost use Rattle.toml.specs.Parse.{parse_document};
ghost use Rattle.toml.specs.View.{table_view};
ghost use Rattle.given_options.specs.Ranges.{AreGiven};
ghost use Rattle.configuration_file.specs.Says.{Says, SaysIscsi, SaysLibrary, SaysMedia, SaysMetrics, SaysPlace, SaysProfile, SaysRecordFile, SaysRecords, SaysTimes, are_keys, is_key};

use crate::fault::ConfigurationFault;
use crate::key_fault::KeyFault;
use crate::text_fault::TextFault;
use crate::texts::{hosts_at, portals_at};
use crate::values::{
    byte_at, digests_at, format_at, library_number_at, memory_size_at, metrics_at, number_at,
    profile_at, short_at, switch_at, target_name_at, text_at, volume_size_at,
};
use given_options::{
    GivenIscsi, GivenMedia, GivenMetrics, GivenOptions, GivenPlace, GivenRecordFile, GivenRecords,
    GivenTimes, MOST_SESSIONS, MOST_WAIT, SERVE_KEYS, ServeKey,
};
use program_options::{GivenLibrary, GivenProfile, LibraryOptions, ServeTimes};
use std::alloc::{AllocError, Global};
use std::fs::{self, Files};
use std::io::{self, Read};
use toml::Table;
use toml_lines::first_line_with;

/// How many bytes a configuration may have (profile).
const MOST_BYTES: u64 = 1_048_576;

/// Reads the options that the file of configuration at a path gives. The file is opened to be read alone.
pub fn read_configuration<R: AllocGlobal + Files>(
    rt: &R,
    path: String,
) -> Result<GivenOptions, ConfigurationFault>
    ensures { IfOk result AreGiven }
{
    let text = match read_text(rt, path.as_str()) {
        Ok(text) => text,
        Err(error) => return Err(ConfigurationFault::of_reading(path, error.kind())),
    };
    if text.len() as u64 > MOST_BYTES {
        return Err(ConfigurationFault::TooLong(path));
    }
    match options_of_text(rt.alloc(), &text) {
        Ok(given) => Ok(given),
        Err(fault) => Err(ConfigurationFault::of_text(path, fault)),
    }
}

/// What a file holds, or its beginning, with one byte more than a configuration may have.
fn read_text<R: AllocGlobal + Files>(rt: &R, path: &str) -> io::Result<Vec<u8>> {
    let mut text = Vec::new(rt.alloc());
    fs::open(rt, path)?
        .take(MOST_BYTES + 1)
        .read_to_end(&mut text)?;
    Ok(text)
}

/// The options that a text in TOML gives, or the first fault: where it isn't TOML, a key that is no option's, or, in the order of
/// `ServeKey`, a value that its option can't have.
pub fn options_of_text(alloc: Global, text: &[u8]) -> Result<GivenOptions, TextFault>
    ensures given { IfOk result AreGiven }
    ensures says { IfOk result (λ given. (members : Members) × (parse_document text.now ≡ Some members) × Says members given) }
    ensures known { IfOk result (λ _. (members : Members) × (parse_document text.now ≡ Some members) × (are_keys SERVE_KEYS members ≡ true)) }
{
    let table = match toml::table_from_slice(alloc, text) {
        Ok(table) => table,
        Err(fault) => return Err(TextFault::of_syntax(text, fault)),
    };
    match options_in(alloc, &table) {
        Ok(given) => Ok(given),
        Err(fault) => {
            let line = line_of_fault(alloc, text, &fault)?;
            Err(TextFault::of_key(line, fault))
        }
    }
}

/// The line on which a text has a key with a fault.
fn line_of_fault(alloc: Global, text: &[u8], fault: &KeyFault) -> Result<usize, AllocError> {
    match fault {
        KeyFault::NoMemory => Err(AllocError),
        KeyFault::Unknown(name) => line_of_key(alloc, text, name.as_str()),
        KeyFault::Value(key, _) => line_of_key(alloc, text, key.text()),
    }
}

/// The line on which a text has a key.
fn line_of_key(alloc: Global, text: &[u8], key: &str) -> Result<usize, AllocError> {
    first_line_with(alloc, text, |table: &Table| table.get(key).is_some())
}

/// The options that a table gives.
fn options_in(alloc: Global, table: &Table) -> Result<GivenOptions, KeyFault>
    ensures given { IfOk result AreGiven }
    ensures says { IfOk result (Says (table_view table.now)) }
    ensures known { IfOk result (λ _. are_keys SERVE_KEYS (table_view table.now) ≡ true) }
{
    look_at_keys(alloc, table)?;
    Ok(GivenOptions {
        library: library_in(table)?,
        volume_size: volume_size_at(alloc, table)?,
        profile: profile_in(alloc, table)?,
        media: media_in(alloc, table)?,
        place: place_in(alloc, table)?,
        metrics: metrics_in(alloc, table)?,
        iscsi: iscsi_in(alloc, table)?,
        records: records_in(table)?,
        record_file: record_file_in(alloc, table)?,
        times: times_in(table)?,
        log: switch_at(table, ServeKey::Log)?,
    })
}

/// Whether each key is one of an option.
fn look_at_keys(alloc: Global, table: &Table) -> Result<(), KeyFault>
    ensures { IfOk result (λ _. are_keys SERVE_KEYS (table_view table.now) ≡ true) }
{
    match first_unknown(table) {
        None => Ok(()),
        Some(name) => Err(KeyFault::Unknown(String::from_str(alloc, name.as_str())?)),
    }
}

/// The first key that is none of an option.
fn first_unknown(table: &Table) -> Option<&String>
    ensures { option_copied result ≡ find (λ name. not (is_key SERVE_KEYS (string_bytes name))) (keys table.now) }
{
    table.keys().find(|name| !is_key(name.as_str()))
}

/// Whether a name is the key of an option.
fn is_key(name: &str) -> bool
    ensures { result ≡ is_key SERVE_KEYS name.now }
{
    SERVE_KEYS.iter().any(|key| key.text() == name)
}

fn library_in(table: &Table) -> Result<GivenLibrary, KeyFault>
    ensures range { IfOk result AreGivenInRange }
    ensures says { IfOk result (SaysLibrary (table_view table.now)) }
{
    let least = LibraryOptions::MIN;
    let most = LibraryOptions::MAX;
    Ok(GivenLibrary {
        drives: byte_at(table, ServeKey::Drives, least.drives, most.drives)?,
        slots: short_at(table, ServeKey::Slots, least.slots, most.slots)?,
        import_exports: byte_at(
            table,
            ServeKey::Portals,
            least.import_exports,
            most.import_exports,
        )?,
        volumes: short_at(table, ServeKey::Volumes, least.volumes, most.volumes)?,
    })
}

fn profile_in(alloc: Global, table: &Table) -> Result<GivenProfile, KeyFault>
    ensures { IfOk result (SaysProfile (table_view table.now)) }
{
    Ok(GivenProfile {
        profile: profile_at(alloc, table)?,
        library_number: library_number_at(alloc, table)?,
    })
}

fn media_in(alloc: Global, table: &Table) -> Result<GivenMedia, KeyFault>
    ensures { IfOk result (SaysMedia (table_view table.now)) }
{
    Ok(GivenMedia {
        folder: text_at(alloc, table, ServeKey::Media)?,
        new_library: switch_at(table, ServeKey::NewLibrary)?,
        wait: number_at(table, ServeKey::WaitForFolder, 0, MOST_WAIT)?,
        memory: memory_size_at(alloc, table)?,
        volumes_larger_than_memory: switch_at(table, ServeKey::VolumesLargerThanMemory)?,
    })
}

fn place_in(alloc: Global, table: &Table) -> Result<GivenPlace, KeyFault>
    ensures says { IfOk result (SaysPlace (table_view table.now)) }
    ensures sessions { IfOk result (λ place. IsWithin 1 64 place.sessions × IsWithin 1 64 place.workers) }
{
    Ok(GivenPlace {
        socket: text_at(alloc, table, ServeKey::Socket)?,
        control: text_at(alloc, table, ServeKey::Control)?,
        sessions: byte_at(table, ServeKey::Sessions, 1, MOST_SESSIONS)?,
        workers: byte_at(table, ServeKey::Workers, 1, MOST_SESSIONS)?,
    })
}

fn metrics_in(alloc: Global, table: &Table) -> Result<GivenMetrics, KeyFault>
    ensures { IfOk result (SaysMetrics (table_view table.now)) }
{
    Ok(GivenMetrics {
        address: metrics_at(alloc, table)?,
        is_open: switch_at(table, ServeKey::MetricsOpen)?,
    })
}

fn iscsi_in(alloc: Global, table: &Table) -> Result<GivenIscsi, KeyFault>
    ensures says { IfOk result (SaysIscsi (table_view table.now)) }
    ensures portals { IfOk result (λ iscsi. IfSome iscsi.portals (λ p. (1 ≤ vec_len p) × (vec_len p ≤ 4))) }
{
    Ok(GivenIscsi {
        portals: portals_at(alloc, table)?,
        target_name: target_name_at(alloc, table)?,
        hosts: hosts_at(alloc, table)?,
        any_host: switch_at(table, ServeKey::AnyHost)?,
        multipath: switch_at(table, ServeKey::Multipath)?,
        chap: text_at(alloc, table, ServeKey::Chap)?,
        chap_digests: digests_at(alloc, table)?,
        no_authentication: switch_at(table, ServeKey::NoAuthentication)?,
    })
}

fn records_in(table: &Table) -> Result<GivenRecords, KeyFault>
    ensures { IfOk result (SaysRecords (table_view table.now)) }
{
    Ok(GivenRecords {
        spans: switch_at(table, ServeKey::Spans)?,
        drain: switch_at(table, ServeKey::Drain)?,
        keep_records: switch_at(table, ServeKey::KeepRecords)?,
    })
}

fn record_file_in(alloc: Global, table: &Table) -> Result<GivenRecordFile, KeyFault>
    ensures { IfOk result (SaysRecordFile (table_view table.now)) }
{
    Ok(GivenRecordFile {
        path: text_at(alloc, table, ServeKey::Records)?,
        format: format_at(alloc, table)?,
    })
}

fn times_in(table: &Table) -> Result<GivenTimes, KeyFault>
    ensures { IfOk result (SaysTimes (table_view table.now)) }
{
    let most = ServeTimes::MAX_TIMEOUT;
    Ok(GivenTimes {
        grace: number_at(table, ServeKey::Grace, 0, ServeTimes::MAX_GRACE)?,
        login: number_at(table, ServeKey::LoginTimeout, 0, most)?,
        idle: number_at(table, ServeKey::IdleTimeout, 0, most)?,
        write: number_at(table, ServeKey::WriteTimeout, 0, most)?,
        ping: number_at(table, ServeKey::IdlePing, 0, most)?,
    })
}
