//! The record next to a volume's file, `TAG.synced`: how many bytes of the file are known to be on the disk. It is a text in TOML 1.0.
use crate::boot::BootId;
use crate::identity::FileIdentity;
use crate::small_file::make_anew;
use std::alloc::{AllocError, Global};
use std::fmt::Write;
use std::fs::{self, File, Files, OpenFile, OpenOptions};
use std::io;
use std::os::unix::fs::FileExt;
use toml::{Table, Value};

/// The version of the text that is written.
const VERSION: i64 = 1;

/// The latest version of a text that is read. It has one more line than the one that is written, which is passed over.
const LATEST_VERSION: i64 = 2;

/// How many bytes a record has at most, with room for lines that are passed over.
pub(crate) const MOST_BYTES: u64 = 4096;

/// What the record of a file says.
#[derive(Clone, Copy)]
pub(crate) struct SyncedRecord {
    /// So many of the file's first bytes are on the disk.
    pub length: u64,
    /// The number of the file on its device.
    pub inode: u64,
}

/// What a text is.
#[derive(Clone, Copy)]
pub(crate) enum RecordText {
    Record(SyncedRecord),
    /// A program that is newer than this one wrote it.
    Newer(i64),
    /// It is none of a record.
    Damaged,
}

impl RecordText {
    /// What the bytes of a record's file are.
    pub fn read(alloc: Global, bytes: &[u8]) -> Result<RecordText, AllocError> {
        match toml::table_from_slice(alloc, bytes) {
            Ok(table) => Ok(text_of(&table)),
            Err(fault) if fault.is_memory() => Err(AllocError),
            Err(_) => Ok(RecordText::Damaged),
        }
    }
}

fn text_of(table: &Table) -> RecordText {
    match integer_at(table, "version") {
        Some(version) if version > LATEST_VERSION => RecordText::Newer(version),
        Some(version) if version >= VERSION => match record_in(table) {
            Some(record) => RecordText::Record(record),
            None => RecordText::Damaged,
        },
        Some(_) | None => RecordText::Damaged,
    }
}

fn integer_at(table: &Table, key: &str) -> Option<i64> {
    table.get(key)?.as_integer()
}

fn text_at<'a>(table: &'a Table, key: &str) -> Option<&'a str> {
    table.get(key)?.as_str()
}

fn record_in(table: &Table) -> Option<SyncedRecord> {
    let length = number_of(integer_at(table, "length")?)?;
    match text_at(table, "inode")?.parse::<u64>() {
        Ok(inode) => Some(SyncedRecord { length, inode }),
        Err(_) => None,
    }
}

fn number_of(value: i64) -> Option<u64> {
    match u64::try_from(value) {
        Ok(number) => Some(number),
        Err(_) => None,
    }
}

/// Which file a record is about, and in which run of the machine it is written. Older programs read that; this one doesn't.
#[derive(Clone, Copy)]
pub(crate) struct RecordOf {
    pub alloc: Global,
    pub inode: u64,
    pub boot: BootId,
}

impl RecordOf {
    /// The text of a record that so many of the file's bytes are on the disk. It has the same length for every length of one file.
    pub fn text(&self, length: u64) -> Result<String, AllocError> {
        let RecordOf { alloc, inode, boot } = self;
        let mut text = String::new(*alloc);
        write!(text, "version = {VERSION}\nlength = {length:<20}\n")?;
        write!(text, "inode = \"{inode}\"\nboot = \"{boot}\"\n")?;
        Ok(text)
    }

    /// Writes a record into a file.
    fn put(&self, file: &File, length: u64) -> io::Result<()> {
        let text = self.text(length)?;
        file.write_all_at(text.as_bytes(), 0)
    }
}

/// The file of a record, that is written in its place.
#[derive(Drop)]
pub(crate) struct RecordFile {
    of: RecordOf,
    file: File,
    identity: FileIdentity,
}

impl RecordFile {
    /// The one at a path, which has the text of such a record already.
    pub fn open<R: Files<File = File>>(rt: &R, path: &str, of: RecordOf) -> io::Result<RecordFile> {
        let file = OpenOptions::new().write(true).open(rt, path)?;
        RecordFile::of_file(of, file)
    }

    /// Another one, which takes the place of the one at a path. The folder isn't brought to the disk.
    pub fn begin<R: Files<File = File>>(
        rt: &R,
        path: &str,
        of: RecordOf,
        length: u64,
    ) -> io::Result<RecordFile> {
        let new_path = format!(in of.alloc; "{path}.new")?;
        let file = make_anew(rt, new_path.as_str())?;
        of.put(&file, length)?;
        file.sync_all()?;
        fs::rename(rt, new_path.as_str(), path)?;
        RecordFile::of_file(of, file)
    }

    fn of_file(of: RecordOf, file: File) -> io::Result<RecordFile> {
        let identity = FileIdentity::of(&file.metadata()?);
        Ok(RecordFile { of, file, identity })
    }

    /// Notes on the disk that so many bytes are there. The text is shorter than a sector, which a disk writes whole or not at all.
    pub fn write(&self, length: u64) -> io::Result<()> {
        self.of.put(&self.file, length)?;
        self.file.sync_data()
    }

    /// Whether a path leads to it. Where another record has taken its place, or none, a start doesn't read what is written here.
    pub fn is_at<R: Files>(&self, rt: &R, path: &str) -> bool {
        match fs::metadata(rt, path) {
            Ok(found) => FileIdentity::of(&found) == self.identity,
            Err(_) => false,
        }
    }
}
