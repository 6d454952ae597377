//! Files of a known form that are read whole, and files that are made anew.
use crate::rights::NEW_FILE;
use std::fs::{self, File, Files, OpenOptions};
use std::io::{self, ErrorKind, Read};
use std::os::unix::fs::OpenOptionsExt;

/// Why a small file isn't read.
#[derive(Clone, Copy)]
pub(crate) enum SmallFileFault {
    /// Reading it might never end.
    NotRegular,
    /// It has more bytes than such a file can have.
    TooLong,
    System(io::Error),
}

impl From<io::Error> for SmallFileFault {
    fn from(error: io::Error) -> SmallFileFault {
        SmallFileFault::System(error)
    }
}

/// What the file at a path has, if there is one: at most so many bytes. Links are followed. What isn't a regular file isn't opened.
pub(crate) fn read_small_file<R: AllocGlobal + Files>(
    rt: &R,
    path: &str,
    most: u64,
) -> Result<Option<Vec<u8>>, SmallFileFault> {
    match fs::metadata(rt, path) {
        Ok(metadata) if metadata.is_file() => {}
        Ok(_) => return Err(SmallFileFault::NotRegular),
        Err(error) if error.kind() == ErrorKind::NotFound => return Ok(None),
        Err(error) => return Err(SmallFileFault::System(error)),
    }
    let mut bytes = Vec::new(rt.alloc());
    fs::open(rt, path)?
        .take(most.saturating_add(1))
        .read_to_end(&mut bytes)?;
    if bytes.len() as u64 > most {
        return Err(SmallFileFault::TooLong);
    }
    Ok(Some(bytes))
}

/// A new file at a path, to be written. What is there is removed and not opened: it may be a pipe, for whose reader an open would wait, or a
/// link to a file that is none of this library.
pub(crate) fn make_anew<R: Files<File = File>>(rt: &R, path: &str) -> io::Result<File> {
    remove_if_there(rt, path)?;
    make_new(rt, path)
}

/// A new file at a path where there is none, to be written.
pub(crate) fn make_new<R: Files<File = File>>(rt: &R, path: &str) -> io::Result<File> {
    OpenOptions::new()
        .write(true)
        .create_new(true)
        .mode(NEW_FILE)
        .open(rt, path)
}

/// Removes the file at a path, if there is one.
pub(crate) fn remove_if_there<R: Files>(rt: &R, path: &str) -> io::Result<()> {
    match fs::remove_file(rt, path) {
        Ok(()) => Ok(()),
        Err(error) if error.kind() == ErrorKind::NotFound => Ok(()),
        Err(error) => Err(error),
    }
}
