//! A volume's file, once it is written on: what isn't known to be on the disk is moved away, and its record begins.
ghost use Rattle.std.specs.Prelude.{◌≡◌};
ghost use Rattle.media_folder.specs.declared.store.FileAccess.TheVariants.{ReadOnly};

use crate::names::FilePaths;
use crate::notice::{Notice, tell};
use crate::record::RecordFile;
use crate::small_file::{make_new, remove_if_there};
use crate::store::{FileAccess, FileStore, Surroundings};
use crate::trust::Trust;
use std::alloc::{AllocError, Global};
use std::fs::{File, Files, OpenFile};
use std::io::{self, BufReader, ErrorKind, Seek, SeekFrom, Write};

/// So many tails of one volume are kept at most.
const MOST_TAILS: u32 = 1_000_000;

/// How many bytes of a tail are copied at once.
const AT_ONCE: usize = 131_072;

/// Why a volume's file isn't written on.
#[derive(Drop)]
enum Unwritable {
    NoMemory,
    /// The file at a path couldn't be made, changed or removed.
    At(String, io::Error),
}

impl From<AllocError> for Unwritable {
    fn from(_error: AllocError) -> Unwritable {
        Unwritable::NoMemory
    }
}

/// Why the file at a path couldn't be written.
fn cannot_write(alloc: Global, path: &str, error: io::Error) -> Unwritable {
    match (error.kind(), String::from_str(alloc, path)) {
        (ErrorKind::OutOfMemory, _) | (_, Err(_)) => Unwritable::NoMemory,
        (_, Ok(path)) => Unwritable::At(path, error),
    }
}

/// Begins to write a volume's file: bytes that it has after those that may be read are moved away, and its record says which are on the
/// disk. A protected file stays as it is. One that can't be written so is protected until the next start, and that is reported.
pub(crate) fn begin_writing<'a, R: AllocGlobal + Files<File = File>, E: Write>(
    rt: &R,
    store: &mut FileStore<'a, R>,
    trust: Trust,
    around: Surroundings<'a>,
    errors: &mut E,
) -> Result<(), AllocError>
    ensures path { store.new.path ≡ store.old.path }
    ensures protected { store.old.access ≡ ReadOnly → store.new ≡ store.old }
{
    match store.access() {
        FileAccess::ReadOnly => return Ok(()),
        FileAccess::ReadWrite => {}
    }
    match begin(rt, store, trust, around, errors) {
        Ok(()) => Ok(()),
        Err(Unwritable::NoMemory) => Err(AllocError),
        Err(Unwritable::At(file, error)) => {
            let path = store.paths().given.as_str();
            let file = file.as_str();
            tell(errors, &Notice::Unwritable { path, file, error });
            store.protect();
            Ok(())
        }
    }
}

/// The same of a file that may be written.
fn begin<'a, R: AllocGlobal + Files<File = File>, E: Write>(
    rt: &R,
    store: &mut FileStore<'a, R>,
    trust: Trust,
    around: Surroundings<'a>,
    errors: &mut E,
) -> Result<(), Unwritable>
    ensures { store.new ≡ store.old }
{
    let alloc = around.alloc;
    let new = store.new_paths(alloc)?;
    if let Err(error) = remove_if_there(rt, new.opened.as_str()) {
        return Err(cannot_write(alloc, new.given.as_str(), error));
    }
    move_tail(rt, store, trust.length, around, errors)?;
    let record = store.record_paths(alloc)?;
    match begin_record(rt, store, record.opened.as_str(), trust, around) {
        Ok(()) => Ok(()),
        Err(error) => Err(cannot_write(alloc, record.given.as_str(), error)),
    }
}

/// Moves what a file has after so many bytes into a file of its own.
fn move_tail<'a, R: AllocGlobal + Files<File = File>, E: Write>(
    rt: &R,
    store: &FileStore<'a, R>,
    size: u64,
    around: Surroundings<'a>,
    errors: &mut E,
) -> Result<(), Unwritable> {
    let path = store.paths().given.as_str();
    let length = match store.file().metadata() {
        Ok(metadata) => metadata.len(),
        Err(error) => return Err(cannot_write(around.alloc, path, error)),
    };
    if length <= size {
        return Ok(());
    }
    let tail = copy_tail(rt, store, size, around)?;
    if let Err(error) = cut(store.file(), size) {
        return Err(cannot_write(around.alloc, path, error));
    }
    let notice = Notice::TailMoved {
        path,
        count: length - size,
        tail: tail.given.as_str(),
    };
    tell(errors, &notice);
    Ok(())
}

/// Cuts a file back, and brings that to the disk.
fn cut(file: &File, size: u64) -> io::Result<()> {
    file.set_len(size)?;
    file.sync_data()
}

/// Copies what a file has after so many bytes into the first file of a tail that isn't there yet, and brings it to the disk. A tail that
/// wasn't finished is removed.
fn copy_tail<'a, R: AllocGlobal + Files<File = File>>(
    rt: &R,
    store: &FileStore<'a, R>,
    size: u64,
    around: Surroundings<'a>,
) -> Result<FilePaths, Unwritable> {
    let (file, tail) = make_tail(rt, store, around.alloc)?;
    let copied = match copy_from(around.alloc, store.file(), size, file) {
        Ok(()) => around.folder.sync(),
        Err(error) => Err(error),
    };
    match copied {
        Ok(()) => Ok(tail),
        Err(error) => {
            // What is left of it takes room, and says nothing that the image doesn't.
            let _ = remove_if_there(rt, tail.opened.as_str());
            Err(cannot_write(around.alloc, tail.given.as_str(), error))
        }
    }
}

/// Makes the first file of a volume's tail that isn't there yet.
fn make_tail<'a, R: AllocGlobal + Files<File = File>>(
    rt: &R,
    store: &FileStore<'a, R>,
    alloc: Global,
) -> Result<(File, FilePaths), Unwritable> {
    for number in 1..MOST_TAILS {
        let ending = format!(in alloc; ".tail.{number}")?;
        let tail = store.paths().with_other_ending(alloc, ending.as_str())?;
        match make_new(rt, tail.opened.as_str()) {
            Ok(file) => return Ok((file, tail)),
            Err(error) if error.kind() == ErrorKind::AlreadyExists => {}
            Err(error) => return Err(cannot_write(alloc, tail.given.as_str(), error)),
        }
    }
    let error = io::Error::new(ErrorKind::AlreadyExists, "it has too many tails");
    Err(cannot_write(alloc, store.paths().given.as_str(), error))
}

/// Copies a file from an offset on into another one, and brings that to the disk.
fn copy_from(alloc: Global, from: &File, offset: u64, mut to: File) -> io::Result<()> {
    let mut file = from;
    file.seek(SeekFrom::Start(offset))?;
    let mut reader = BufReader::with_capacity(alloc, AT_ONCE, from)?;
    io::copy(&mut reader, &mut to)?;
    to.sync_all()
}

/// Begins a file's record, at a path. Unless it says just this already, what the whole file has is brought to the disk, and then another
/// record takes the place of the one before, on the disk too.
fn begin_record<'a, R: AllocGlobal + Files<File = File>>(
    rt: &R,
    store: &mut FileStore<'a, R>,
    path: &str,
    trust: Trust,
    around: Surroundings<'a>,
) -> io::Result<()>
    ensures { store.new ≡ store.old }
{
    let of = store.record_of(around);
    let record = if trust.is_recorded {
        RecordFile::open(rt, path, of)?
    } else {
        store.file().sync_data()?;
        RecordFile::begin(rt, path, of, trust.length)?
    };
    around.folder.sync()?;
    store.begin_record(record, around);
    Ok(())
}
