//! How much of a volume's file may be read, by its record.
use crate::boot::BootId;
use crate::notice::{Notice, RecordFault, tell};
use crate::record::{MOST_BYTES, RecordOf, RecordText, SyncedRecord};
use crate::refusal::ImageRefusal;
use crate::small_file::{SmallFileFault, read_small_file};
use crate::store::FileStore;
use std::fs::{File, Files, OpenFile};
use std::io::Write;

/// How much of a volume's file may be read: no host has an answer by which more of it is kept.
#[derive(Clone, Copy)]
pub(crate) struct Trust {
    /// So many of its first bytes are on the disk, as its record says. Without a record of this file they are all that it has.
    pub length: u64,
    /// Whether its record has just the text that says so.
    pub is_recorded: bool,
}

impl Trust {
    /// Without a record all of the file is read.
    fn without_record(length: u64) -> Trust {
        Trust {
            length,
            is_recorded: false,
        }
    }
}

/// How much of a volume's file may be read. A record that isn't one of this file is reported, and passed over. One that can't be read is no
/// such record: the volume is refused.
pub(crate) fn trust_in<'a, R: AllocGlobal + Files<File = File>, E: Write>(
    rt: &R,
    store: &FileStore<'a, R>,
    boot: BootId,
    errors: &mut E,
) -> Result<Trust, ImageRefusal> {
    let length = store.file().metadata()?.len();
    let path = store.record_paths(rt.alloc())?;
    let bytes = match read_small_file(rt, path.opened.as_str(), MOST_BYTES) {
        Ok(Some(bytes)) => bytes,
        Ok(None) => return Ok(Trust::without_record(length)),
        Err(SmallFileFault::NotRegular) => return Err(ImageRefusal::RecordNotRegular),
        Err(SmallFileFault::System(error)) => return Err(ImageRefusal::of_record(error)),
        Err(SmallFileFault::TooLong) => {
            let (path, fault) = (path.given.as_str(), RecordFault::NoRecord);
            tell(errors, &Notice::RecordIgnored { path, fault });
            return Ok(Trust::without_record(length));
        }
    };
    let of = RecordOf {
        alloc: rt.alloc(),
        inode: store.identity().number(),
        boot,
    };
    match record_of(of, &bytes, length)? {
        Ok(record) => Ok(Trust {
            length: record.length,
            is_recorded: of.text(record.length)?.as_bytes() == bytes.as_slice(),
        }),
        Err(fault) => {
            let path = path.given.as_str();
            tell(errors, &Notice::RecordIgnored { path, fault });
            Ok(Trust::without_record(length))
        }
    }
}

/// The record that the bytes of its file are, if it is of a file with that number and of so many bytes; or why it isn't.
fn record_of(
    of: RecordOf,
    bytes: &[u8],
    length: u64,
) -> Result<Result<SyncedRecord, RecordFault>, ImageRefusal> {
    let record = match RecordText::read(of.alloc, bytes)? {
        RecordText::Record(record) => record,
        RecordText::Newer(version) => return Err(ImageRefusal::RecordVersion(version)),
        RecordText::Damaged => return Ok(Err(RecordFault::NoRecord)),
    };
    if record.inode != of.inode {
        return Ok(Err(RecordFault::AnotherFile));
    }
    if record.length > length {
        return Ok(Err(RecordFault::Longer {
            recorded: record.length,
            length,
        }));
    }
    Ok(Ok(record))
}
