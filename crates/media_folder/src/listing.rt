//! Which volumes have files in a folder.
use crate::fault::FolderFault;
use crate::names::{FileKind, FolderPaths, kind_of};
use crate::notice::{Notice, tell};
use std::alloc::AllocError;
use std::fs::{self, Files};
use std::io::{self, ErrorKind, Write};
use tape_medium::VolumeTag;

/// The tags of the volumes whose files are in a folder, in their order. What has the ending of such a file and no volume's name is reported
/// and left alone.
pub(crate) fn list_volumes<R: AllocGlobal + Files, E: Write>(
    rt: &R,
    folder: FolderPaths<'_>,
    errors: &mut E,
) -> Result<Vec<VolumeTag>, FolderFault> {
    let mut tags = Vec::new(rt.alloc());
    match note_volumes(rt, folder, &mut tags, errors) {
        Ok(()) => {}
        Err(error) => {
            let path = String::from_str(rt.alloc(), folder.given)?;
            return Err(FolderFault::of_reading(path, error));
        }
    }
    tags.sort_unstable();
    Ok(tags)
}

fn note_volumes<R: AllocGlobal + Files, E: Write>(
    rt: &R,
    folder: FolderPaths<'_>,
    tags: &mut Vec<VolumeTag>,
    errors: &mut E,
) -> io::Result<()> {
    for entry in fs::read_dir(&rt, folder.opened)? {
        match entry {
            Ok(entry) => note_volume(entry.file_name(), folder.given, tags, errors)?,
            Err(error) if error.kind() == ErrorKind::InvalidFilename => {
                let folder = folder.given;
                tell(errors, &Notice::NoText { folder });
            }
            Err(error) => return Err(error),
        }
    }
    Ok(())
}

fn note_volume<E: Write>(
    name: &str,
    folder: &str,
    tags: &mut Vec<VolumeTag>,
    errors: &mut E,
) -> Result<(), AllocError> {
    match kind_of(name) {
        FileKind::Volume(tag) => tags.push(tag)?,
        FileKind::NoTag => tell(errors, &Notice::NoTag { folder, name }),
        FileKind::Other => {}
    }
    Ok(())
}
