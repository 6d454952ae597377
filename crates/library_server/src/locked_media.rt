//! The folder of a library that is kept, from which other programs are locked out.

ghost use Rattle.std.specs.Prelude.{◌≡◌, None, IfOk};

use command_line::MediaOptions;
use media_folder::{FolderFault, LibraryFolder, WantedLibrary, lock_folder};
use std::io::Write;
use std::sync::Wait;
use std::thread;
use std::time::{Clock, Duration};

/// How many milliseconds pass between two tries to take the locks of a folder.
const PAUSE: u64 = 500;

/// A library's folder, which no other program has as long as this exists, and what is wanted of the library.
#[derive(Drop)]
pub(crate) struct LockedMedia {
    pub folder: LibraryFolder,
    pub wanted: WantedLibrary,
}

/// Takes the locks of the folder in which a library is kept, if it is. Where another program has it, that is waited for as long as is asked
/// for: the server of a file system that machines share may give a machine's lock back some time after that has stopped.
pub(crate) fn locked_media<R: Clock + Wait, E: Write>(
    rt: &R,
    files: &HostRuntime,
    media: Option<MediaOptions>,
    errors: &mut E,
) -> Result<Option<LockedMedia>, FolderFault>
    ensures { IfOk result (λ locked. locked ≡ None → media ≡ None) }
{
    match media {
        Some(media) => Ok(Some(locked(rt, files, media, errors)?)),
        None => Ok(None),
    }
}

/// Tells for how long a folder is waited for. Where the line can't be written there is nobody to tell.
fn tell_wait<E: Write>(errors: &mut E, folder: &str, wait: u32) {
    let _ = writeln!(
        errors,
        "vtl: another program has {folder}: waiting up to {wait} seconds for it"
    );
}

fn locked<R: Clock + Wait, E: Write>(
    rt: &R,
    files: &HostRuntime,
    media: MediaOptions,
    errors: &mut E,
) -> Result<LockedMedia, FolderFault> {
    let MediaOptions {
        folder,
        without,
        wait,
        given,
        profile,
    } = media;
    let path = folder.as_str();
    let wanted = WantedLibrary {
        without,
        given,
        profile,
    };
    for turn in 0..2 * u64::from(wait) {
        match lock_folder(files, path, without) {
            Ok(folder) => return Ok(LockedMedia { folder, wanted }),
            Err(FolderFault::InUse(_)) => {}
            Err(fault) => return Err(fault),
        }
        if turn == 0 {
            tell_wait(errors, path, wait);
        }
        thread::sleep(rt, Duration::from_millis(PAUSE));
    }
    let folder = lock_folder(files, path, without)?;
    Ok(LockedMedia { folder, wanted })
}
