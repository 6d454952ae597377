//! What would be served, while nothing is: no lock is taken, nobody listens, and no file is changed.

ghost use Rattle.std.specs.Prelude.{◌≡◌, ◌<◌, ◌≤◌};
ghost use Rattle.tape_medium.specs.Limits.{capacity_limit};
ghost use Rattle.command_line.specs.Tasks.{IsServeOptions, MakesServed};
ghost use Rattle.library_inventory.specs.Profiles.{as_kept};

use crate::iscsi_target::target_of;
use crate::served_lines::{ServedPlaces, ServedTerms, write_served};
use crate::socket::{memory_limit, tell_larger};
use crate::socket_fault::SocketFault;
use command_line::{MediaOptions, ServeOptions};
use library_inventory::{LibrarySize, Start, StartProfile, place};
use media_folder::{PlannedFolder, PlannedImage, PlannedVolume, WantedLibrary, plan_folder};
use output_lines::Audit;
use program_options::{LibraryOptions, LibraryProfile};
use read_only_files::ReadOnlyFiles;
use record_file::{FileFault, look_at};
use std::alloc::{AllocError, Global};
use std::fs::{File, Files};
use std::io::Write;

/// Reads all that a start reads, and writes to `out` what would be served, or answers the fault that a start would have. All files are
/// read by a handle that changes none. Whether the folder is another server's, whether files can be written, and whether places are free
/// is left open, so it may run next to a server.
pub fn check_serving<R: AllocGlobal + Files<File = File>, W: Write, E: Write>(
    rt: &R,
    options: LibraryOptions,
    profile: LibraryProfile,
    serving: ServeOptions,
    audit: Audit,
    out: &mut W,
    errors: &mut E,
) -> Result<(), SocketFault>
    requires library { MakesServed options serving.media }
    requires some { IsServeOptions serving }
{
    let files = ReadOnlyFiles::new(rt);
    let ServeOptions {
        socket,
        control,
        metrics,
        iscsi,
        media,
        memory,
        until,
        drain,
        record_file,
        times,
        log: _,
    } = serving;
    let made = target_of(&files, iscsi)?;
    if let Some(file) = &record_file {
        look_at_file(rt.alloc(), &files, file.path.as_str())?;
    }
    let size = options.volume_size;
    let library = match media {
        Some(media) => {
            let planned = planned_library(&files, media, size, memory, errors)?;
            tell_larger(planned.volumes.len(), size, memory, errors);
            planned
        }
        None => planned_in_memory(rt.alloc(), &options, profile)?,
    };
    let places = ServedPlaces {
        socket: &socket,
        control: &control,
        metrics,
        made: &made,
        until,
    };
    let terms = ServedTerms {
        volume_size: size,
        memory,
        drain,
        audit,
        record_file: &record_file,
        times,
    };
    write_served(out, &places, &library, &terms).map_err(|_| SocketFault::Lines)
}

/// Looks whether there can be a file of records at a path.
fn look_at_file<R: Files>(alloc: Global, files: &R, path: &str) -> Result<(), SocketFault> {
    match look_at(files, path) {
        Ok(()) => Ok(()),
        Err(why) => Err(SocketFault::Records(FileFault {
            path: String::from_str(alloc, path)?,
            why,
        })),
    }
}

/// What would be served of the folder of a library.
fn planned_library<R: AllocGlobal + Files<File = File>, E: Write>(
    files: &R,
    media: MediaOptions,
    volume_size: u64,
    memory: Option<u64>,
    errors: &mut E,
) -> Result<PlannedFolder, SocketFault>
    requires some { 0 < volume_size }
    requires within { volume_size ≤ capacity_limit }
{
    let MediaOptions {
        folder,
        without,
        wait: _,
        given,
        profile,
    } = media;
    let wanted = WantedLibrary {
        without,
        given,
        profile,
    };
    let limit = memory_limit(files.alloc(), memory)?;
    Ok(plan_folder(files, folder, wanted, volume_size, &limit, errors)?)
}

/// What would be served of a library that is in no folder.
fn planned_in_memory(
    alloc: Global,
    options: &LibraryOptions,
    profile: LibraryProfile,
) -> Result<PlannedFolder, SocketFault> {
    let size = LibrarySize {
        drives: options.drives,
        slots: options.slots,
        import_exports: options.import_exports,
    };
    let start = match place(alloc, size.slots, options.volumes, &[], &[], &[], &[]) {
        Ok(start) => start,
        // There is a storage element for each volume.
        Err(_) => return Err(SocketFault::from(AllocError)),
    };
    let Start {
        volumes: placed,
        missing,
        ..
    } = start;
    let mut volumes = Vec::with_capacity(alloc, placed.len())?;
    for volume in &placed {
        volumes
            .push(PlannedVolume {
                tag: volume.tag,
                element: volume.element,
                image: PlannedImage::Made,
            })
            .map_err(AllocError::from)?;
    }
    Ok(PlannedFolder {
        profile: start_profile_of(profile),
        size,
        volumes,
        missing,
    })
}

/// The profile of a library that is in no folder, with its number.
fn start_profile_of(profile: LibraryProfile) -> StartProfile
    ensures { result ≡ as_kept profile }
{
    match profile {
        LibraryProfile::Spec => StartProfile::Spec,
        LibraryProfile::Hosts(number) => StartProfile::Hosts(Some(number)),
    }
}
