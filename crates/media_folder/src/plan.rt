//! What a start would open in a folder, while nothing in it is changed.
ghost use Rattle.std.specs.Prelude.{◌≡◌, ◌<◌, ◌≤◌, IfOk};
ghost use Rattle.tape_medium.specs.Limits.{capacity_limit};
ghost use Rattle.media_folder.specs.Sizes.{IsUsable};

use crate::boot::BootId;
use crate::fault::FolderFault;
use crate::folder::{ReadLibrary, read_library, start_of};
use crate::images::FoundVolumes;
use crate::inventory_file::kept_inventory;
use crate::names::FolderPaths;
use crate::profile::decide_profile;
use crate::reading::ReadVolume;
use crate::size::{decide_size, least_volumes};
use crate::wanted::WantedLibrary;
use library_inventory::{Element, LibrarySize, PlacedVolume, Start, StartProfile};
use program_options::WithoutLibrary;
use std::alloc::AllocError;
use std::fs::{self, File, Files};
use std::io::{self, ErrorKind, Write};
use tape_medium::{MemoryLimit, VolumeTag};

/// The image of a volume, as a start would have it.
#[derive(Clone, Copy)]
pub enum PlannedImage {
    /// There is none: a blank volume would be made.
    Made,
    /// It has so many blocks and filemarks. Its mode or the system may let no user write it.
    Read { objects: u32, is_protected: bool },
}

/// A volume that would be served.
#[derive(Clone, Copy)]
pub struct PlannedVolume {
    pub tag: VolumeTag,
    pub element: Element,
    pub image: PlannedImage,
}

/// What would be served of a folder, and the volumes that are missing, with the elements in which they were.
#[derive(Drop)]
pub struct PlannedFolder {
    /// The profile of the library. A start would draw the number that one of the hosts' profile doesn't have yet.
    pub profile: StartProfile,
    pub size: LibrarySize,
    pub volumes: Vec<PlannedVolume>,
    pub missing: Vec<PlacedVolume>,
}

/// Reads the folder of a library as a start reads it, without its lock, and answers what a start would serve, or why it would not. `rt` needs
/// change no file. Whether the folder could be locked and written is left open.
pub fn plan_folder<R: AllocGlobal + Files<File = File>, E: Write>(
    rt: &R,
    path: String,
    wanted: WantedLibrary,
    volume_size: u64,
    memory: &MemoryLimit,
    errors: &mut E,
) -> Result<PlannedFolder, FolderFault>
    requires some { 0 < volume_size }
    requires within { volume_size ≤ capacity_limit }
    ensures { IfOk result (λ planned. IsUsable planned.size) }
{
    if is_to_be_made(rt, path.as_str(), wanted.without)? {
        return plan_new(rt, &wanted);
    }
    let folder = FolderPaths::by_path(path.as_str());
    let kept = kept_inventory(rt, folder, wanted.without)?;
    let read = read_library(rt, folder, &kept, &wanted, volume_size, memory, errors)?;
    planned_of(rt, read)
}

/// Whether there is no folder at a path, and one would be made.
fn is_to_be_made<R: AllocGlobal + Files>(
    rt: &R,
    path: &str,
    without: WithoutLibrary,
) -> Result<bool, FolderFault> {
    let error = match fs::metadata(rt, path) {
        Ok(metadata) if metadata.is_dir() => return Ok(false),
        Ok(_) => io::Error::from(ErrorKind::NotADirectory),
        Err(error) => error,
    };
    match (without, error.kind()) {
        (WithoutLibrary::Make, ErrorKind::NotFound) => Ok(true),
        (WithoutLibrary::Make, _) => {
            Err(FolderFault::CannotMake(String::from_str(rt.alloc(), path)?, error))
        }
        (WithoutLibrary::Refuse, _) => {
            Err(FolderFault::of_folder(String::from_str(rt.alloc(), path)?, error))
        }
    }
}

/// What would be served where a folder is made.
fn plan_new<R: AllocGlobal + Files<File = File>>(
    rt: &R,
    wanted: &WantedLibrary,
) -> Result<PlannedFolder, FolderFault>
    ensures { IfOk result (λ planned. IsUsable planned.size) }
{
    let size = decide_size(&wanted.given, None)?;
    let profile = decide_profile(&wanted.profile, None)?;
    let found: FoundVolumes<'_, R> = FoundVolumes::new(
        rt.alloc(),
        BootId::Unknown,
        profile.profile(),
        Vec::new(rt.alloc()),
    );
    let least = least_volumes(&wanted.given, None);
    let start = start_of(rt.alloc(), size, least, &None, &found, &[])?;
    let read = ReadLibrary {
        profile,
        size,
        found,
        blank: Vec::new(rt.alloc()),
        start,
    };
    planned_of(rt, read)
}

/// What would be served of a library that was read.
fn planned_of<'a, R: AllocGlobal + Files<File = File>>(
    rt: &R,
    read: ReadLibrary<'a, R>,
) -> Result<PlannedFolder, FolderFault>
    ensures { IfOk result (λ planned. planned.size ≡ read.entry.size) }
{
    let ReadLibrary {
        profile,
        size,
        found,
        blank: _,
        start,
    } = read;
    let Start {
        volumes: placed,
        made: _,
        missing,
    } = start;
    let mut volumes = Vec::with_capacity(rt.alloc(), placed.len())?;
    for volume in &placed {
        let PlacedVolume { tag, element, .. } = *volume;
        let image = image_of(&found.volumes, tag);
        volumes
            .push(PlannedVolume {
                tag,
                element,
                image,
            })
            .map_err(AllocError::from)?;
    }
    Ok(PlannedFolder {
        profile,
        size,
        volumes,
        missing,
    })
}

/// The image of the volume with a tag.
fn image_of<'a, R: Files<File = File>>(
    volumes: &[ReadVolume<'a, R>],
    tag: VolumeTag,
) -> PlannedImage {
    match volumes.iter().find(|read| read.volume.tag == tag) {
        Some(read) => PlannedImage::Read {
            objects: read.volume.tape.object_count(),
            is_protected: read.volume.protected,
        },
        None => PlannedImage::Made,
    }
}
