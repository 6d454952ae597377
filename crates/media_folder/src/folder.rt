//! The folder, from its lock to its volumes.
ghost use Rattle.std.specs.Prelude.{◌<◌, ◌≤◌, IfOk};
ghost use Rattle.tape_medium.specs.Limits.{capacity_limit};
ghost use Rattle.media_folder.specs.Sizes.{IsUsable};
ghost use Rattle.media_folder.specs.Volumes.{AreRead, AreVolumesOf};

use crate::fault::FolderFault;
use crate::images::{
    FoundVolumes, KeptVolume, find_volumes, keep_volumes, make_volumes, protect_volumes,
    read_volumes,
};
use crate::inventory_file::{InventoryWrite, is_inventory_open, kept_inventory};
use crate::inventory_text::KeptLibrary;
use crate::library_folder::{LibraryFolder, is_folder_open};
use crate::names::{FolderPaths, volume_path};
use crate::notice::{Notice, tell};
use crate::profile::{decide_profile, number_profile};
use crate::size::{decide_size, least_volumes};
use crate::wanted::WantedLibrary;
use library_inventory::{
    Inventory, LibrarySize, PlacedVolume, Start, StartProfile, place, unused_of,
};
use program_options::LibraryProfile;
use std::alloc::{AllocError, Global};
use std::fs::{File, Files};
use std::io::Write;
use std::random::RandomSource;
use tape_medium::{MemoryLimit, VolumeTag};

/// A folder that is opened: the profile of its library and what it is made of, its volumes, and those that are missing, with the elements
/// in which they were.
#[derive(Drop)]
pub struct OpenedFolder<'a, R: Files<File = File>> {
    pub profile: LibraryProfile,
    pub size: LibrarySize,
    pub volumes: Vec<KeptVolume<'a, R>>,
    pub missing: Vec<PlacedVolume>,
    /// Whether it may be served before its inventory is written.
    pub inventory: InventoryWrite,
}

/// What was read of a folder, in which nothing was changed yet.
#[derive(Drop)]
pub(crate) struct ReadLibrary<'a, R: Files<File = File>> {
    pub profile: StartProfile,
    pub size: LibrarySize,
    pub found: FoundVolumes<'a, R>,
    /// The tags of blank volumes that the inventory's file asks for. They have elements as those that were found.
    pub blank: Vec<VolumeTag>,
    pub start: Start,
}

/// Opens the volumes of a library in its folder. First everything in it is read: a volume whose file can't be served is left out, and one whose file isn't
/// there is missing. Then the volumes that the inventory's file wants write-protected are, the blank ones that it wants are made, and
/// others, until there are as many as were asked for. Each volume takes `volume_size` bytes of
/// blocks, or as many as it has where these are more, and all take no more memory together than the limit says. What is lost, left or
/// missing is reported on `errors`. The inventory is read and not written. What is wanted of the library is held against it first. A library
/// of the hosts' profile that has no number yet gets one before anything is made.
pub fn open_folder<'a, R: AllocGlobal + Files<File = File> + RandomSource, E: Write>(
    rt: &'a R,
    folder: &'a LibraryFolder,
    wanted: WantedLibrary,
    volume_size: u64,
    memory: &MemoryLimit,
    errors: &mut E,
) -> Result<OpenedFolder<'a, R>, FolderFault>
    requires some { 0 < volume_size }
    requires within { volume_size ≤ capacity_limit }
    ensures size { IfOk result (λ opened. IsUsable opened.size) }
    ensures volumes { IfOk result (λ opened. AreVolumesOf folder.entry.now opened.volumes.items) }
{
    let paths = folder.paths();
    let kept = kept_inventory(rt, paths, wanted.without)?;
    let read = read_library(rt, paths, &kept, &wanted, volume_size, memory, errors)?;
    let ReadLibrary {
        profile,
        size,
        mut found,
        blank: mut made,
        start: Start {
            volumes: placed,
            made: more,
            missing,
        },
    } = read;
    let profile = number_profile(rt, profile)?;
    let inventory = InventoryWrite::of_start(&kept, profile);
    tell_profile(folder.path(), &kept, profile, errors);
    protect_volumes(rt, folder, wanted_protected(&kept))?;
    made.extend_from_slice(&more)?;
    make_volumes(rt, folder, &made)?;
    find_volumes(rt, paths, &made, volume_size, memory, &mut found, errors)?;
    let volumes = keep_volumes(rt, folder, found, &placed, errors)?;
    Ok(OpenedFolder {
        profile,
        size,
        volumes,
        missing,
        inventory,
    })
}

/// Reads what is in a folder next to its inventory, and decides what its library is made of, which profile it has and where its volumes are.
pub(crate) fn read_library<'a, R: AllocGlobal + Files<File = File>, E: Write>(
    rt: &'a R,
    folder: FolderPaths<'_>,
    kept: &Option<KeptLibrary>,
    wanted: &WantedLibrary,
    volume_size: u64,
    memory: &MemoryLimit,
    errors: &mut E,
) -> Result<ReadLibrary<'a, R>, FolderFault>
    requires some { 0 < volume_size }
    requires within { volume_size ≤ capacity_limit }
    ensures size { IfOk result (λ read. IsUsable read.size) }
    ensures volumes { IfOk result (λ read. AreRead folder.entry.given.now read.found.volumes.items) }
{
    let (size_before, profile_before) = match kept {
        Some(kept) => (Some(kept.inventory.size()), Some(kept.inventory.profile())),
        None => (None, None),
    };
    let size = decide_size(&wanted.given, size_before)?;
    let profile = decide_profile(&wanted.profile, profile_before)?;
    let mut protect = Vec::new(rt.alloc());
    protect.extend_from_slice(wanted_protected(kept))?;
    let found = read_volumes(
        rt,
        folder,
        profile.profile(),
        protect,
        volume_size,
        memory,
        errors,
    )?;
    if found.is_nothing_served() {
        let path = String::from_str(rt.alloc(), folder.given)?;
        return Err(FolderFault::NothingServed(path));
    }
    look_for_protected(rt, folder.given, wanted_protected(kept), &found)?;
    let blank = blank_tags(rt.alloc(), kept, &found)?;
    let least = least_volumes(&wanted.given, size_before);
    let start = start_of(rt.alloc(), size, least, kept, &found, &blank)?;
    tell_blank(rt, folder.given, kept, &blank, errors)?;
    tell_new(rt, folder.given, kept, &found, &start.volumes, errors)?;
    tell_missing(rt, folder.given, &start.missing, &found.left_out, errors)?;
    tell_open(rt, folder, found.is_open, errors)?;
    Ok(ReadLibrary {
        profile,
        size,
        found,
        blank,
        start,
    })
}

/// The tags of volumes that are to be write-protected.
fn wanted_protected(kept: &Option<KeptLibrary>) -> &[VolumeTag] {
    match kept {
        Some(kept) => &kept.protect,
        None => &[],
    }
}

/// Refuses to protect a volume whose file isn't there: its name may be wrong.
fn look_for_protected<'a, R: AllocGlobal + Files<File = File>>(
    rt: &R,
    folder: &str,
    protect: &[VolumeTag],
    found: &FoundVolumes<'a, R>,
) -> Result<(), FolderFault> {
    for tag in protect {
        if !found.has(*tag) {
            let path = volume_path(rt.alloc(), folder, tag)?;
            return Err(FolderFault::NothingToProtect(path));
        }
    }
    Ok(())
}

/// The tags of blank volumes that are asked for and that nothing else has.
fn blank_tags<'a, R: Files<File = File>>(
    alloc: Global,
    kept: &Option<KeptLibrary>,
    found: &FoundVolumes<'a, R>,
) -> Result<Vec<VolumeTag>, AllocError> {
    match kept {
        Some(kept) => unused_of(
            alloc,
            &kept.blank,
            kept.inventory.volumes(),
            kept.inventory.missing(),
            &found.tags(alloc)?,
            &found.left_out,
        ),
        None => Ok(Vec::new(alloc)),
    }
}

/// Where the volumes of a library are, by its inventory and the files that are there, or are to be made for blank volumes.
pub(crate) fn start_of<'a, R: Files<File = File>>(
    alloc: Global,
    size: LibrarySize,
    least: u16,
    kept: &Option<KeptLibrary>,
    found: &FoundVolumes<'a, R>,
    blank: &[VolumeTag],
) -> Result<Start, FolderFault> {
    let (named, missing): (&[PlacedVolume], &[PlacedVolume]) = match kept {
        Some(kept) => (kept.inventory.volumes(), kept.inventory.missing()),
        None => (&[], &[]),
    };
    let mut images = found.tags(alloc)?;
    images.extend_from_slice(blank)?;
    match place(
        alloc,
        size.slots,
        least,
        named,
        missing,
        &images,
        &found.left_out,
    ) {
        Ok(start) => Ok(start),
        Err(fault) => Err(FolderFault::of_start(fault)),
    }
}

/// Reports blank volumes that aren't made, since something has their tags.
fn tell_blank<R: AllocGlobal, E: Write>(
    rt: &R,
    folder: &str,
    kept: &Option<KeptLibrary>,
    blank: &[VolumeTag],
    errors: &mut E,
) -> Result<(), FolderFault> {
    let Some(kept) = kept else {
        return Ok(());
    };
    for tag in &kept.blank {
        if blank.iter().any(|made| *made == *tag) {
            continue;
        }
        let path = volume_path(rt.alloc(), folder, tag)?;
        let path = path.as_str();
        tell(errors, &Notice::NotBlank { path });
    }
    Ok(())
}

/// Whether an inventory names a volume, also as one that was missing.
fn is_named(inventory: &Inventory, tag: VolumeTag) -> bool {
    inventory.volumes().iter().any(|volume| volume.tag == tag)
        || inventory.missing().iter().any(|volume| volume.tag == tag)
}

/// Reports volumes whose files are there and that an inventory doesn't name.
fn tell_new<'a, R: AllocGlobal + Files<File = File>, E: Write>(
    rt: &R,
    folder: &str,
    kept: &Option<KeptLibrary>,
    found: &FoundVolumes<'a, R>,
    placed: &[PlacedVolume],
    errors: &mut E,
) -> Result<(), FolderFault> {
    let Some(kept) = kept else {
        return Ok(());
    };
    for volume in placed {
        if is_named(&kept.inventory, volume.tag) || !found.has(volume.tag) {
            continue;
        }
        let path = volume_path(rt.alloc(), folder, &volume.tag)?;
        let notice = Notice::New {
            path: path.as_str(),
            element: volume.element,
        };
        tell(errors, &notice);
    }
    Ok(())
}

/// Reports that users other than the owner of a folder, or of a file in it, may read or write that.
fn tell_open<R: AllocGlobal + Files, E: Write>(
    rt: &R,
    folder: FolderPaths<'_>,
    is_image_open: bool,
    errors: &mut E,
) -> Result<(), FolderFault> {
    if is_image_open || is_folder_open(rt, folder.opened) || is_inventory_open(rt, folder)? {
        let folder = folder.given;
        tell(errors, &Notice::OpenToOthers { folder });
    }
    Ok(())
}

/// Reports that a library which was kept with the default profile is of the hosts' profile from now on.
fn tell_profile<E: Write>(
    folder: &str,
    kept: &Option<KeptLibrary>,
    profile: LibraryProfile,
    errors: &mut E,
) {
    let Some(kept) = kept else {
        return;
    };
    let before = kept.inventory.profile();
    if let (LibraryProfile::Spec, LibraryProfile::Hosts(number)) = (before, profile) {
        tell(errors, &Notice::ForHosts { folder, number });
    }
}

/// Reports missing volumes whose files aren't there. Why a volume is left out was reported before.
fn tell_missing<R: AllocGlobal, E: Write>(
    rt: &R,
    folder: &str,
    missing: &[PlacedVolume],
    left_out: &[VolumeTag],
    errors: &mut E,
) -> Result<(), FolderFault> {
    for volume in missing {
        if left_out.iter().any(|tag| *tag == volume.tag) {
            continue;
        }
        let path = volume_path(rt.alloc(), folder, &volume.tag)?;
        let notice = Notice::Missing {
            path: path.as_str(),
            element: volume.element,
        };
        tell(errors, &notice);
    }
    Ok(())
}
