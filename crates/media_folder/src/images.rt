//! The files of a folder's volumes: all of them are read first, and only then files are made and written.
ghost use Rattle.std.specs.Prelude.{◌≡◌, ◌<◌, ◌≤◌, [], string_bytes, IfOk, OnOk};
ghost use Rattle.media_folder.specs.declared.store.FileAccess.TheVariants.{ReadOnly};
ghost use Rattle.tape_medium.specs.Limits.{capacity_limit};
ghost use Rattle.media_folder.specs.Stores.{is_read_only};
ghost use Rattle.media_folder.specs.Volumes.{AreRead, AreVolumesOf};

use crate::beginning::begin_writing;
use crate::boot::BootId;
use crate::fault::FolderFault;
use crate::inventory_file::sync_folder;
use crate::library_folder::LibraryFolder;
use crate::listing::list_volumes;
use crate::names::{FilePaths, FolderPaths};
use crate::notice::{Notice, tell};
use crate::reading::{ReadVolume, VolumeFile, read_volume};
use crate::refusal::ImageRefusal;
use crate::rights::{is_open_to_others, is_write_protected};
use crate::seen::SeenFiles;
use crate::small_file::make_new;
use crate::store::{FileAccess, FileStore, Surroundings};
use library_inventory::{Element, PlacedVolume};
use scsi_cdb::Profile;
use std::alloc::{AllocError, Global};
use std::fs::{self, File, Files};
use std::io::{self, Write};
use std::os::unix::fs::PermissionsExt;
use tape_flush::{SavedImage, open_image};
use tape_medium::{MemoryLimit, Volume, VolumeTag};

/// A volume that is kept in a file, and the element in which it is. It is protected where its file can't be written.
#[derive(Drop)]
pub struct KeptVolume<'a, R: Files<File = File>> {
    pub element: Element,
    /// Of a volume in a drive the element where it was last outside drives, if that is known.
    pub source: Option<Element>,
    pub volume: Volume,
    pub image: SavedImage<FileStore<'a, R>>,
}

/// What was read of the files of a folder's volumes.
#[derive(Drop)]
pub(crate) struct FoundVolumes<'a, R: Files<File = File>> {
    pub volumes: Vec<ReadVolume<'a, R>>,
    /// The tags of those that are left out, since their files can't be served.
    pub left_out: Vec<VolumeTag>,
    /// Whether users other than the owner of one of the files may read or write it.
    pub is_open: bool,
    /// The tags of those that are write-protected from now on, whatever the modes of their files.
    protect: Vec<VolumeTag>,
    seen: SeenFiles,
    /// The profile of the library, whose tapes they are.
    profile: Profile,
    /// The run of the machine in which they were read.
    boot: BootId,
}

impl<'a, R: Files<File = File>> FoundVolumes<'a, R> {
    pub fn new(
        alloc: Global,
        boot: BootId,
        profile: Profile,
        protect: Vec<VolumeTag>,
    ) -> FoundVolumes<'a, R>
        ensures { result.volumes.items ≡ [] }
    {
        FoundVolumes {
            volumes: Vec::new(alloc),
            left_out: Vec::new(alloc),
            is_open: false,
            protect,
            seen: SeenFiles::new(alloc),
            profile,
            boot,
        }
    }

    /// Whether there are files of volumes, and none of them can be served.
    pub fn is_nothing_served(&self) -> bool {
        self.volumes.is_empty() && !self.left_out.is_empty()
    }

    /// Whether there is a file of the volume with a tag.
    pub fn has(&self, tag: VolumeTag) -> bool {
        self.volumes.iter().any(|read| read.volume.tag == tag)
            || self.left_out.iter().any(|left_out| *left_out == tag)
    }

    /// The tags of the volumes.
    pub fn tags(&self, alloc: Global) -> Result<Vec<VolumeTag>, AllocError> {
        self.volumes
            .iter()
            .map(|read| read.volume.tag)
            .collect(alloc)
    }
}

/// Reads the files of a folder's volumes, of a library of a profile, each for `volume_size` bytes of blocks, or for those that it has where
/// these are more, which take no more memory together than the limit says. Those with the tags of `protect` are write-protected. A volume
/// whose file can't be served is reported and left out.
pub(crate) fn read_volumes<'a, R: AllocGlobal + Files<File = File>, E: Write>(
    rt: &'a R,
    folder: FolderPaths<'_>,
    profile: Profile,
    protect: Vec<VolumeTag>,
    volume_size: u64,
    memory: &MemoryLimit,
    errors: &mut E,
) -> Result<FoundVolumes<'a, R>, FolderFault>
    requires some { 0 < volume_size }
    requires within { volume_size ≤ capacity_limit }
    ensures { IfOk result (λ found. AreRead folder.entry.given.now found.volumes.items) }
{
    let tags = list_volumes(rt, folder, errors)?;
    let mut found = FoundVolumes::new(rt.alloc(), BootId::now(rt), profile, protect);
    find_volumes(rt, folder, &tags, volume_size, memory, &mut found, errors)?;
    Ok(found)
}

/// Reads the files of volumes, after others that were found.
pub(crate) fn find_volumes<'a, R: AllocGlobal + Files<File = File>, E: Write>(
    rt: &'a R,
    folder: FolderPaths<'_>,
    tags: &[VolumeTag],
    volume_size: u64,
    memory: &MemoryLimit,
    found: &mut FoundVolumes<'a, R>,
    errors: &mut E,
) -> Result<(), FolderFault>
    requires some { 0 < volume_size }
    requires within { volume_size ≤ capacity_limit }
    ensures { AreRead folder.entry.given.now found.old.volumes.items → OnOk result (AreRead folder.entry.given.now found.new.volumes.items) }
{
    'tags: for tag in tags {
        find_volume(rt, folder, *tag, volume_size, memory, found, errors)?;
    }
    Ok(())
}

/// Reads the file of one volume, after others that were found.
fn find_volume<'a, R: AllocGlobal + Files<File = File>, E: Write>(
    rt: &'a R,
    folder: FolderPaths<'_>,
    tag: VolumeTag,
    volume_size: u64,
    memory: &MemoryLimit,
    found: &mut FoundVolumes<'a, R>,
    errors: &mut E,
) -> Result<(), FolderFault>
    requires some { 0 < volume_size }
    requires within { volume_size ≤ capacity_limit }
    ensures { AreRead folder.entry.given.now found.old.volumes.items → OnOk result (AreRead folder.entry.given.now found.new.volumes.items) }
{
    let paths = folder.volume(rt.alloc(), &tag)?;
    match read_unseen(rt, &paths, tag, volume_size, memory, found, errors) {
        Ok(read) => found.volumes.push(read).map_err(AllocError::from)?,
        Err(ImageRefusal::NoMemory) => return Err(FolderFault::NoMemory),
        Err(refusal) => {
            let path = paths.given.as_str();
            tell(errors, &Notice::LeftOut { path, refusal });
            found.left_out.push(tag).map_err(AllocError::from)?;
        }
    }
    Ok(())
}

/// Reads the file at a path as the volume with a tag, if it wasn't seen under another name.
fn read_unseen<'a, R: AllocGlobal + Files<File = File>, E: Write>(
    rt: &'a R,
    paths: &FilePaths,
    tag: VolumeTag,
    volume_size: u64,
    memory: &MemoryLimit,
    found: &mut FoundVolumes<'a, R>,
    errors: &mut E,
) -> Result<ReadVolume<'a, R>, ImageRefusal>
    requires some { 0 < volume_size }
    requires within { volume_size ≤ capacity_limit }
    ensures found { found.new.volumes ≡ found.old.volumes }
    ensures tag { IfOk result (λ read. read.volume.tag ≡ tag) }
    ensures path { IfOk result (λ read. read.store.path ≡ string_bytes paths.now.given) }
    ensures protected { IfOk result (λ read. read.volume.protected ≡ is_read_only read.store.access) }
{
    let mode = found.seen.look(rt, paths.opened.as_str())?;
    found.is_open = found.is_open || is_open_to_others(mode);
    let is_wanted = found.protect.iter().any(|other| *other == tag);
    let file = VolumeFile {
        paths,
        tag,
        is_protected: is_wanted || is_write_protected(mode),
    };
    read_volume(
        rt,
        file,
        found.boot,
        found.profile,
        volume_size,
        memory.share()?,
        errors,
    )
}

/// Makes the files of volumes that are blank.
pub(crate) fn make_volumes<R: AllocGlobal + Files<File = File>>(
    rt: &R,
    folder: &LibraryFolder,
    tags: &[VolumeTag],
) -> Result<(), FolderFault> {
    for tag in tags {
        let FilePaths { given, opened } = folder.paths().volume(rt.alloc(), tag)?;
        if let Err(error) = make_new(rt, opened.as_str()) {
            return Err(FolderFault::CannotWrite(given, error));
        }
    }
    if tags.is_empty() {
        return Ok(());
    }
    sync_folder(rt.alloc(), folder)
}

/// Takes from the files of volumes what lets users write them.
pub(crate) fn protect_volumes<R: AllocGlobal + Files>(
    rt: &R,
    folder: &LibraryFolder,
    tags: &[VolumeTag],
) -> Result<(), FolderFault> {
    for tag in tags {
        let FilePaths { given, opened } = folder.paths().volume(rt.alloc(), tag)?;
        if let Err(error) = protect_file(rt, opened.as_str()) {
            return Err(FolderFault::CannotWrite(given, error));
        }
    }
    Ok(())
}

/// Takes from a file what lets users write it, if something does.
fn protect_file<R: Files>(rt: &R, path: &str) -> io::Result<()> {
    let mut permissions = fs::metadata(rt, path)?.permissions();
    if is_write_protected(permissions.mode()) {
        return Ok(());
    }
    permissions.set_readonly(true);
    fs::set_permissions(rt, path, permissions)
}

/// The volumes that were found, each in the element in which it is from now on, and kept in its file. What a file has that may not be read
/// is moved away.
pub(crate) fn keep_volumes<'a, R: AllocGlobal + Files<File = File>, E: Write>(
    rt: &R,
    folder: &'a LibraryFolder,
    found: FoundVolumes<'a, R>,
    placed: &[PlacedVolume],
    errors: &mut E,
) -> Result<Vec<KeptVolume<'a, R>>, FolderFault>
    ensures { AreRead folder.now found.entry.volumes.items → IfOk result (λ kept. AreVolumesOf folder.now kept.items) }
{
    let FoundVolumes { volumes, boot, .. } = found;
    let around = Surroundings {
        alloc: rt.alloc(),
        boot,
        folder,
    };
    let mut kept = Vec::with_capacity(rt.alloc(), volumes.len())?;
    'volumes: for read in volumes {
        // Each volume that was read has an element.
        if let Some(place) = place_of(placed, read.volume.tag) {
            let volume = keep_volume(rt, read, place, around, errors)?;
            kept.push(volume).map_err(AllocError::from)?;
        }
    }
    Ok(kept)
}

/// A volume that was read, and is kept in its file from now on. It is protected where that can't be written.
fn keep_volume<'a, R: AllocGlobal + Files<File = File>, E: Write>(
    rt: &R,
    read: ReadVolume<'a, R>,
    place: PlacedVolume,
    around: Surroundings<'a>,
    errors: &mut E,
) -> Result<KeptVolume<'a, R>, AllocError>
    ensures element { IfOk result (λ kept. kept.element ≡ place.element) }
    ensures source { IfOk result (λ kept. kept.source ≡ place.source) }
    ensures tag { IfOk result (λ kept. kept.volume.tag ≡ read.entry.volume.tag) }
    ensures tape { IfOk result (λ kept. kept.volume.tape ≡ read.entry.volume.tape) }
    ensures path { IfOk result (λ kept. kept.image.store.path ≡ read.entry.store.path) }
    ensures protected { IfOk result (λ kept. kept.volume.protected ≡ is_read_only kept.image.store.access) }
    ensures stays { IfOk result (λ kept. read.entry.store.access ≡ ReadOnly → kept.image.store ≡ read.entry.store) }
{
    let ReadVolume {
        volume,
        mut store,
        ends,
        trust,
    } = read;
    begin_writing(rt, &mut store, trust, around, errors)?;
    let protected = store.access() == FileAccess::ReadOnly;
    Ok(KeptVolume {
        element: place.element,
        source: place.source,
        volume: Volume {
            protected,
            ..volume
        },
        image: open_image(store, ends, trust.length),
    })
}

/// Where the volume with a tag is.
fn place_of(placed: &[PlacedVolume], tag: VolumeTag) -> Option<PlacedVolume> {
    placed.iter().find(|volume| volume.tag == tag).copied()
}
