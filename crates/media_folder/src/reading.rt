//! The file of one volume, as it is read at a start.
ghost use Rattle.std.specs.Prelude.{◌≡◌, ◌<◌, ◌≤◌, true, string_bytes, IfOk};
ghost use Rattle.tape_medium.specs.Limits.{capacity_limit};
ghost use Rattle.media_folder.specs.declared.store.FileAccess.TheVariants.{ReadOnly};
ghost use Rattle.media_folder.specs.Stores.{is_read_only};

use crate::boot::BootId;
use crate::names::FilePaths;
use crate::notice::{Notice, tell};
use crate::refusal::ImageRefusal;
use crate::size::{bytes_of_blocks, capacity_for};
use crate::store::{FileAccess, FileStore};
use crate::trust::{Trust, trust_in};
use scsi_cdb::Profile;
use std::alloc::Global;
use std::fs::{self, File, Files, OpenFile, OpenOptions};
use std::io::{self, BufReader, ErrorKind, Read, Seek, SeekFrom, Take, Write};
use tape_flush::{ImageEnds, ReadTape, ReadTapeFault, image_ends, read_tape};
use tape_image::{IndexFault, index_image};
use tape_medium::{MemoryLimit, Volume, VolumeTag, most_block};

/// How many bytes of a file are read at once.
pub(crate) const AT_ONCE: usize = 131_072;

/// A volume as its file was read, with what is needed to write on that.
#[derive(Drop)]
pub(crate) struct ReadVolume<'a, R: Files<File = File>> {
    pub volume: Volume,
    pub store: FileStore<'a, R>,
    pub ends: ImageEnds,
    pub trust: Trust,
}

/// The file of the volume with a tag: where it is, and whether the volume is write-protected, whichever user runs the program.
#[derive(Clone, Copy)]
pub(crate) struct VolumeFile<'a> {
    pub paths: &'a FilePaths,
    pub tag: VolumeTag,
    pub is_protected: bool,
}

/// Reads the file of a volume of a library of a profile, as far as its record lets it be read, for `volume_size`
/// bytes of blocks, or for those that it has where these are more, which take no more memory than the limit says.
pub(crate) fn read_volume<'a, R: AllocGlobal + Files<File = File>, E: Write>(
    rt: &'a R,
    file: VolumeFile<'_>,
    boot: BootId,
    profile: Profile,
    volume_size: u64,
    memory: MemoryLimit,
    errors: &mut E,
) -> Result<ReadVolume<'a, R>, ImageRefusal>
    requires some { 0 < volume_size }
    requires within { volume_size ≤ capacity_limit }
    ensures tag { IfOk result (λ read. read.volume.tag ≡ file.entry.tag) }
    ensures path { IfOk result (λ read. read.store.path ≡ string_bytes file.entry.paths.now.given) }
    ensures protected { IfOk result (λ read. read.volume.protected ≡ is_read_only read.store.access) }
    ensures as_is_wanted { IfOk result (λ read. file.entry.is_protected ≡ true → read.volume.protected ≡ true) }
{
    let store = open_file(rt, file.paths, file.is_protected)?;
    let trust = trust_in(rt, &store, boot, errors)?;
    let ReadTape { tape, index } = read_file(
        rt.alloc(),
        profile,
        store.file(),
        trust.length,
        volume_size,
        memory,
    )?;
    let ends = image_ends(rt.alloc(), &index)?;
    let access = store.access();
    tell_volume(file.paths.given.as_str(), access, ends.lost(), errors);
    let volume = Volume {
        tag: file.tag,
        protected: access == FileAccess::ReadOnly,
        tape,
    };
    Ok(ReadVolume {
        volume,
        store,
        ends,
        trust,
    })
}

fn tell_volume<E: Write>(path: &str, access: FileAccess, lost: u64, errors: &mut E) {
    if access == FileAccess::ReadOnly {
        tell(errors, &Notice::Protected { path });
    }
    if lost > 0 {
        tell(errors, &Notice::CutTail { path, lost });
    }
}

/// Opens a volume's file. It is only read if the volume is write-protected, or if the file can't be written.
fn open_file<'a, R: AllocGlobal + Files<File = File>>(
    rt: &'a R,
    paths: &FilePaths,
    is_protected: bool,
) -> io::Result<FileStore<'a, R>>
    ensures path { IfOk result (λ store. store.path ≡ string_bytes paths.now.given) }
    ensures protected { IfOk result (λ store. is_protected ≡ true → store.access ≡ ReadOnly) }
{
    if is_protected {
        return open_to_read(rt, paths);
    }
    let opened = OpenOptions::new()
        .read(true)
        .write(true)
        .open(rt, paths.opened.as_str());
    match opened {
        Ok(file) => store_of(rt, paths, file, FileAccess::ReadWrite),
        Err(error) if is_closed(error.kind()) => open_to_read(rt, paths),
        Err(error) => Err(error),
    }
}

fn open_to_read<'a, R: AllocGlobal + Files<File = File>>(
    rt: &'a R,
    paths: &FilePaths,
) -> io::Result<FileStore<'a, R>>
    ensures { IfOk result (λ store. store ≡ record { path = string_bytes paths.now.given; access = ReadOnly }) }
{
    let file = fs::open(rt, paths.opened.as_str())?;
    store_of(rt, paths, file, FileAccess::ReadOnly)
}

fn store_of<'a, R: AllocGlobal + Files<File = File>>(
    rt: &'a R,
    paths: &FilePaths,
    file: File,
    access: FileAccess,
) -> io::Result<FileStore<'a, R>>
    ensures { IfOk result (λ store. store ≡ record { path = string_bytes paths.now.given; access = access }) }
{
    FileStore::new(rt, paths.try_clone(rt.alloc())?, file, access)
}

/// Whether a file can't be written, by what came of opening it.
fn is_closed(kind: ErrorKind) -> bool {
    matches!(
        kind,
        ErrorKind::PermissionDenied | ErrorKind::ReadOnlyFilesystem
    )
}

/// Reads so many bytes of a file as a tape.
fn read_file(
    alloc: Global,
    profile: Profile,
    file: &File,
    count: u64,
    volume_size: u64,
    memory: MemoryLimit,
) -> Result<ReadTape, ReadTapeFault>
    requires some { 0 < volume_size }
    requires within { volume_size ≤ capacity_limit }
{
    let held = held_in(alloc, profile, file, count, volume_size)?;
    let mut reader = from_front(alloc, file, count)?;
    read_tape(
        alloc,
        profile,
        &mut reader,
        capacity_for(volume_size, held),
        memory,
    )
}

/// How many bytes of blocks so many bytes of a file have, if they can have more than `volume_size`, and else as many as that at most.
fn held_in(
    alloc: Global,
    profile: Profile,
    file: &File,
    count: u64,
    volume_size: u64,
) -> Result<u64, ReadTapeFault> {
    if count <= volume_size {
        return Ok(count);
    }
    let mut reader = from_front(alloc, file, count)?;
    match index_image(alloc, most_block(profile), &mut reader) {
        Ok(index) => Ok(bytes_of_blocks(&index.objects)),
        Err(IndexFault::NoMemory) => Err(ReadTapeFault::NoMemory),
        Err(IndexFault::Read) => Err(ReadTapeFault::Read),
        Err(IndexFault::PastLastOffset) => Err(ReadTapeFault::PastLastOffset),
        Err(IndexFault::TooLong { objects, whole }) => {
            Err(ReadTapeFault::TooLong { objects, whole })
        }
    }
}

/// So many bytes of a file, from its first on.
fn from_front<'a>(
    alloc: Global,
    mut file: &'a File,
    count: u64,
) -> io::Result<Take<BufReader<&'a File>>> {
    file.seek(SeekFrom::Start(0))?;
    Ok(BufReader::with_capacity(alloc, AT_ONCE, file)?.take(count))
}
