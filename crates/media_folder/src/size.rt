//! What a library is made of, and what its volumes hold.
ghost use Rattle.std.specs.Prelude.{◌≡◌, ◌<◌, ◌≤◌, ◌↔◌, IsTrue, min, max, IfOk, IfErr};
ghost use Rattle.tape_medium.specs.Limits.{capacity_limit};
ghost use Rattle.media_folder.specs.Sizes.{IsUsable, least_of, size_of_entry, held_in, IsDecided};

use crate::fault::FolderFault;
use library_inventory::{LibrarySize, size_at_start};
use program_options::{GivenLibrary, LibraryOptions};
use tape_image::IndexedObject;
use tape_medium::MAX_CAPACITY;

/// Whether a library can be made of this.
fn is_usable(size: LibrarySize) -> bool
    ensures { IsTrue result ↔ IsUsable size }
{
    let most = LibraryOptions::MAX;
    1 <= size.drives
        && size.drives <= most.drives
        && 1 <= size.slots
        && size.slots <= most.slots
        && size.import_exports <= most.import_exports
}

/// The size of a library: that of its inventory, if it has one, with which the options that are given agree, and else that of the
/// options.
pub(crate) fn decide_size(
    given: &GivenLibrary,
    kept: Option<LibrarySize>,
) -> Result<LibrarySize, FolderFault>
    ensures { IfOk result (λ size. IsDecided given.now kept size) }
{
    let size = match size_at_start(given, kept) {
        Ok(size) => size,
        Err(fault) => return Err(FolderFault::of_start(fault)),
    };
    if is_usable(size) {
        Ok(size)
    } else {
        Err(FolderFault::NoSize(size))
    }
}

/// How many volumes there are to be at least: as many as were asked for, or where nothing is kept yet as is usual.
pub(crate) fn least_volumes(given: &GivenLibrary, kept: Option<LibrarySize>) -> u16
    ensures { result ≡ least_of given.now.volumes kept }
{
    match (given.volumes, kept) {
        (Some(volumes), _) => volumes,
        (None, None) => LibraryOptions::DEFAULT.volumes,
        (None, Some(_)) => 0,
    }
}

/// How many bytes a block has; a filemark has none.
pub(crate) fn size_of(object: &IndexedObject) -> u64
    ensures { result ≡ size_of_entry object.now }
{
    match object {
        IndexedObject::Block { size, .. } => *size as u64,
        IndexedObject::Mark { .. } => 0,
    }
}

/// How many bytes the blocks of an image have.
pub(crate) fn bytes_of_blocks(objects: &[IndexedObject]) -> u64
    ensures { result ≡ held_in objects.now }
{
    let mut held = 0u64;
    'sizes: for object in objects {
        held = held.saturating_add(size_of(object));
    }
    held
}

/// The capacity of a volume whose image has so many bytes of blocks: `volume_size`, or as many where it has more, as far as a tape
/// takes them.
pub(crate) fn capacity_for(volume_size: u64, held: u64) -> u64
    requires some { 0 < volume_size }
    requires within { volume_size ≤ capacity_limit }
    ensures value { result ≡ max volume_size (min held capacity_limit) }
    ensures some { 0 < result }
    ensures within { result ≤ capacity_limit }
{
    volume_size.max(held.min(MAX_CAPACITY))
}
