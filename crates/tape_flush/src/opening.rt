ghost use Rattle.std.specs.Prelude.{◌≡◌, ℕ, List, map, IfOk, IfSome};
ghost use Rattle.tape_image.specs.Indexes.{indexed};
ghost use Rattle.tape_image.specs.Reading.{Placed, Stop, Reads};
ghost use Rattle.tape_flush.specs.Careful.{IsKnown, trusted_to};
ghost use Rattle.tape_flush.specs.Images.{object_in};
ghost use Rattle.tape_flush.specs.Saved.{HasFirstOf, ends_within};
ghost use Rattle.tape_flush.specs.Openings.{end_of_entry, lost_of};
ghost use Rattle.tape_flush.specs.Stores.{FileValue};

use crate::fault::OpenFault;
use crate::saved_image::SavedImage;
use crate::store::ImageStore;
use std::alloc::Global;
use std::marker::Model;
use tape_image::{ImageEnd, ImageIndex, IndexedObject, LENGTH_FIELD};

/// Where the objects of an image end, and how many bytes after them are of an object whose rest isn't there.
#[derive(Drop)]
pub struct ImageEnds {
    ends: Vec<u64>,
    lost: u64,
}

impl Model for ImageEnds {
    ghost use Rattle.tape_flush.specs.Openings.{ImageEndsValue};

    ghost Value = { ImageEndsValue };

    ghost view = { λ image. record { ends = image.ends.items; lost = image.lost } };
}

impl ImageEnds {
    /// How many bytes of a cut tail are lost.
    pub fn lost(&self) -> u64
        ensures { result ≡ self.now.lost }
    {
        self.lost
    }
}

/// Where an object of an index ends, in bytes; an object that ends after the last offset is in no file.
fn end_of(entry: &IndexedObject) -> Option<u64>
    ensures { IfSome result (λ end. end ≡ end_of_entry entry.now) }
{
    match entry {
        IndexedObject::Block { offset, size } => {
            let padded = size.checked_add(size % 2)?;
            let part = padded.checked_add(2 * LENGTH_FIELD)?;
            offset.checked_add(part as u64)
        }
        IndexedObject::Mark { offset } => offset.checked_add(LENGTH_FIELD as u64),
    }
}

/// Where the objects of an index end.
fn ends_of(alloc: Global, entries: &[IndexedObject]) -> Result<Vec<u64>, OpenFault>
    ensures { IfOk result (λ ends. ends.items ≡ map end_of_entry entries.now) }
{
    let mut ends = Vec::new(alloc);
    'entries: for entry in entries {
        match end_of(entry) {
            Some(end) => ends.push(end)?,
            None => return Err(OpenFault::PastLastOffset),
        }
    }
    Ok(ends)
}

/// How many bytes of a cut tail are lost; an image with a fault isn't written on.
fn lost_of(end: ImageEnd) -> Result<u64, OpenFault>
    ensures { result ≡ lost_of end }
{
    match end {
        ImageEnd::WholeEnd { .. } => Ok(0),
        ImageEnd::CutTail { lost, .. } => Ok(lost),
        ImageEnd::Faulty {
            fault,
            objects,
            whole,
        } => Err(OpenFault::Faulty {
            fault,
            objects,
            whole,
        }),
    }
}

/// Where the objects of an image end, by its index. An image with a fault is refused.
pub fn image_ends(alloc: Global, index: &ImageIndex) -> Result<ImageEnds, OpenFault>
    ensures ends { IfOk result (λ image. image.ends ≡ map end_of_entry index.now.objects.items) }
    ensures lost { IfOk result (λ image. lost_of index.now.end ≡ Ok image.lost) }
{
    let lost = lost_of(index.end)?;
    let ends = ends_of(alloc, &index.objects)?;
    Ok(ImageEnds { ends, lost })
}

/// Opens an image whose objects end there, and of which so many bytes are on the disk, as its record says: the objects that are within
/// these count. Nothing is changed: what is after them is cut off before something is written.
pub fn open_image<S: ImageStore + Drop>(store: S, image: ImageEnds, trusted: u64) -> SavedImage<S>
    ensures store { result.store ≡ store }
    ensures known { result.known ≡ trusted_to trusted }
    ensures ends { result.ends ≡ ends_within trusted image.ends }
    ensures whole { (file : FileValue) (objects : List Placed) (stop : Stop) → S.file store ≡ Some file → IsKnown (trusted_to trusted) file → Reads 0 file.contents objects stop
        → image.ends ≡ map end_of_entry (map indexed objects) → HasFirstOf (map object_in objects) result }
{
    let ImageEnds { ends, .. } = image;
    SavedImage::opened(store, trusted, ends)
}
