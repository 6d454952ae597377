ghost use Rattle.std.specs.Prelude.{◌≡◌, ◌++◌, map, OnOk, IfOk, IfSome};
ghost use Rattle.tape_image.specs.Indexes.{indexed, IsIndexOf, IsReadIndex};
ghost use Rattle.tape_image.specs.Views.{part_value};
ghost use Rattle.tape_image.specs.Walking.{part_objects};

use crate::ending::ImageEnd;
use crate::index_fault::IndexFault;
use crate::part::ImagePart;
use crate::reader::ImageReader;
use std::alloc::{AllocError, Global};
use std::io::Read;

/// Where a logical object of an image is. Offsets and sizes are in bytes.
#[derive(Clone, Copy)]
pub enum IndexedObject {
    /// A logical block of `size` bytes, whose part begins at `offset`.
    Block { offset: u64, size: usize },
    /// A filemark at `offset`.
    Mark { offset: u64 },
}

/// The objects of an image in their order, and how it ends.
#[derive(Drop)]
pub struct ImageIndex {
    pub objects: Vec<IndexedObject>,
    pub end: ImageEnd,
}

/// Adds the object that a part is, if it is one.
fn add_part(
    objects: &mut Vec<IndexedObject>,
    offset: u64,
    part: &ImagePart<'_>,
) -> Result<(), AllocError>
    ensures { OnOk result (objects.new.items ≡ objects.old.items ++ map indexed (part_objects offset (part_value part.now))) }
{
    match part {
        ImagePart::Block(bytes, _) => objects.push(IndexedObject::Block {
            offset,
            size: bytes.len(),
        })?,
        ImagePart::Mark => objects.push(IndexedObject::Mark { offset })?,
        _ => {}
    }
    Ok(())
}

/// The index of an image whose blocks have `most_block` bytes at the most, that a reader gives from its first byte on. It takes memory for
/// the longest part, and for the index. A block is two reads, so a file should be read through a buffer.
pub fn index_image<R: Read>(
    alloc: Global,
    most_block: u32,
    reader: &mut R,
) -> Result<ImageIndex, IndexFault>
    ensures read { IfOk result (λ index. IsReadIndex (R.remaining reader.old) (R.remaining reader.new) index.objects.items index.end) }
    ensures whole { IfOk result (λ index. IfSome (R.remaining reader.old) (λ bytes. IsIndexOf bytes index.objects.items index.end)) }
{
    let mut image = ImageReader::new(alloc)?;
    let mut objects = Vec::new(alloc);
    'parts: loop {
        image.await_part(reader)?;
        if image.part().is_longer_than(most_block) {
            return Err(IndexFault::TooLong {
                objects: image.objects(),
                whole: image.offset(),
            });
        }
        if let Some(end) = image.end() {
            return Ok(ImageIndex { objects, end });
        }
        let offset = image.offset();
        add_part(&mut objects, offset, &image.part())?;
        image.pass()?;
    }
}
