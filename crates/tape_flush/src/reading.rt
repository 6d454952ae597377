ghost use Rattle.std.specs.Prelude.{◌≡◌, ◌<◌, ◌≤◌, ◌++◌, length, map, IfOk, IfSome, OnOk};
ghost use Rattle.tape_medium.specs.Limits.{capacity_limit};
ghost use Rattle.tape_image.specs.Indexes.{indexed};
ghost use Rattle.tape_image.specs.Views.{part_value};
ghost use Rattle.tape_image.specs.Walking.{part_objects};
ghost use Rattle.tape_flush.specs.Readings.{object_of, tape_with, IsReadAs, IsReadFrom};

use crate::read_fault::ReadTapeFault;
use scsi_cdb::Profile;
use std::alloc::Global;
use std::io::Read;
use tape_image::{ImageIndex, ImagePart, ImageReader, IndexedObject};
use tape_medium::{MemoryLimit, Tape, TapeFault, most_block};

/// A tape that was read from an image, and the index of the image, by which that is written on.
#[derive(Drop)]
pub struct ReadTape {
    pub tape: Tape,
    pub index: ImageIndex,
}

/// Why a tape with so many objects doesn't take a part: each block of an image has a length that a tape takes.
fn refusal(fault: TapeFault, objects: u32) -> ReadTapeFault {
    match fault {
        TapeFault::NoMemory => ReadTapeFault::NoMemory,
        TapeFault::Overflow | TapeFault::BlockLength => ReadTapeFault::TooLarge { objects },
    }
}

/// Writes the object that a part is, if it is one, after the others of a tape, in a library of a profile.
fn put_part(profile: Profile, tape: &mut Tape, part: &ImagePart<'_>) -> Result<(), ReadTapeFault>
    requires { tape.old ≡ tape_with tape.old.capacity tape.old.objects }
    ensures { OnOk result (tape.new ≡ tape_with tape.old.capacity (tape.old.objects ++ object_of (part_value part.now))) }
{
    let objects = tape.object_count();
    let put = match part {
        ImagePart::Block(bytes, _) => tape.write_block(profile, bytes),
        ImagePart::Mark => tape.write_marks(profile, 1),
        _ => Ok(()),
    };
    match put {
        Ok(()) => Ok(()),
        Err(fault) => Err(refusal(fault, objects)),
    }
}

/// Notes the object that a part is, if it is one, with the offset at which the part begins.
fn note_part(
    entries: &mut Vec<IndexedObject>,
    offset: u64,
    part: &ImagePart<'_>,
) -> Result<(), ReadTapeFault>
    ensures { OnOk result (entries.new.items ≡ entries.old.items ++ map indexed (part_objects offset (part_value part.now))) }
{
    match part {
        ImagePart::Block(bytes, _) => entries.push(IndexedObject::Block {
            offset,
            size: bytes.len(),
        })?,
        ImagePart::Mark => entries.push(IndexedObject::Mark { offset })?,
        _ => {}
    }
    Ok(())
}

/// The tape that an image holds, for `capacity` bytes of blocks, and the index of the image, which a reader gives from its first byte on.
/// The tape is at its beginning, and all of its objects count as unchanged. Of a faulty image it has the objects before the fault. A block
/// is two reads, so a file should be read through a buffer. The tape takes no more memory than the limit leaves. It has no longer block and
/// no more objects than are written in a library of the profile.
pub fn read_tape<R: Read>(
    alloc: Global,
    profile: Profile,
    reader: &mut R,
    capacity: u64,
    memory: MemoryLimit,
) -> Result<ReadTape, ReadTapeFault>
    requires some { 0 < capacity }
    requires within { capacity ≤ capacity_limit }
    ensures read { IfOk result (λ read. IsReadFrom (R.remaining reader.old) (R.remaining reader.new) capacity read.tape read.index.objects.items read.index.end) }
    ensures whole { IfOk result (λ read. IfSome (R.remaining reader.old) (λ bytes. IsReadAs bytes capacity read.tape read.index.objects.items read.index.end)) }
{
    let mut image = ImageReader::new(alloc)?;
    let mut tape = Tape::within(alloc, capacity, memory);
    let mut objects = Vec::new(alloc);
    'parts: loop {
        image.await_part(reader)?;
        if image.part().is_longer_than(most_block(profile)) {
            return Err(ReadTapeFault::TooLong {
                objects: image.objects(),
                whole: image.offset(),
            });
        }
        if let Some(end) = image.end() {
            tape.rewind();
            tape.settle(tape.object_count());
            let index = ImageIndex { objects, end };
            return Ok(ReadTape { tape, index });
        }
        let offset = image.offset();
        let part = image.part();
        put_part(profile, &mut tape, &part)?;
        note_part(&mut objects, offset, &part)?;
        image.pass()?;
    }
}
