ghost use Rattle.std.specs.Prelude.{◌≡◌, ◌+◌, ◌≤◌, ◌^◌, [], length, IfOk, OnOk, OnErr};
ghost use Rattle.std.specs.Io.KnownBytes.{IsAtEnd};
ghost use Rattle.tape_image.specs.Filling.{Added};
ghost use Rattle.tape_image.specs.Parts.{image_part};
ghost use Rattle.tape_image.specs.Views.{part_value};
ghost use Rattle.tape_image.specs.Walking.{part_count, behind_part, Awaits, IsPartial, HasNoMore, reader_end};

use crate::ending::ImageEnd;
use crate::fault::PastLastOffset;
use crate::layout::LENGTH_FIELD;
use crate::part::{ImagePart, parse_image};
use crate::part_buffer::PartBuffer;
use std::alloc::{AllocError, Global};
use std::io::{self, Read};
use std::marker::Model;

/// Reads until more than a piece of a part is there, or the reader is at its end; never more than that part.
fn await_known<R: Read>(part: &mut PartBuffer, reader: &mut R) -> io::Result<()>
    requires { HasNoMore (length part.old) (image_part part.old) }
    ensures read { Added part.old part.new (R.remaining reader.old) (R.remaining reader.new) }
    ensures most { HasNoMore (length part.new) (image_part part.new) }
    ensures ok { OnOk result (IsPartial (image_part part.new) → IsAtEnd (R.remaining reader.new)) }
{
    'reads: loop {
        match parse_image(part.pending()) {
            ImagePart::Partial(wanted) => match part.fill(reader, wanted) {
                Ok(0) => return Ok(()),
                Ok(_) => {}
                Err(error) => return Err(error),
            },
            _ => return Ok(()),
        }
    }
}

/// Reads an image part by part, through a buffer of one part that is made once. Contracts see at which offset it is, how many objects came
/// before, and the bytes of the part there as far as they were read.
///
/// ```text
/// let mut image = ImageReader::new(alloc)?;
/// loop {
///     image.await_part(&mut file)?;
///     if let Some(end) = image.end() {
///         return Ok(end);
///     }
///     keep(image.offset(), image.part());
///     image.pass()?;
/// }
/// ```
#[derive(Drop)]
pub struct ImageReader {
    part: PartBuffer,
    offset: u64,
    objects: u64,
}

impl Model for ImageReader {
    ghost use Rattle.std.specs.Prelude.{◌≤◌, length};
    ghost use Rattle.tape_image.specs.Parts.{image_part};
    ghost use Rattle.tape_image.specs.Walking.{ReaderValue, HasNoMore};

    ghost Value = { ReaderValue };

    ghost view = { λ r. record { offset = r.offset; objects = r.objects; pending = r.part } };

    ghost invariant = { λ r. (r.objects ≤ r.offset) × HasNoMore (length r.part) (image_part r.part) };
}

impl ImageReader {
    /// At the beginning of an image of which nothing was read.
    pub fn new(alloc: Global) -> Result<ImageReader, AllocError>
        ensures { IfOk result (λ image. image ≡ record { offset = 0; objects = 0; pending = [] }) }
    {
        Ok(ImageReader {
            part: PartBuffer::new(alloc)?,
            offset: 0,
            objects: 0,
        })
    }

    /// At which offset of the image, in bytes, the part begins.
    pub fn offset(&self) -> u64
        ensures { result ≡ self.now.offset }
    {
        self.offset
    }

    /// How many logical objects came before.
    pub fn objects(&self) -> u64
        ensures { result ≡ self.now.objects }
    {
        self.objects
    }

    /// What was read of the part.
    pub fn part(&self) -> ImagePart<'_>
        ensures { part_value result ≡ image_part self.now.pending }
    {
        parse_image(self.part.pending())
    }

    /// Reads until more than a piece of the part is there, or the reader is at its end; never more than that part, if it is an object, an
    /// erase gap or the end mark. After an error of the reader, also an interrupted read, what was read before is kept, and it may be
    /// called again.
    pub fn await_part<R: Read>(&mut self, reader: &mut R) -> io::Result<()>
        ensures read { Awaits self.old self.new (R.remaining reader.old) (R.remaining reader.new) }
        ensures most { HasNoMore (length self.new.pending) (image_part self.new.pending) }
        ensures ok { OnOk result (IsPartial (image_part self.new.pending) → IsAtEnd (R.remaining reader.new)) }
    {
        await_known(&mut self.part, reader)
    }

    /// Passes the part, where it is an object or an erase gap; else nothing changes. An offset of 2^64 bytes or more is refused,
    /// and then nothing changes.
    pub fn pass(&mut self) -> Result<(), PastLastOffset>
        ensures ok { OnOk result (self.new ≡ behind_part self.old) }
        ensures err { OnErr result (self.new ≡ self.old) }
        ensures refused { OnErr result (2 ^ 64 ≤ self.old.offset + part_count (image_part self.old.pending)) }
    {
        let (count, objects) = match parse_image(self.part.pending()) {
            ImagePart::Block(_, count) => (count, 1),
            ImagePart::Mark => (LENGTH_FIELD, 1),
            ImagePart::Gap => (LENGTH_FIELD, 0),
            _ => return Ok(()),
        };
        let Some(offset) = self.offset.checked_add(count as u64) else {
            return Err(PastLastOffset);
        };
        self.part.clear();
        self.objects += objects;
        self.offset = offset;
        Ok(())
    }

    /// How the image ends, if it does at this part, once its reader is at its end or the part is there.
    pub fn end(&self) -> Option<ImageEnd>
        ensures { result ≡ reader_end self.now }
    {
        let whole = self.offset;
        match parse_image(self.part.pending()) {
            ImagePart::Partial(_) => match self.part.pending().len() {
                0 => Some(ImageEnd::WholeEnd { whole }),
                lost => Some(ImageEnd::CutTail {
                    whole,
                    lost: lost as u64,
                }),
            },
            ImagePart::End => Some(ImageEnd::WholeEnd { whole }),
            ImagePart::Invalid(fault) => Some(ImageEnd::Faulty {
                fault,
                objects: self.objects,
                whole,
            }),
            _ => None,
        }
    }
}
