ghost use Rattle.std.specs.Prelude.{◌≡◌, ◌≤◌, ◌+◌, length};
ghost use Rattle.tape_medium.specs.Limits.{block_limit};
ghost use Rattle.tape_image.specs.Parts.{image_part, measured, sized, is_longer};
ghost use Rattle.tape_image.specs.Views.{part_value, IsWithin};

use crate::fault::ImageFault;
use crate::layout::*;
use byteorder::{ByteOrder, LittleEndian};

/// What an image begins with.
#[derive(Clone, Copy)]
pub enum ImagePart<'a> {
    /// Less than a part, which has so many bytes at least.
    Partial(usize),
    /// A logical block, where it is, and how many bytes its part takes.
    Block(&'a [u8], usize),
    /// A filemark, of four bytes.
    Mark,
    /// An erase gap, of four bytes, that is passed over.
    Gap,
    /// The end of the medium, of four bytes: nothing after it counts.
    End,
    Invalid(ImageFault),
}

impl ImagePart<'_> {
    /// Whether it is a block of more than so many bytes, or the beginning of one.
    pub fn is_longer_than(&self, most: u32) -> bool
        ensures { result ≡ is_longer most (part_value self.now) }
    {
        let most = most as usize;
        match self {
            ImagePart::Partial(wanted) => *wanted > LENGTH_FIELD + most + LENGTH_FIELD,
            ImagePart::Block(bytes, _) => bytes.len() > most,
            ImagePart::Mark | ImagePart::Gap | ImagePart::End | ImagePart::Invalid(_) => false,
        }
    }
}

/// A block of `size` bytes between its lengths.
fn block_of(size: usize, bytes: &[u8]) -> ImagePart<'_>
    requires least { 1 ≤ size }
    requires most { size ≤ block_limit }
    requires length { 4 ≤ length bytes.now }
    ensures part { part_value result ≡ sized size bytes.now }
    ensures within { IsWithin (length bytes.now) (part_value result) }
{
    let end = LENGTH_FIELD + size + size % 2;
    let count = end + LENGTH_FIELD;
    if bytes.len() < count {
        return ImagePart::Partial(count);
    }
    if LittleEndian::read_u32(&bytes[end..]) as usize != size {
        return ImagePart::Invalid(ImageFault::UnequalLengths);
    }
    ImagePart::Block(&bytes[LENGTH_FIELD..LENGTH_FIELD + size], count)
}

/// The part that begins with the length `word`.
fn part_of(word: u32, bytes: &[u8]) -> ImagePart<'_>
    requires { 4 ≤ length bytes.now }
    ensures part { part_value result ≡ measured word bytes.now }
    ensures within { IsWithin (length bytes.now) (part_value result) }
{
    match word {
        FILEMARK => ImagePart::Mark,
        END_OF_MEDIUM => ImagePart::End,
        ERASE_GAP => ImagePart::Gap,
        _ if word >= FIRST_CLASS => ImagePart::Invalid(ImageFault::UnknownClass),
        _ if word > MAX_LENGTH => ImagePart::Invalid(ImageFault::TooLong),
        _ => block_of(word as usize, bytes),
    }
}

/// What an image begins with. Nothing is copied. At most `MAX_PART` bytes are needed to know any part.
#[tactic(auto, unfolding(crate::specs::Parts::image_part))]
pub fn parse_image(bytes: &[u8]) -> ImagePart<'_>
    ensures part { part_value result ≡ image_part bytes.now }
    ensures within { IsWithin (length bytes.now) (part_value result) }
{
    if bytes.len() < LENGTH_FIELD {
        return ImagePart::Partial(LENGTH_FIELD);
    }
    part_of(LittleEndian::read_u32(bytes), bytes)
}
