ghost use Rattle.std.specs.Prelude.{◌≡◌, ◌<◌, IfOk, take};
ghost use Rattle.library_inventory.specs.Tags.{five_digits, tag_of};
ghost use Rattle.library_inventory.specs.Starts.{is_used, unused_of, unused_tags};

use crate::among::{has_tag, is_named};
use crate::placed::PlacedVolume;
use std::alloc::{AllocError, Global};
use tape_medium::VolumeTag;

/// The numbers of the tags that volumes are made with begin at 1, and end before this.
const NUMBERS_END: u16 = 4096;

/// A number as five decimal digits.
fn five_digits(number: u16) -> [u8; 5]
    ensures { result ≡ five_digits number }
{
    [
        b'0' + (number / 10_000) as u8,
        b'0' + (number / 1_000 % 10) as u8,
        b'0' + (number / 100 % 10) as u8,
        b'0' + (number / 10 % 10) as u8,
        b'0' + (number % 10) as u8,
    ]
}

/// `VOL` and a number of five digits, padded with spaces.
fn tag_of(number: u16) -> VolumeTag
    ensures { result ≡ tag_of number }
{
    let [a, b, c, d, e] = five_digits(number);
    let s = b' ';
    VolumeTag([
        b'V', b'O', b'L', a, b, c, d, e, s, s, s, s, s, s, s, s, s, s, s, s, s, s, s, s, s, s, s,
        s, s, s, s, s,
    ])
}

/// Whether a file or a volume of an inventory has a tag.
fn is_used(
    named: &[PlacedVolume],
    missing: &[PlacedVolume],
    images: &[VolumeTag],
    left_out: &[VolumeTag],
    tag: VolumeTag,
) -> bool
    ensures { result ≡ is_used named.now missing.now images.now left_out.now tag }
{
    has_tag(images, tag) || has_tag(left_out, tag) || is_named(named, tag) || is_named(missing, tag)
}

/// The first so many tags that no file and no volume of an inventory has, or all where there are fewer.
#[tactic(auto, unfolding(crate::specs::Tags::usual_tags))]
pub(crate) fn made_tags(
    alloc: Global,
    named: &[PlacedVolume],
    missing: &[PlacedVolume],
    images: &[VolumeTag],
    left_out: &[VolumeTag],
    count: usize,
) -> Result<Vec<VolumeTag>, AllocError>
    ensures { IfOk result (λ made. made.items ≡ take count (unused_tags named.now missing.now images.now left_out.now)) }
{
    (1..NUMBERS_END)
        .map(|number| tag_of(number))
        .filter(|tag| !is_used(named, missing, images, left_out, *tag))
        .take(count)
        .collect(alloc)
}

/// Those of some tags that no file and no volume of an inventory has: volumes that are made with them take nobody's place.
pub fn unused_of(
    alloc: Global,
    tags: &[VolumeTag],
    named: &[PlacedVolume],
    missing: &[PlacedVolume],
    images: &[VolumeTag],
    left_out: &[VolumeTag],
) -> Result<Vec<VolumeTag>, AllocError>
    ensures { IfOk result (λ unused. unused.items ≡ unused_of tags.now named.now missing.now images.now left_out.now) }
{
    tags.iter()
        .copied()
        .filter(|tag| !is_used(named, missing, images, left_out, *tag))
        .collect(alloc)
}
