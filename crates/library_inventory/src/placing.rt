ghost use Rattle.std.specs.Prelude.{◌≡◌, ◌-◌, ◌<◌, ◌++◌, IfOk, IfErr, OnOk, IsPermutation, map, zip};
ghost use Rattle.std.specs.List.Sorted.{IsSorted};
ghost use Rattle.library_inventory.specs.Tags.{tag_cmp};
ghost use Rattle.library_inventory.specs.Starts.{kept_volumes, put_back, lying_volumes, without_image, absent_volumes, other_images, made_count, free_storage, stored_at, IsStart, IsPlaceFault};

use crate::among::{has_tag, is_full, is_named};
use crate::element::Element;
use crate::fault::StartFault;
use crate::made::made_tags;
use crate::placed::PlacedVolume;
use std::alloc::{AllocError, Global};
use tape_medium::VolumeTag;

/// Where each volume is.
#[derive(Drop)]
pub struct Start {
    pub volumes: Vec<PlacedVolume>,
    /// The tags of those that are made, empty.
    pub made: Vec<VolumeTag>,
    /// Those of the inventory whose images can't be read, with the elements in which they were.
    pub missing: Vec<PlacedVolume>,
}

/// The named volumes whose images can be read.
fn kept_volumes(
    alloc: Global,
    named: &[PlacedVolume],
    images: &[VolumeTag],
) -> Result<Vec<PlacedVolume>, AllocError>
    ensures { IfOk result (λ kept. kept.items ≡ kept_volumes named.now images.now) }
{
    named
        .iter()
        .copied()
        .filter(|volume| has_tag(images, volume.tag))
        .collect(alloc)
}

/// Puts a volume that was missing back into its element, if its image can be read again and none of the others is there.
fn put_back(
    images: &[VolumeTag],
    others: &mut Vec<PlacedVolume>,
    volume: PlacedVolume,
) -> Result<(), AllocError>
    ensures { OnOk result (others.new.items ≡ put_back images.now others.old.items volume) }
{
    if has_tag(images, volume.tag) && !is_full(others, volume.element) {
        others.push(volume)?;
    }
    Ok(())
}

/// The volumes that are where they were.
fn lying_volumes(
    alloc: Global,
    named: &[PlacedVolume],
    missing: &[PlacedVolume],
    images: &[VolumeTag],
) -> Result<Vec<PlacedVolume>, AllocError>
    ensures { IfOk result (λ lying. lying.items ≡ lying_volumes named.now missing.now images.now) }
{
    let mut lying = kept_volumes(alloc, named, images)?;
    'missing: for volume in missing {
        put_back(images, &mut lying, *volume)?;
    }
    Ok(lying)
}

/// The volumes whose images can't be read.
fn without_image(
    alloc: Global,
    volumes: &[PlacedVolume],
    images: &[VolumeTag],
) -> Result<Vec<PlacedVolume>, AllocError>
    ensures { IfOk result (λ absent. absent.items ≡ without_image volumes.now images.now) }
{
    volumes
        .iter()
        .copied()
        .filter(|volume| !has_tag(images, volume.tag))
        .collect(alloc)
}

/// The volumes of an inventory, named and missing ones, whose images can't be read.
fn absent_volumes(
    alloc: Global,
    named: &[PlacedVolume],
    missing: &[PlacedVolume],
    images: &[VolumeTag],
) -> Result<Vec<PlacedVolume>, AllocError>
    ensures { IfOk result (λ absent. absent.items ≡ absent_volumes named.now missing.now images.now) }
{
    let mut absent = without_image(alloc, named, images)?;
    let still = without_image(alloc, missing, images)?;
    absent.extend_from_slice(&still)?;
    Ok(absent)
}

/// How many volumes are made, so that there are `least` at least.
fn count_to_make(
    least: u16,
    images: &[VolumeTag],
    left_out: &[VolumeTag],
    absent: &[PlacedVolume],
) -> usize
    ensures { result ≡ made_count least images.now left_out.now absent.now }
{
    let unlisted = left_out
        .iter()
        .filter(|tag| !is_named(absent, **tag))
        .count();
    usize::from(least)
        .saturating_sub(images.len())
        .saturating_sub(absent.len())
        .saturating_sub(unlisted)
}

/// The images of volumes that aren't where they were.
fn other_images(
    alloc: Global,
    lying: &[PlacedVolume],
    images: &[VolumeTag],
) -> Result<Vec<VolumeTag>, AllocError>
    ensures { IfOk result (λ others. others.items ≡ other_images lying.now images.now) }
{
    images
        .iter()
        .copied()
        .filter(|tag| !is_named(lying, *tag))
        .collect(alloc)
}

/// The numbers of the storage elements in which no volume is.
fn free_storage(alloc: Global, slots: u16, volumes: &[PlacedVolume]) -> Result<Vec<u16>, AllocError>
    ensures { IfOk result (λ free. free.items ≡ free_storage slots volumes.now) }
{
    (0..slots)
        .filter(|number| !is_full(volumes, Element::Storage(*number)))
        .collect(alloc)
}

/// Volumes, each in the storage element of a number.
fn stored_volumes(
    alloc: Global,
    tags: &[VolumeTag],
    numbers: &[u16],
) -> Result<Vec<PlacedVolume>, AllocError>
    ensures { IfOk result (λ stored. stored.items ≡ map stored_at (zip tags.now numbers.now)) }
{
    tags.iter()
        .copied()
        .zip(numbers.iter().copied())
        .map(|(tag, number)| PlacedVolume {
            tag,
            element: Element::Storage(number),
            source: None,
        })
        .collect(alloc)
}

/// The tags of volumes that aren't where they were, and of those that are made, in order.
fn other_tags(
    alloc: Global,
    lying: &[PlacedVolume],
    images: &[VolumeTag],
    made: &[VolumeTag],
) -> Result<Vec<VolumeTag>, AllocError>
    ensures sorted { IfOk result (λ others. IsSorted tag_cmp others.items) }
    ensures same { IfOk result (λ others. IsPermutation (other_images lying.now images.now ++ made.now) others.items) }
{
    let mut others = other_images(alloc, lying, images)?;
    others.extend_from_slice(made)?;
    others.sort_unstable();
    Ok(others)
}

/// Where volumes are in a library of so many storage elements: those that its inventory names where they were, if their images can be read;
/// then those that it has as missing, and whose images can be read again, where they were, if no volume is there; then other images, and
/// volumes that are made so that there are `least` at least, in the first free storage elements. Volumes of the inventory whose images
/// can't be read are missing. They count among the least, and so do volumes that are left out since their files can't be served.
pub fn place(
    alloc: Global,
    slots: u16,
    least: u16,
    named: &[PlacedVolume],
    missing: &[PlacedVolume],
    images: &[VolumeTag],
    left_out: &[VolumeTag],
) -> Result<Start, StartFault>
    ensures ok { IfOk result (λ start. IsStart slots least named.now missing.now images.now left_out.now start) }
    ensures err { IfErr result (λ fault. IsPlaceFault slots least named.now missing.now images.now left_out.now fault) }
{
    let absent = absent_volumes(alloc, named, missing, images)?;
    let count = count_to_make(least, images, left_out, &absent);
    let made = made_tags(alloc, named, missing, images, left_out, count)?;
    if made.len() < count {
        return Err(StartFault::NoTags);
    }
    let mut volumes = lying_volumes(alloc, named, missing, images)?;
    let others = other_tags(alloc, &volumes, images, &made)?;
    let free = free_storage(alloc, slots, &volumes)?;
    if free.len() < others.len() {
        return Err(StartFault::MoreVolumes {
            volumes: others.len(),
            free: free.len(),
        });
    }
    let stored = stored_volumes(alloc, &others, &free)?;
    volumes.extend_from_slice(&stored)?;
    Ok(Start {
        volumes,
        made,
        missing: absent,
    })
}
