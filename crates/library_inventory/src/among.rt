ghost use Rattle.std.specs.Prelude.{◌≡◌};
ghost use Rattle.library_inventory.specs.Tests.{has_tag, is_named, is_full};

use crate::element::Element;
use crate::placed::PlacedVolume;
use tape_medium::VolumeTag;

/// Whether a tag is among some.
pub(crate) fn has_tag(tags: &[VolumeTag], tag: VolumeTag) -> bool
    ensures { result ≡ has_tag tags.now tag }
{
    tags.iter().any(|other| *other == tag)
}

/// Whether one of the volumes has a tag.
pub(crate) fn is_named(volumes: &[PlacedVolume], tag: VolumeTag) -> bool
    ensures { result ≡ is_named volumes.now tag }
{
    volumes.iter().any(|volume| volume.tag == tag)
}

/// Whether one of the volumes is in an element.
pub(crate) fn is_full(volumes: &[PlacedVolume], element: Element) -> bool
    ensures { result ≡ is_full volumes.now element }
{
    volumes.iter().any(|volume| volume.element == element)
}
