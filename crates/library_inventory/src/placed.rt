use crate::element::Element;
use tape_medium::VolumeTag;

/// A volume, and the element in which it is.
#[derive(Clone, Copy)]
pub struct PlacedVolume {
    pub tag: VolumeTag,
    pub element: Element,
    /// Of a volume in a drive the element where it was last outside drives, if that is known.
    pub source: Option<Element>,
}
