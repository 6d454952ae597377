//! What an image holds, by its index.

use crate::refusal::ImageRefusal;
use crate::size::{bytes_of_blocks, size_of};
use scsi_cdb::Profile;
use std::fmt;
use tape_image::{ImageEnd, ImageIndex, IndexedObject};
use tape_medium::{MAX_CAPACITY, most_objects};

/// What an image without a fault holds.
#[derive(Clone, Copy)]
pub(crate) struct ImageSummary {
    /// Blocks and filemarks.
    objects: usize,
    /// Of its blocks.
    bytes: u64,
    marks: usize,
    /// How many bytes after these objects are of one more whose rest isn't there.
    lost: u64,
}

impl ImageSummary {
    /// Of an image by its index: one with a fault has none, nor one with more than a tape of a library of the profile takes.
    pub fn of(profile: Profile, index: &ImageIndex) -> Result<ImageSummary, ImageRefusal> {
        let taken = taken_of(profile, &index.objects);
        if taken < index.objects.len() {
            let objects = u32::try_from(taken).unwrap_or(most_objects(profile));
            return Err(ImageRefusal::TooLarge { objects });
        }
        let lost = match index.end {
            ImageEnd::WholeEnd { .. } => 0,
            ImageEnd::CutTail { lost, .. } => lost,
            ImageEnd::Faulty {
                fault,
                objects,
                whole,
            } => {
                return Err(ImageRefusal::Faulty {
                    fault,
                    objects,
                    whole,
                });
            }
        };
        Ok(ImageSummary {
            objects: index.objects.len(),
            bytes: bytes_of_blocks(&index.objects),
            marks: marks_in(&index.objects),
            lost,
        })
    }
}

impl fmt::Display for ImageSummary {
    fn fmt<W: fmt::Write>(&self, f: &mut fmt::Formatter<W>) -> fmt::Result {
        let ImageSummary {
            objects,
            bytes,
            marks,
            lost,
        } = *self;
        write!(
            f,
            "{objects} objects, {bytes} bytes in blocks, {marks} filemarks, "
        )?;
        if lost == 0 {
            f.write_str("whole")
        } else {
            write!(f, "a cut tail of {lost} bytes")
        }
    }
}

/// How many filemarks there are.
fn marks_in(objects: &[IndexedObject]) -> usize {
    objects
        .iter()
        .filter(|object| matches!(object, IndexedObject::Mark { .. }))
        .count()
}

/// How many of the first objects a tape takes, by their number and by the bytes of blocks.
fn taken_of(profile: Profile, objects: &[IndexedObject]) -> usize {
    let mut held = 0u64;
    'objects: for (index, object) in objects.iter().enumerate() {
        held = held.saturating_add(size_of(object));
        if held > MAX_CAPACITY || index >= most_objects(profile) as usize {
            return index;
        }
    }
    objects.len()
}
