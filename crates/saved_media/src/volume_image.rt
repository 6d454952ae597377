ghost use Rattle.std.specs.Prelude.{◌≡◌};

use crate::watch::{Extent, Watch};
use std::marker::Model;
use std::sync::{Mutex, Wait};
use std::time::{Duration, Instant};
use tape_flush::{ImageStore, SavedImage};
use tape_keeper::KeepFault;
use tape_medium::{Volume, VolumeTag};

/// So often an image is written again before its tape is written to a new file.
const MOST_IN_PLACE: u32 = 2;

/// Once in so many tries at the latest a tape is written to a new file again.
const AT_THE_LATEST: u32 = 128;

/// So many bytes that were copied in the background are brought to the disk at once.
const MANY_UNSYNCED: u64 = 64 * 1024 * 1024;

/// Fewer are when they have waited for so many milliseconds.
const UNSYNCED_AT_MOST: u64 = 1000;

/// How an image is to be brought on.
#[derive(Clone, Copy)]
pub(crate) enum Way {
    InPlace,
    /// The whole tape is written to a new file.
    Anew,
    /// Not by now: that failed lately, and takes long.
    Later,
}

/// The image of a volume, and how it went so far.
#[derive(Drop)]
pub(crate) struct ImageInUse<S: ImageStore + Drop> {
    pub kept: SavedImage<S>,
    /// So often the disk failed since it was whole the last time.
    failures: u32,
    /// Whether its tape was settled for a new file. Then it doesn't follow the tape any more, and isn't written on.
    is_given_up: bool,
}

impl<S: ImageStore + Drop> ImageInUse<S> {
    /// How it is to be brought on. Between tries to write a new file more and more time passes, unless it is the last.
    pub fn way(&self, is_last: bool) -> Way {
        if self.failures < MOST_IN_PLACE && !self.is_given_up {
            Way::InPlace
        } else if is_last || self.failures.is_power_of_two() || self.failures % AT_THE_LATEST == 0 {
            Way::Anew
        } else {
            Way::Later
        }
    }

    /// It isn't written on any more: its tape is settled for a new file.
    pub fn give_up(&mut self) {
        self.is_given_up = true;
    }

    /// A new file took its place.
    pub fn replace(&mut self, kept: SavedImage<S>) {
        self.kept = kept;
        self.is_given_up = false;
    }

    /// Notes how it went. A disk that is full doesn't fail.
    pub fn note(&mut self, written: Result<Extent, KeepFault>) {
        match written {
            Ok(Extent::All) => self.failures = 0,
            Ok(Extent::Part) => {}
            Err(
                KeepFault::Failed
                | KeepFault::Changed
                | KeepFault::Moved
                | KeepFault::LockLost
                | KeepFault::System(_),
            ) => self.failures = self.failures.saturating_add(1),
            Err(KeepFault::Full) | Err(KeepFault::NoMemory) | Err(KeepFault::NoImage) => {
                if self.is_given_up {
                    self.failures = self.failures.saturating_add(1);
                }
            }
        }
    }
}

/// What was copied into an image in the background and isn't brought to the disk yet.
#[derive(Clone, Copy, Default)]
struct Unsynced {
    bytes: u64,
    /// When they were seen the first time.
    seen: Option<Instant>,
    has_waited: bool,
}

/// The image of the volume with a tag. Contracts see the tag, and whether the volume is protected.
#[derive(Drop)]
pub struct VolumeImage<S: ImageStore + Drop> {
    pub(crate) tag: VolumeTag,
    /// Whether the volume is as its image is, which can't be written.
    pub(crate) is_protected: bool,
    pub(crate) in_use: Mutex<ImageInUse<S>>,
    pub(crate) watch: Watch,
    unsynced: Mutex<Unsynced>,
}

impl<S: ImageStore + Drop> Model for VolumeImage<S> {
    ghost use Rattle.saved_media.specs.Seen.{SeenImage};

    ghost Value = { SeenImage };

    ghost view = { λ i. record { tag = i.tag; is_protected = i.is_protected } };
}

impl<S: ImageStore + Drop> VolumeImage<S> {
    /// The image of a volume, from which that was read.
    pub fn new(volume: &Volume, kept: SavedImage<S>) -> VolumeImage<S>
        ensures { result ≡ record { tag = volume.now.tag; is_protected = volume.now.protected } }
    {
        VolumeImage {
            tag: volume.tag,
            is_protected: volume.protected,
            in_use: Mutex::new(ImageInUse {
                kept,
                failures: 0,
                is_given_up: false,
            }),
            watch: Watch::new(),
            unsynced: Mutex::new(Unsynced::default()),
        }
    }

    /// Notes that so many bytes more were copied into it, and not brought to the disk.
    pub(crate) fn note_copied<R: Wait>(&self, rt: &R, bytes: u64) {
        let mut unsynced = self.unsynced.lock(rt);
        unsynced.bytes = unsynced.bytes.saturating_add(bytes);
    }

    /// Notes that all of it was brought to the disk.
    pub(crate) fn note_synced<R: Wait>(&self, rt: &R) {
        *self.unsynced.lock(rt) = Unsynced::default();
    }

    /// Whether what was copied in the background is to be brought to the disk: it is much, or has waited.
    pub(crate) fn is_sync_due<R: Wait>(&self, rt: &R) -> bool {
        let unsynced = self.unsynced.lock(rt);
        unsynced.bytes >= MANY_UNSYNCED || unsynced.has_waited
    }

    /// Whether what was copied in the background has waited, as is seen now. If no clock says when that is, it has.
    pub(crate) fn has_waited<R: Wait>(&self, rt: &R, now: Option<Instant>) -> bool {
        let mut unsynced = self.unsynced.lock(rt);
        if unsynced.bytes == 0 {
            return false;
        }
        unsynced.has_waited = match (unsynced.seen, now) {
            (Some(seen), Some(now)) => {
                now.duration_since(seen) >= Duration::from_millis(UNSYNCED_AT_MOST)
            }
            (None, Some(_)) => false,
            (_, None) => true,
        };
        unsynced.seen = unsynced.seen.or(now);
        unsynced.has_waited
    }

    /// The image of a tag among some.
    pub(crate) fn find(images: &[VolumeImage<S>], tag: VolumeTag) -> Option<&VolumeImage<S>> {
        images.iter().find(|image| image.tag == tag)
    }
}
