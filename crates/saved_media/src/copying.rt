//! The volumes of a library, copied into their images part by part: the unit that one is in waits while a part is taken, and goes on while that is
//! written.

use crate::looking::{BayLook, PartLook, VolumeLook, VolumePlace};
use crate::shared_requests::SharedRequests;
use crate::volume_image::{ImageInUse, VolumeImage, Way};
use crate::watch::Extent;
use library_start::Device;
use std::alloc::Global;
use std::sync::Wait;
use tape_flush::{FlushFault, ImageStore, PartRange, SavedImage, StoreFault, TapePart};
use tape_keeper::{KeepChange, KeepEvent, KeepFault, KeepListener, SavedThing, TapeSource};
use tape_medium::{FIRST_STORAGE, VolumeTag};

/// What volumes are copied for.
#[derive(Clone, Copy)]
pub(crate) enum Purpose {
    /// An answer that waits: all of a volume is, and brought to the disk.
    Answer,
    /// The end of the library: the same, and for the last time.
    End,
    /// What is copied in the background: so many parts of a volume are at once. They are brought to the disk if they are much or have waited, or
    /// if the volume couldn't be written.
    Behind,
}

/// How far a copy goes.
#[derive(Clone, Copy)]
pub(crate) enum Depth {
    /// Into the image.
    Image,
    /// And to the disk.
    Disk,
}

/// What was copied of a volume.
#[derive(Clone, Copy)]
struct Copied {
    extent: Extent,
    /// So many bytes were written to its image.
    bytes: u64,
}

/// So many parts of a volume are copied in the background before others have their turn.
const MOST_PARTS: u8 = 16;

/// Copies what volumes have that isn't in their images yet. A volume's image is locked before its unit, and never after it.
#[derive(Drop)]
pub(crate) struct Copying<
    'a,
    S: ImageStore + Drop,
    R: Wait,
    T: TapeSource<Device>,
    H: KeepListener,
> {
    pub rt: &'a R,
    pub alloc: Global,
    pub images: &'a [VolumeImage<S>],
    pub requests: &'a SharedRequests,
    pub source: &'a T,
    pub listener: &'a H,
    pub purpose: Purpose,
}

impl<'a, S: ImageStore + Drop, R: Wait, T: TapeSource<Device>, H: KeepListener> Copying<
    'a,
    S,
    R,
    T,
    H,
> {
    /// Copies the volume in a drive, at which so many bytes aren't copied yet. If there is none, or a protected one, they were written to one that
    /// was moved, and was kept then.
    pub fn copy_drive(&self, lun: u8, behind: u64) {
        let mut look = BayLook { found: None };
        self.source.attend(self.rt, lun, &mut look);
        match look
            .found
            .and_then(|tag| VolumeImage::find(self.images, tag))
        {
            Some(image) if !image.is_protected => {
                // What can't be copied is told, and tried again.
                let _ = self.copy_image(image, place_in_drive(lun, image.tag));
            }
            Some(_) | None => self.take_off(lun, behind),
        }
    }

    /// Copies the volume with a tag that is in a drive, if it isn't moved. Whether it is copied.
    pub fn copy_from_drive(&self, lun: u8, tag: VolumeTag) -> bool {
        self.copy_volume(place_in_drive(lun, tag))
    }

    /// Copies the volume with a tag, wherever it is. Whether it is copied.
    pub fn copy_from_anywhere(&self, tag: VolumeTag) -> bool {
        let somewhere = VolumePlace {
            lun: 0,
            place: FIRST_STORAGE,
            tag,
        };
        self.copy_volume(self.find(somewhere))
    }

    /// Copies the volume that is supposed to be at a place. Whether it is copied; a protected one is as its image is.
    fn copy_volume(&self, at: VolumePlace) -> bool {
        let Some(image) = VolumeImage::find(self.images, at.tag) else {
            self.tell(at.tag, KeepChange::Fails(KeepFault::NoImage));
            return false;
        };
        image.is_protected || self.copy_image(image, at)
    }

    /// Copies a volume into its image, and tells where that fails for the first time, or no longer does. Whether it is copied. What couldn't
    /// be written is brought to the disk too, since else nobody knows whether the disk takes it.
    fn copy_image(&self, image: &VolumeImage<S>, at: VolumePlace) -> bool {
        let mut in_use = image.in_use.lock(self.rt);
        let depth = self.depth_of(image);
        let copied = self.bring_on(&mut in_use, at, depth);
        match (copied, depth) {
            (Ok(copied), Depth::Image) => image.note_copied(self.rt, copied.bytes),
            (Ok(_), Depth::Disk) => image.note_synced(self.rt),
            (Err(_), _) => self.stick(at.lun),
        }
        let extent = copied.map(|copied| copied.extent);
        in_use.note(extent);
        if let Some(change) = image.watch.note(extent) {
            self.tell(at.tag, change);
        }
        extent.is_ok()
    }

    /// How far a copy of a volume goes.
    fn depth_of(&self, image: &VolumeImage<S>) -> Depth {
        match self.purpose {
            Purpose::Behind if !image.watch.is_failing() && !image.is_sync_due(self.rt) => {
                Depth::Image
            }
            Purpose::Behind | Purpose::Answer | Purpose::End => Depth::Disk,
        }
    }

    /// Copies a volume into its image, in a new file where the disk has failed again.
    fn bring_on(
        &self,
        in_use: &mut ImageInUse<S>,
        at: VolumePlace,
        depth: Depth,
    ) -> Result<Copied, KeepFault> {
        match in_use.way(matches!(self.purpose, Purpose::End)) {
            Way::InPlace => self.keep(&mut in_use.kept, at, depth),
            Way::Anew => self.keep_anew(in_use, at),
            Way::Later => Err(KeepFault::Failed),
        }
    }

    /// Copies all of the volume at a place into a new file, brings that to the disk, and has it take the place of the one that couldn't be
    /// written.
    fn keep_anew(&self, in_use: &mut ImageInUse<S>, at: VolumePlace) -> Result<Copied, KeepFault> {
        let mut kept = in_use.kept.renewed(self.alloc).map_err(fault_of_store)?;
        in_use.give_up();
        let copied = self.copy(&mut kept, at, None).map_err(fault_of_flush)?;
        kept.sync_anew().map_err(fault_of_store)?;
        in_use.replace(kept);
        Ok(copied)
    }

    /// Copies the volume at a place into its image, and brings that to the disk if it is to be there. How much of the volume it has then.
    fn keep(
        &self,
        kept: &mut SavedImage<S>,
        at: VolumePlace,
        depth: Depth,
    ) -> Result<Copied, KeepFault> {
        let most_parts = match self.purpose {
            Purpose::Answer | Purpose::End => None,
            Purpose::Behind => Some(MOST_PARTS),
        };
        let copied = self.copy(kept, at, most_parts).map_err(fault_of_flush)?;
        match depth {
            Depth::Image => {}
            Depth::Disk => kept.sync().map_err(fault_of_store)?,
        }
        Ok(copied)
    }

    /// Copies what a volume has by now, wherever it is moved meanwhile; in the background only so many parts at once, so that the volumes
    /// of other drives have their turn. What is written on after that isn't waited for, and what was cut off meanwhile isn't needed any
    /// more.
    fn copy(
        &self,
        kept: &mut SavedImage<S>,
        at: VolumePlace,
        most_parts: Option<u8>,
    ) -> Result<Copied, FlushFault> {
        let mut part = TapePart::new(self.alloc)?;
        let mut at = at;
        let mut wanted = u32::MAX;
        let mut parts = 0u8;
        let mut bytes = 0u64;
        for _look in self.rt.forever() {
            let before = self.requests.behind(self.rt, at.lun);
            let Some(taken) = self.take_part(kept, at, &mut part) else {
                at = self.find(at);
                continue;
            };
            let range = taken?;
            if !kept.is_unchanged(range) {
                kept.write_part(range, &part)?;
                bytes = bytes.saturating_add(part.size() as u64);
            }
            self.note_copied(at.lun, range, &part, before);
            wanted = wanted.min(range.count);
            parts = parts.saturating_add(1);
            if range.end >= wanted {
                break;
            }
            if most_parts.is_some_and(|most| parts >= most) {
                let extent = Extent::Part;
                return Ok(Copied { extent, bytes });
            }
        }
        let extent = Extent::All;
        Ok(Copied { extent, bytes })
    }

    /// Notes what is copied now: the part, or if the volume has no more, all that wasn't copied before it was taken.
    fn note_copied(&self, lun: u8, range: PartRange, part: &TapePart, before: u64) {
        let copied = if range.end >= range.count {
            before
        } else {
            before.min(part.size() as u64)
        };
        self.take_off(lun, copied);
    }

    /// So many bytes fewer aren't copied yet at a drive, for which replies to WRITEs may wait. A volume's image is held here, as where a change is
    /// told: a listener locks none.
    fn take_off(&self, lun: u8, bytes: u64) {
        if self.requests.take(self.rt, lun, bytes) {
            self.listener.settled();
        }
    }

    /// What isn't copied yet at a drive couldn't be: no reply waits for it.
    fn stick(&self, lun: u8) {
        if self.requests.stick(self.rt, lun) {
            self.listener.settled();
        }
    }

    /// Takes the next part of the volume at a place, if it is still there.
    fn take_part(
        &self,
        kept: &SavedImage<S>,
        at: VolumePlace,
        part: &mut TapePart,
    ) -> Option<Result<PartRange, FlushFault>> {
        let mut look = PartLook {
            kept,
            at,
            part,
            taken: None,
        };
        self.source.attend(self.rt, at.lun, &mut look);
        look.taken
    }

    /// Where a volume is, or where it was supposed to be: no volume leaves the library, but one that is moved meanwhile may be seen nowhere.
    fn find(&self, supposed: VolumePlace) -> VolumePlace {
        let tag = supposed.tag;
        for lun in 0..self.source.units() {
            let mut look = VolumeLook::new(tag);
            self.source.attend(self.rt, lun, &mut look);
            if let Some(place) = look.found {
                return VolumePlace { lun, place, tag };
            }
        }
        supposed
    }

    fn tell(&self, tag: VolumeTag, change: KeepChange) {
        self.listener.tell(&KeepEvent {
            thing: SavedThing::Volume(tag),
            change,
        });
    }
}

/// Where the volume in a drive is.
fn place_in_drive(lun: u8, tag: VolumeTag) -> VolumePlace {
    VolumePlace { lun, place: 0, tag }
}

fn fault_of_flush(fault: FlushFault) -> KeepFault {
    match fault {
        FlushFault::NoMemory => KeepFault::NoMemory,
        FlushFault::PastLastOffset => KeepFault::Full,
        FlushFault::Store(fault) | FlushFault::Unsynced(fault) => fault_of_store(fault),
    }
}

pub(crate) fn fault_of_store(fault: StoreFault) -> KeepFault {
    match fault {
        StoreFault::Full => KeepFault::Full,
        StoreFault::Failed => KeepFault::Failed,
        StoreFault::Changed => KeepFault::Changed,
        StoreFault::Moved => KeepFault::Moved,
        StoreFault::LockLost => KeepFault::LockLost,
        StoreFault::System(error) => KeepFault::System(error),
    }
}
