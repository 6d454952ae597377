//! What is done with a device while nobody else is at it: to see which volumes it has, and to take a part of one.

ghost use Rattle.std.specs.Prelude.{◌≡◌};
ghost use Rattle.device_server.specs.Settled.{SameButSettled};
ghost use Rattle.device_server.specs.View.{held_in};
ghost use Rattle.library_start.specs.Devices.{shown_as};
ghost use Rattle.saved_media.specs.Looking.{WasTaken, settled_by};

use device_server::{Attendant, DeviceServer};
use library_start::Device;
use scsi_cdb::Kind;
use tape_flush::{FlushFault, ImageStore, PartRange, SavedImage, TapePart};
use tape_medium::{FIRST_IMPORT_EXPORT, FIRST_STORAGE, VolumeTag};

/// The most import/export elements, and the most storage elements, that a changer has.
const MOST_IMPORT_EXPORTS: u16 = 16;

const MOST_SLOTS: u16 = 1024;

/// Where a volume is: in which unit's device, and where in that.
#[derive(Clone, Copy)]
pub(crate) struct VolumePlace {
    pub lun: u8,
    pub place: u16,
    pub tag: VolumeTag,
}

/// Notes the tag of the volume in a drive.
#[derive(Drop)]
pub(crate) struct BayLook {
    pub found: Option<VolumeTag>,
}

impl Attendant<Device> for BayLook {
    ghost looks_after = { λ old lun before after new. (new.found ≡ held_in before 0) × (after ≡ before) };

    fn attend(&mut self, _: u8, device: &mut Device) {
        self.found = device.held(0);
    }
}

/// Looks for the volume with a tag in a device.
#[derive(Drop)]
pub(crate) struct VolumeLook {
    tag: VolumeTag,
    /// Where it is, if it is there.
    pub found: Option<u16>,
}

impl VolumeLook {
    /// It wasn't seen yet.
    pub fn new(tag: VolumeTag) -> VolumeLook {
        VolumeLook { tag, found: None }
    }

    /// Looks at so many places from an address on.
    fn look_from(&mut self, device: &Device, first: u16, count: u16) {
        for number in 0..count {
            let place = first.saturating_add(number);
            if device
                .volume(place)
                .is_some_and(|volume| volume.tag == self.tag)
            {
                self.found = Some(place);
                return;
            }
        }
    }
}

impl Attendant<Device> for VolumeLook {
    ghost looks_after = { λ _ _ before after _. after ≡ before };

    fn attend(&mut self, _: u8, device: &mut Device) {
        match device.kind() {
            Kind::Drive => self.look_from(device, 0, 1),
            Kind::Changer => {
                self.look_from(device, FIRST_IMPORT_EXPORT, MOST_IMPORT_EXPORTS);
                self.look_from(device, FIRST_STORAGE, MOST_SLOTS);
            }
        }
    }
}

/// Takes a part of a volume for its image, and settles the volume up to there.
#[derive(Drop)]
pub(crate) struct PartLook<'a, S: ImageStore> {
    pub kept: &'a SavedImage<S>,
    pub at: VolumePlace,
    pub part: &'a mut TapePart,
    /// What was taken, if the volume was there.
    pub taken: Option<Result<PartRange, FlushFault>>,
}

impl<'a, S: ImageStore> PartLook<'a, S> {
    /// Takes a part of the volume, if it is still at its place.
    fn take(&mut self, device: &Device) -> Option<Result<PartRange, FlushFault>>
        ensures taken { WasTaken self.old.kept.now (shown_as device.now) self.old.at.place self.old.at.tag result self.new.part.now }
        ensures at { self.new.at ≡ self.old.at }
    {
        let volume = device.volume(self.at.place)?;
        if volume.tag == self.at.tag {
            Some(self.kept.take_part(&volume.tape, self.part))
        } else {
            None
        }
    }
}

impl<'a, S: ImageStore> Attendant<Device> for PartLook<'a, S> {
    ghost looks_after = { λ old lun before after new. WasTaken old.kept.now before old.at.place old.at.tag new.taken new.part.now × (after ≡ settled_by new.taken old.at.place before) };

    fn attend(&mut self, _: u8, device: &mut Device) {
        let taken = self.take(device);
        if let Some(Ok(range)) = taken {
            device.settle(self.at.place, range.end);
        }
        self.taken = taken;
    }
}
