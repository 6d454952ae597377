//! Drives in memory, and the files that their volumes are kept in.

ghost use Rattle.device_server.specs.Attending.{WasAsked};
ghost use Rattle.device_server.specs.Settled.{SameButSettled};

use device_server::{Attendant, DeviceServer, field_fault};
use library_inventory::Inventory;
use library_start::Device;
use saved_media::{InventoryStore, VolumeImage};
use scsi_cdb::{CommandSet, Request};
use std::alloc::Global;
use std::process::Abort;
use std::sync::{Mutex, Wait};
use tape_flush::{ImageStore, StoreFault, image_ends, open_image};
use tape_image::index_image;
use tape_keeper::TapeSource;
use tape_medium::{MAX_BLOCK, Tape, Volume, VolumeTag};
use tape_server::TapeDrive;

/// A WRITE of "hi" as it comes to a drive, and a WRITE FILEMARKS of one.
pub(super) const WRITE_HI: Request = Request::Write {
    fixed: false,
    transfer_length: 2,
};

pub(super) const WRITE_MARK: Request = Request::WriteFilemarks {
    write_setmarks: false,
    immediate: false,
    filemark_count: 1,
};

/// The image of "hi", and of "hi" and a filemark.
pub(super) const BLOCK: &[u8] = &[2, 0, 0, 0, b'h', b'i', 2, 0, 0, 0];

pub(super) const BLOCK_AND_MARK: &[u8] = &[2, 0, 0, 0, b'h', b'i', 2, 0, 0, 0, 0, 0, 0, 0];

/// Two drives, as logical units 0 and 1: that as unit 0 is where volumes lie that aren't written on.
#[derive(Drop)]
pub(super) struct Units {
    zero: Mutex<Device>,
    one: Mutex<Device>,
}

impl Units {
    /// Drives with these volumes, which are empty.
    pub(super) fn new(alloc: Global, zero: VolumeTag, one: VolumeTag) -> Units {
        Units {
            zero: Mutex::new(drive_with_volume(alloc, zero)),
            one: Mutex::new(drive_with_volume(alloc, one)),
        }
    }

    fn at(&self, lun: u8) -> Option<&Mutex<Device>> {
        match lun {
            0 => Some(&self.zero),
            1 => Some(&self.one),
            _ => None,
        }
    }

    /// A drive performs a request, where it finds memory.
    pub(super) fn performs<R: Wait>(
        &self,
        rt: &R,
        alloc: Global,
        lun: u8,
        request: &Request,
        bytes: &[u8],
    ) -> bool {
        let Some(drive) = self.at(lun) else {
            return false;
        };
        let mut device = drive.lock(rt);
        let commands = CommandSet {
            profile: device.profile(),
            kind: device.kind(),
        };
        field_fault(commands, request, bytes).is_none()
            && device.perform(alloc, request, bytes).is_ok()
    }

    /// Each volume is moved to where the other is.
    pub(super) fn swap<R: Wait>(&self, rt: &R) {
        let mut zero = self.zero.lock(rt);
        let mut one = self.one.lock(rt);
        if let (Ok(first), Ok(second)) = (zero.take_volume(0), one.take_volume(0)) {
            let _ = one.put_volume(0, first);
            let _ = zero.put_volume(0, second);
        }
    }
}

impl TapeSource<Device> for Units {
    // of what lies under their locks nothing is known
    ghost has_unit = { λ _ _ _. ⊥ };

    fn units(&self) -> u8 {
        2
    }

    fn attend<R: Wait, A: Attendant<Device>>(&self, rt: &R, lun: u8, attendant: &mut A) {
        if let Some(drive) = self.at(lun) {
            let mut device = drive.lock(rt);
            attendant.attend(lun, &mut *device);
        }
    }
}

/// An empty volume.
fn volume_of(alloc: Global, tag: VolumeTag) -> Volume {
    Volume {
        tag,
        protected: false,
        tape: Tape::new(alloc, 1_000),
    }
}

fn drive_with_volume(alloc: Global, tag: VolumeTag) -> Device {
    let mut drive = TapeDrive::new();
    let _ = drive.put_volume(0, volume_of(alloc, tag));
    Device::Tape(drive)
}

/// The image of an empty volume, which goes into a store without a byte.
pub(super) fn image_in<S: ImageStore + Drop>(
    rt: &impl Abort,
    alloc: Global,
    tag: VolumeTag,
    store: S,
) -> VolumeImage<S> {
    let mut nothing: &[u8] = &[];
    let index = index_image(alloc, MAX_BLOCK, &mut nothing).expect(rt, "an index");
    let ends = image_ends(alloc, &index).expect(rt, "ends");
    VolumeImage::new(&volume_of(alloc, tag), open_image(store, ends, 0))
}

/// Keeps no inventory.
#[derive(Drop)]
pub(super) struct NoStore;

impl InventoryStore for NoStore {
    fn write(&mut self, _inventory: &Inventory) -> Result<(), StoreFault> {
        Ok(())
    }
}
