ghost use Rattle.std.specs.Prelude.{◌≡◌};

use changer_server::Changer;
use device_server::{BadPlace, DeviceServer, Outcome, PutFault, TakeFault};
use inquiry_data::UnitIdentity;
use scsi_cdb::{Kind, Profile, Request};
use std::alloc::{AllocError, Global};
use tape_medium::{Volume, VolumeTag};
use tape_server::TapeDrive;

/// A device of the library.
#[derive(Drop)]
pub enum Device {
    Changer(Changer),
    Tape(TapeDrive),
}

impl Device {
    ghost use Rattle.std.specs.Option.{option_map};
    ghost use Rattle.device_server.specs.Volumes.{volume_at};
    ghost use Rattle.device_server.specs.Settled.{settled_at, SameButSettled};
    ghost use Rattle.library_start.specs.Devices.{shown_as, source_of};

    /// The volume at a place: 0 is a drive's bay, a changer's are its storage and import/export elements, by address.
    pub fn volume(&self, place: u16) -> Option<&Volume>
        ensures { option_map (λ volume. volume.now) result ≡ volume_at (shown_as self.now) place }
    {
        match self {
            Device::Changer(changer) => changer.elements().volume(place),
            Device::Tape(drive) if place == 0 => drive.volume(),
            Device::Tape(_) => None,
        }
    }

    /// The source of the volume in an element of a changer, if it is of the hosts' profile and knows it.
    pub fn source(&self, address: u16) -> Option<u16>
        ensures { result ≡ source_of (shown_as self.now) address }
    {
        match self {
            Device::Changer(changer) => changer.hosts()?.sources.source(address),
            Device::Tape(_) => None,
        }
    }

    /// From now on the first `objects` objects of the volume at a place count as unchanged, or all where it has fewer. Nothing else
    /// changes.
    #[tactic(auto, using(device_server::proofs::SettledLemmas::settling_changes))]
    pub fn settle(&mut self, place: u16, objects: u32)
        ensures settled { shown_as self.new ≡ settled_at (shown_as self.old) place objects }
        ensures same { SameButSettled (shown_as self.old) (shown_as self.new) }
    {
        match self {
            Device::Changer(changer) => changer.settle(place, objects),
            Device::Tape(drive) => {
                if place == 0 {
                    drive.settle(objects);
                }
            }
        }
    }
}

impl DeviceServer for Device {
    ghost use Rattle.library_start.specs.Devices.{shown_as};

    ghost shown = { shown_as };

    fn kind(&self) -> Kind {
        match self {
            Device::Changer(changer) => changer.kind(),
            Device::Tape(drive) => drive.kind(),
        }
    }

    fn profile(&self) -> Profile {
        match self {
            Device::Changer(changer) => changer.profile(),
            Device::Tape(drive) => drive.profile(),
        }
    }

    fn identity(&self) -> Option<UnitIdentity> {
        match self {
            Device::Changer(changer) => changer.identity(),
            Device::Tape(drive) => drive.identity(),
        }
    }

    fn drives(&self) -> u16 {
        match self {
            Device::Changer(changer) => changer.drives(),
            Device::Tape(drive) => drive.drives(),
        }
    }

    fn held(&self, place: u16) -> Option<VolumeTag> {
        match self {
            Device::Changer(changer) => changer.held(place),
            Device::Tape(drive) => drive.held(place),
        }
    }

    fn leaves_to_drives(&self, request: &Request) -> bool {
        match self {
            Device::Changer(changer) => changer.leaves_to_drives(request),
            Device::Tape(drive) => drive.leaves_to_drives(request),
        }
    }

    fn perform(
        &mut self,
        alloc: Global,
        request: &Request,
        bytes: &[u8],
    ) -> Result<Outcome, AllocError> {
        match self {
            Device::Changer(changer) => changer.perform(alloc, request, bytes),
            Device::Tape(drive) => drive.perform(alloc, request, bytes),
        }
    }

    fn take_volume(&mut self, place: u16) -> Result<Volume, TakeFault> {
        match self {
            Device::Changer(changer) => changer.take_volume(place),
            Device::Tape(drive) => drive.take_volume(place),
        }
    }

    fn put_volume(&mut self, place: u16, volume: Volume) -> Result<(), (Volume, PutFault)> {
        match self {
            Device::Changer(changer) => changer.put_volume(place, volume),
            Device::Tape(drive) => drive.put_volume(place, volume),
        }
    }

    fn note_journey(&mut self, source: u16, destination: u16) {
        match self {
            Device::Changer(changer) => changer.note_journey(source, destination),
            Device::Tape(drive) => drive.note_journey(source, destination),
        }
    }

    fn note_exchange(&mut self, source: u16, first: u16, second: u16) {
        match self {
            Device::Changer(changer) => changer.note_exchange(source, first, second),
            Device::Tape(drive) => drive.note_exchange(source, first, second),
        }
    }

    fn mark(&mut self, place: u16, tag: Option<VolumeTag>) -> Result<(), BadPlace> {
        match self {
            Device::Changer(changer) => changer.mark(place, tag),
            Device::Tape(drive) => drive.mark(place, tag),
        }
    }

    fn reset(&mut self) {
        match self {
            Device::Changer(changer) => changer.reset(),
            Device::Tape(drive) => drive.reset(),
        }
    }
}
