ghost use Rattle.std.specs.Prelude.{◌≡◌, ◌<◌};
ghost use Rattle.scsi_cdb.specs.Kinds.{kind_at};

use device_server::Attendant;
use kept_unit::Ledgers;
use library_start::Device;
use lun_router::{Library, Pass};
use std::sync::Wait;
use tape_keeper::TapeSource;

/// The tapes of a library, whichever ledgers it has.
#[derive(Drop)]
pub(crate) struct LibraryTapes<'a, B: Ledgers> {
    pub library: &'a Library<B, Device, Pass>,
}

impl<'a, B: Ledgers> TapeSource<Device> for LibraryTapes<'a, B> {
    ghost has_unit = { λ tapes lun kind. (lun < tapes.library.now.units) × (kind ≡ kind_at lun) };

    fn units(&self) -> u8 {
        self.library.units()
    }

    fn attend<R: Wait, A: Attendant<Device>>(&self, rt: &R, lun: u8, attendant: &mut A) {
        self.library.attend(rt, lun, attendant);
    }
}
