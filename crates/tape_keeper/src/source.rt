use device_server::{Attendant, DeviceServer};
use std::sync::Wait;

/// Units whose volumes are looked after, as those of a library that is served.
pub trait TapeSource<D: DeviceServer> {
    ghost use Rattle.std.specs.Prelude.{ℕ};
    ghost use Rattle.scsi_cdb.specs.declared.kind.Kind.{Kind};
    ghost use Rattle.device_server.specs.Attending.{WasAsked};

    /// That there is a unit of a number, with a device of this kind.
    ghost has_unit: { Self → (lun : ℕ) → Kind → Type 0 };

    /// How many units there are.
    fn units(&self) -> u8;

    /// Lets an attendant look after the volumes of a unit's device while nobody else is at it. This may wait until nobody is.
    fn attend<R: Wait, A: Attendant<D>>(&self, rt: &R, lun: u8, attendant: &mut A)
        ensures { (kind : Kind) → has_unit self.now lun kind → WasAsked A.looks_after lun kind attendant.old attendant.new };
}
