ghost use Rattle.std.specs.Prelude.{◌≡◌, IfOk};
ghost use Rattle.logical_unit.specs.Step.{made};

use device_server::DeviceServer;
use logical_unit::LogicalUnit;
use std::alloc::{AllocError, Global};

/// A unit at power on over a device, as one logical unit among so many.
pub fn unit_at<D: DeviceServer>(
    alloc: Global,
    lun: u8,
    units: u8,
    device: D,
) -> Result<LogicalUnit<D>, AllocError>
    ensures { IfOk result (λ unit. unit ≡ record { unit = made (D.shown device) lun units 0; room = 0 }) }
{
    match LogicalUnit::new(alloc, lun, units, Box::new(alloc, device)?) {
        Ok(unit) => Ok(unit),
        Err((refused, _)) => Err(refused),
    }
}
