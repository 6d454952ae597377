//! What the map's refusals are called at a device.

ghost use Rattle.std.specs.Prelude.{◌≡◌};
ghost use Rattle.device_server.specs.Changer.{move_condition};
ghost use Rattle.device_server.specs.View.{take_fault_of, put_fault_of};

use device_server::{PutFault, TakeFault};
use scsi_sense::Condition;
use tape_medium::MapFault;

/// What a MOVE MEDIUM that is refused reports (SMC-3, "MOVE MEDIUM command").
pub(crate) fn move_condition(fault: MapFault) -> Condition
    ensures { result ≡ move_condition fault }
{
    match fault {
        MapFault::BadAddress => Condition::InvalidElementAddress,
        MapFault::SourceEmpty => Condition::MediumSourceElementEmpty,
        MapFault::DestinationFull => Condition::MediumDestinationElementFull,
    }
}

pub(crate) fn take_fault(fault: MapFault) -> TakeFault
    ensures { result ≡ take_fault_of fault }
{
    match fault {
        MapFault::SourceEmpty => TakeFault::Empty,
        MapFault::BadAddress | MapFault::DestinationFull => TakeFault::BadPlace,
    }
}

pub(crate) fn put_fault(fault: MapFault) -> PutFault
    ensures { result ≡ put_fault_of fault }
{
    match fault {
        MapFault::DestinationFull => PutFault::Full,
        MapFault::BadAddress | MapFault::SourceEmpty => PutFault::BadPlace,
    }
}
