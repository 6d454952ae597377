//! The summary of a unit.

ghost use Rattle.std.specs.Prelude.{◌≡◌, IfOk, option_map};
ghost use Rattle.device_server.specs.Volumes.{volume_at};
ghost use Rattle.library_start.specs.Devices.{shown_as};
ghost use Rattle.status_reader.specs.Summaries.{IsSummaryOf, ShowsDevice, volume_summary};

use crate::elements::elements_of;
use library_start::Device;
use library_status::{UnitContents, UnitSummary, VolumeSummary};
use logical_unit::LogicalUnit;
use std::alloc::{AllocError, Global};
use tape_medium::Volume;

/// A summary of a unit.
pub(crate) fn summary_of(
    alloc: Global,
    unit: &LogicalUnit<Device>,
) -> Result<UnitSummary, AllocError>
    ensures { IfOk result (IsSummaryOf unit.now.unit) }
{
    let state = unit.state();
    let reservations = state.reservations();
    Ok(UnitSummary {
        lun: state.lun(),
        last: unit.last(),
        waiting: unit.records().len(),
        slots: state.slots_used(),
        is_prevented: state.is_prevented(),
        generation: reservations.generation(),
        reservation: reservations.reservation(),
        registrations: Vec::from_slice(alloc, reservations.registrations())?,
        contents: contents_of(alloc, unit.device())?,
    })
}

/// What is in a device.
fn contents_of(alloc: Global, device: &Device) -> Result<UnitContents, AllocError>
    ensures { IfOk result (ShowsDevice (shown_as device.now)) }
{
    match device {
        Device::Changer(changer) => {
            Ok(UnitContents::Changer(elements_of(alloc, changer.elements())?))
        }
        Device::Tape(_) => Ok(UnitContents::Drive(in_bay(device))),
    }
}

/// The volume in the bay of a drive, if there is one.
fn in_bay(device: &Device) -> Option<VolumeSummary>
    ensures { result ≡ option_map volume_summary (volume_at (shown_as device.now) 0) }
{
    match device.volume(0) {
        Some(volume) => Some(volume_summary(volume)),
        None => None,
    }
}

fn volume_summary(volume: &Volume) -> VolumeSummary
    ensures { result ≡ volume_summary volume.now }
{
    VolumeSummary {
        tag: volume.tag,
        is_protected: volume.protected,
        position: volume.tape.position(),
        objects: volume.tape.object_count(),
        unchanged: volume.tape.unchanged(),
        bytes: volume.tape.byte_count(),
    }
}
