//! What a drive of the hosts' profile counts, and what its log pages show of a volume.

ghost use Rattle.std.specs.Prelude.{◌≡◌};
ghost use Rattle.device_server.specs.HostDrive.{counted, volume_log};

use crate::early_warning::zone;
use log_pages::{LogCounters, VolumeLog};
use scsi_cdb::Request;
use tape_medium::Volume;

/// The counters after a command that passed blocks of so many bytes, or wrote so many, and sent so many.
pub(crate) fn counted(
    counters: LogCounters,
    request: &Request,
    passed: u64,
    sent: u64,
) -> LogCounters
    ensures { result ≡ counted counters request.now passed sent }
{
    match request {
        Request::Read { .. } => counters.read(passed, sent),
        Request::Write { .. } => counters.wrote(passed),
        Request::TestUnitReady
        | Request::Rewind
        | Request::RequestSense { .. }
        | Request::ReadBlockLimits
        | Request::InitializeElementStatus
        | Request::WriteFilemarks { .. }
        | Request::Space { .. }
        | Request::Inquiry { .. }
        | Request::ModeSelect { .. }
        | Request::Erase
        | Request::ModeSense { .. }
        | Request::LoadUnload { .. }
        | Request::PreventAllowMediumRemoval { .. }
        | Request::Locate { .. }
        | Request::ReadPosition
        | Request::PersistentReserveIn { .. }
        | Request::PersistentReserveOut { .. }
        | Request::ReportLuns { .. }
        | Request::MoveMedium { .. }
        | Request::ReadElementStatus { .. }
        | Request::Host(_) => counters,
    }
}

/// What log pages show of a volume that is loaded.
pub(crate) fn volume_log(volume: &Volume) -> VolumeLog
    ensures { result ≡ volume_log volume.now }
{
    let capacity = volume.tape.capacity();
    VolumeLog {
        capacity,
        to_end_of_data: volume.tape.byte_count(),
        position: volume.tape.bytes_before_position(),
        early_warning: zone(capacity),
    }
}
