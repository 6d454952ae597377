ghost use Rattle.std.specs.Prelude.{◌≡◌};
ghost use Rattle.scsi_cdb.specs.Classes.{class_of, is_immediate};
ghost use Rattle.scsi_cdb.specs.declared.request.Request.TheVariants.{PreventAllowMediumRemoval};

use crate::classes::Class;
use crate::request::Request;

/// The class of a request: the row of the permission table that it is judged by.
pub fn class(request: &Request) -> Class
    ensures { result ≡ class_of request.now }
{
    match request {
        Request::TestUnitReady => Class::TestUnitReady,
        Request::Rewind => Class::Rewind,
        Request::RequestSense { .. } => Class::RequestSense,
        Request::ReadBlockLimits => Class::ReadBlockLimits,
        Request::InitializeElementStatus => Class::InitializeElementStatus,
        Request::Read { .. } => Class::Read,
        Request::Write { .. } => Class::Write,
        Request::WriteFilemarks { .. } => Class::WriteFilemarks,
        Request::Space { .. } => Class::Space,
        Request::Inquiry { .. } => Class::Inquiry,
        Request::ModeSelect { .. } => Class::ModeSelect,
        Request::Erase => Class::Erase,
        Request::ModeSense { .. } => Class::ModeSense,
        Request::LoadUnload { .. } => Class::LoadUnload,
        Request::PreventAllowMediumRemoval { prevent } => class_of_prevent(*prevent),
        Request::Locate { .. } => Class::Locate,
        Request::ReadPosition => Class::ReadPosition,
        Request::PersistentReserveIn { .. } => Class::PersistentReserveIn,
        Request::PersistentReserveOut { service_action, .. } => service_action.class(),
        Request::ReportLuns { .. } => Class::ReportLuns,
        Request::MoveMedium { .. } => Class::MoveMedium,
        Request::ReadElementStatus {
            current_data: true,
            ..
        } => Class::ReadElementStatusCurdata,
        Request::ReadElementStatus { .. } => Class::ReadElementStatus,
        Request::Host(command) => command.class(),
    }
}

/// Whether the status may be returned before what a request writes is on the medium: IMMED of WRITE FILEMARKS(6) (SSC-4, "WRITE
/// FILEMARKS(6) command"). IMMED of other commands isn't offered: their status always waits.
pub fn is_immediate(request: &Request) -> bool
    ensures { result ≡ is_immediate request.now }
{
    matches!(
        request,
        Request::WriteFilemarks {
            immediate: true,
            ..
        }
    )
}

/// The class of PREVENT ALLOW MEDIUM REMOVAL by its field PREVENT.
pub fn class_of_prevent(prevent: u8) -> Class
    ensures { result ≡ class_of (PreventAllowMediumRemoval prevent) }
{
    if prevent == 0 {
        Class::AllowRemoval
    } else {
        Class::PreventRemoval
    }
}
