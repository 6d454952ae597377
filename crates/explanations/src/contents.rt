ghost use Rattle.std.specs.Prelude.{◌≡◌};
ghost use Rattle.explanations.specs.Contents.{contents_of, contents_of_action, contents_of_host_request, contents_of_request};

use crate::reservations::ReservationList;
use scsi_cdb::{CommandSet, HostRequest, InServiceAction, Request, decode};

/// What the data of a reply are.
#[derive(Clone, Copy)]
pub enum Contents {
    /// Standard INQUIRY data.
    StandardInquiry,
    /// A page of INQUIRY with EVPD.
    VitalProductData,
    /// Of MODE SENSE(6).
    ModeParameters,
    /// Of MODE SENSE(10).
    LongModeParameters,
    /// Of LOG SENSE.
    LogPage,
    /// Of REPORT SUPPORTED OPERATION CODES, where all commands are asked for: each with its timeouts, where those are.
    Commands { timeouts: bool },
    /// Of the same, where one is.
    Command,
    /// Of REPORT SUPPORTED TASK MANAGEMENT FUNCTIONS.
    TaskManagement,
    /// Of READ POSITION.
    Position,
    /// Of PERSISTENT RESERVE IN.
    Reservations(ReservationList),
    /// Of REPORT LUNS.
    LogicalUnits,
    /// Of READ ELEMENT STATUS.
    Elements,
    /// Data that aren't read, or none.
    Other,
}

/// What the data of a reply to a command are that was sent to a unit with these commands. Data of bytes that are no command of such a unit aren't read.
pub fn contents_of(commands: CommandSet, cdb: &[u8]) -> Contents
    ensures { result ≡ contents_of commands cdb.now }
{
    match decode(commands, cdb) {
        Ok(request) => contents_of_request(request),
        Err(_) => Contents::Other,
    }
}

fn contents_of_request(request: Request) -> Contents
    ensures { result ≡ contents_of_request request }
{
    match request {
        Request::PersistentReserveIn { service_action, .. } => contents_of_action(service_action),
        Request::Inquiry {
            vital_product_data: false,
            ..
        } => Contents::StandardInquiry,
        Request::Inquiry { .. } => Contents::VitalProductData,
        Request::ModeSense { .. } => Contents::ModeParameters,
        Request::ReadPosition => Contents::Position,
        Request::ReportLuns { .. } => Contents::LogicalUnits,
        Request::ReadElementStatus { .. } => Contents::Elements,
        Request::TestUnitReady
        | Request::Rewind
        | Request::RequestSense { .. }
        | Request::ReadBlockLimits
        | Request::InitializeElementStatus
        | Request::Read { .. }
        | Request::Write { .. }
        | Request::WriteFilemarks { .. }
        | Request::Space { .. }
        | Request::ModeSelect { .. }
        | Request::Erase
        | Request::LoadUnload { .. }
        | Request::PreventAllowMediumRemoval { .. }
        | Request::Locate { .. }
        | Request::PersistentReserveOut { .. }
        | Request::MoveMedium { .. } => Contents::Other,
        Request::Host(request) => contents_of_host_request(request),
    }
}

fn contents_of_host_request(request: HostRequest) -> Contents
    ensures { result ≡ contents_of_host_request request }
{
    match request {
        HostRequest::ModeSense10 { .. } => Contents::LongModeParameters,
        HostRequest::LogSense { .. } => Contents::LogPage,
        HostRequest::ReportSupportedOperationCodes {
            return_command_timeouts,
            reporting_options,
            ..
        } => {
            if reporting_options == 0 {
                Contents::Commands {
                    timeouts: return_command_timeouts,
                }
            } else {
                Contents::Command
            }
        }
        HostRequest::ReportSupportedTaskManagementFunctions { .. } => Contents::TaskManagement,
        HostRequest::SendDiagnostic { .. }
        | HostRequest::LogSelect { .. }
        | HostRequest::ModeSelect10 { .. }
        | HostRequest::PositionToElement { .. }
        | HostRequest::InitializeElementStatusWithRange { .. }
        | HostRequest::ExchangeMedium { .. } => Contents::Other,
    }
}

fn contents_of_action(action: InServiceAction) -> Contents
    ensures { result ≡ contents_of_action action }
{
    match action {
        InServiceAction::ReadKeys => Contents::Reservations(ReservationList::Keys),
        InServiceAction::ReadReservation => Contents::Reservations(ReservationList::Reservation),
        InServiceAction::ReadFullStatus => Contents::Reservations(ReservationList::Registrations),
        InServiceAction::ReportCapabilities => Contents::Other,
    }
}
