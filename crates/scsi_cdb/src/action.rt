ghost use Rattle.std.specs.Prelude.{◌≡◌};

use crate::layout::*;

/// The service actions of PERSISTENT RESERVE IN, in the order of their codes (SPC-4, "PERSISTENT
/// RESERVE IN command").
#[derive(Clone, Copy)]
pub enum InServiceAction {
    ReadKeys,
    ReadReservation,
    ReportCapabilities,
    ReadFullStatus,
}

impl InServiceAction {
    ghost use Rattle.scsi_cdb.specs.Commands.{in_service_action};
    ghost use Rattle.scsi_cdb.specs.Encoding.{in_code};

    /// The service action of a code, where there is one.
    pub fn of(code: u8) -> Option<InServiceAction>
        ensures { result ≡ in_service_action code }
    {
        match code {
            READ_KEYS => Some(InServiceAction::ReadKeys),
            READ_RESERVATION => Some(InServiceAction::ReadReservation),
            REPORT_CAPABILITIES => Some(InServiceAction::ReportCapabilities),
            READ_FULL_STATUS => Some(InServiceAction::ReadFullStatus),
            _ => None,
        }
    }

    /// The SERVICE ACTION code.
    pub fn code(self) -> u8
        ensures { result ≡ in_code self }
    {
        match self {
            InServiceAction::ReadKeys => READ_KEYS,
            InServiceAction::ReadReservation => READ_RESERVATION,
            InServiceAction::ReportCapabilities => REPORT_CAPABILITIES,
            InServiceAction::ReadFullStatus => READ_FULL_STATUS,
        }
    }
}
