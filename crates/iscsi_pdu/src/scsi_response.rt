use crate::fields::*;
use crate::header::*;
use crate::layout::*;
use crate::residual::Residual;
use crate::scsi_status::ScsiStatus;
use crate::serial_number::SerialNumber;
use crate::service_response::ServiceResponse;

/// SCSI Response (RFC 7143, "SCSI Response").
#[derive(Clone, Copy)]
pub struct ScsiResponse {
    pub response: ServiceResponse,
    pub status: ScsiStatus,
    pub initiator_task_tag: u32,
    pub stat_sn: SerialNumber,
    pub exp_cmd_sn: SerialNumber,
    pub max_cmd_sn: SerialNumber,
    /// How many Data-In PDUs were sent for the command.
    pub exp_data_sn: SerialNumber,
    pub residual: Residual,
}

impl ScsiResponse {
    ghost use Rattle.std.specs.Prelude.{◌≡◌, length};
    ghost use Rattle.iscsi_pdu.specs.Responses.{scsi_response, scsi_response_header};

    pub(crate) fn read(header: &[u8]) -> ScsiResponse
        requires { length header.now ≡ 48 }
        ensures { result ≡ scsi_response header.now }
    {
        ScsiResponse {
            response: ServiceResponse::of(header[RESPONSE]),
            status: ScsiStatus::of(header[STATUS]),
            initiator_task_tag: u32_at(header, INITIATOR_TASK_TAG),
            stat_sn: serial_at(header, STAT_SN),
            exp_cmd_sn: serial_at(header, EXP_CMD_SN),
            max_cmd_sn: serial_at(header, MAX_CMD_SN),
            exp_data_sn: serial_at(header, EXP_DATA_SN),
            residual: Residual::read(header),
        }
    }

    pub(crate) fn header(&self) -> Header
        ensures { result ≡ scsi_response_header self.now }
    {
        Header {
            start: [
                SCSI_RESPONSE,
                FINAL + self.residual.flags(),
                self.response.code(),
                self.status.code(),
            ],
            lun: [0; 8],
            middle: rows(
                self.initiator_task_tag,
                0,
                self.stat_sn.number,
                self.exp_cmd_sn.number,
            ),
            tail: rows(
                self.max_cmd_sn.number,
                self.exp_data_sn.number,
                0,
                self.residual.count(),
            ),
        }
    }
}
