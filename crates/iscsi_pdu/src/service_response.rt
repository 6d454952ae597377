ghost use Rattle.std.specs.Prelude.{◌≡◌};

/// How a target has done with a command (RFC 7143, "Response" of the SCSI Response).
#[derive(Clone, Copy)]
pub enum ServiceResponse {
    CommandCompletedAtTarget,
    TargetFailure,
    /// Any other code; those from 80h on are a vendor's.
    Reserved,
}

impl ServiceResponse {
    ghost use Rattle.iscsi_pdu.specs.Codes.{service_response_code, service_response_of};

    /// What the code stands for.
    pub fn of(code: u8) -> ServiceResponse
        ensures { result ≡ service_response_of code }
    {
        match code {
            0x00 => ServiceResponse::CommandCompletedAtTarget,
            0x01 => ServiceResponse::TargetFailure,
            _ => ServiceResponse::Reserved,
        }
    }

    /// Its code; of `Reserved` one that stands for nothing.
    pub fn code(self) -> u8
        ensures { result ≡ service_response_code self }
    {
        match self {
            ServiceResponse::CommandCompletedAtTarget => 0x00,
            ServiceResponse::TargetFailure => 0x01,
            ServiceResponse::Reserved => 0x02,
        }
    }
}
