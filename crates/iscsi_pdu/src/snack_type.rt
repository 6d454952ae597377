ghost use Rattle.std.specs.Prelude.{◌≡◌, ◌≤◌};

/// What a SNACK Request asks for (RFC 7143, "Type" of the SNACK Request).
#[derive(Clone, Copy)]
pub enum SnackType {
    DataOrR2t,
    Status,
    DataAck,
    RData,
    /// Any other code.
    Reserved,
}

impl SnackType {
    ghost use Rattle.iscsi_pdu.specs.Codes.{snack_type_code, snack_type_of};

    /// What the code stands for.
    pub fn of(code: u8) -> SnackType
        ensures { result ≡ snack_type_of code }
    {
        match code {
            0x00 => SnackType::DataOrR2t,
            0x01 => SnackType::Status,
            0x02 => SnackType::DataAck,
            0x03 => SnackType::RData,
            _ => SnackType::Reserved,
        }
    }

    /// Its code; of `Reserved` one that stands for nothing.
    pub fn code(self) -> u8
        ensures code { result ≡ snack_type_code self }
        ensures most { result ≤ 4 }
    {
        match self {
            SnackType::DataOrR2t => 0x00,
            SnackType::Status => 0x01,
            SnackType::DataAck => 0x02,
            SnackType::RData => 0x03,
            SnackType::Reserved => 0x04,
        }
    }
}
