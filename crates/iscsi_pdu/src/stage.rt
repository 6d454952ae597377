ghost use Rattle.std.specs.Prelude.{◌≡◌, ◌≤◌};

/// A stage of a login (RFC 7143, "CSG and NSG").
#[derive(Clone, Copy)]
pub enum Stage {
    SecurityNegotiation,
    LoginOperationalNegotiation,
    FullFeaturePhase,
    /// The code that is no stage.
    Reserved,
}

impl Stage {
    ghost use Rattle.iscsi_pdu.specs.Codes.{stage_code, stage_of};

    /// What the code stands for.
    pub fn of(code: u8) -> Stage
        ensures { result ≡ stage_of code }
    {
        match code {
            0x00 => Stage::SecurityNegotiation,
            0x01 => Stage::LoginOperationalNegotiation,
            0x03 => Stage::FullFeaturePhase,
            _ => Stage::Reserved,
        }
    }

    /// Its code; of `Reserved` one that stands for nothing.
    pub fn code(self) -> u8
        ensures code { result ≡ stage_code self }
        ensures most { result ≤ 3 }
    {
        match self {
            Stage::SecurityNegotiation => 0x00,
            Stage::LoginOperationalNegotiation => 0x01,
            Stage::FullFeaturePhase => 0x03,
            Stage::Reserved => 0x02,
        }
    }
}
