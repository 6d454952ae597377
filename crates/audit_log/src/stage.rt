ghost use Rattle.std.specs.Prelude.{◌≡◌};

/// The stages in which a command is judged, in their order (profile). A record has the first that
/// answered the command, and `Device` for what isn't a command. What is answered BUSY has no record.
#[derive(Clone, Copy, PartialEq, Eq)]
pub enum Stage {
    /// What the bytes decode to: the operation code, the length of the CDB, the service action, NACA and
    /// the length of a parameter list of PERSISTENT RESERVE OUT.
    Decoding,
    /// A unit attention condition of ADDITIONAL SENSE CODE 29h that waits for the sender.
    ResetAttention,
    /// The reservation: the cell of the permission table, and then the rules on keys.
    ReservationCheck,
    /// Any other unit attention condition that waits for the sender.
    OtherAttention,
    /// The fields of the command and of its parameter list, and what a reservation command is
    /// refused for.
    Fields,
    /// The rules of the device, or of the command itself.
    Device,
}

impl Stage {
    ghost use Rattle.audit_log.specs.Stages.{stage_number};

    /// The stage's number, 1 to 6.
    pub fn number(self) -> u8
        ensures { result ≡ stage_number self }
    {
        match self {
            Stage::Decoding => 1,
            Stage::ResetAttention => 2,
            Stage::ReservationCheck => 3,
            Stage::OtherAttention => 4,
            Stage::Fields => 5,
            Stage::Device => 6,
        }
    }
}
