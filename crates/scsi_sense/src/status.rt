ghost use Rattle.std.specs.Prelude.{◌≡◌, ℕ, Some};

use std::fmt;

/// The status of a command (SAM-5, "Status codes").
#[derive(Clone, Copy, Debug, PartialEq, Eq)]
pub enum Status {
    Good,
    /// Sense data goes with this one alone.
    CheckCondition,
    Busy,
    ReservationConflict,
}

impl Status {
    ghost use Rattle.scsi_sense.specs.Status.{status_code};
    ghost use Rattle.scsi_sense.specs.Text.{status_name};

    pub fn code(self) -> u8
        ensures { result ≡ status_code self }
    {
        match self {
            Status::Good => 0x00,
            Status::CheckCondition => 0x02,
            Status::Busy => 0x08,
            Status::ReservationConflict => 0x18,
        }
    }
    /// The status in the standard's words.
    pub fn text(self) -> &'static str
        ensures { result.now ≡ status_name self }
    {
        match self {
            Status::Good => "GOOD",
            Status::CheckCondition => "CHECK CONDITION",
            Status::Busy => "BUSY",
            Status::ReservationConflict => "RESERVATION CONFLICT",
        }
    }
}

impl fmt::Display for Status {
    ghost use Rattle.scsi_sense.specs.Text.{status_name};

    ghost output = { λ status. Some (status_name status) };

    fn fmt<W: fmt::Write>(&self, f: &mut fmt::Formatter<W>) -> fmt::Result {
        f.write_str(self.text())
    }
}
