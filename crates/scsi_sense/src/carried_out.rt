ghost use Rattle.std.specs.Prelude.{◌≡◌};
ghost use Rattle.scsi_sense.specs.CarriedOut.{is_carried_out, is_early_warning};

use crate::layout::NO_SENSE;
use crate::sense::Sense;
use crate::status::Status;

/// Whether a command that ended so was carried out: one that ended GOOD, and a write that ended at early warning, of which all is written
/// (SSC-4, "Early-warning").
pub fn is_carried_out(status: Status, sense: Option<Sense>) -> bool
    ensures { result ≡ is_carried_out status sense }
{
    match status {
        Status::Good => true,
        Status::CheckCondition => is_early_warning(sense),
        Status::Busy | Status::ReservationConflict => false,
    }
}

/// Whether sense data has the codes of early warning.
fn is_early_warning(sense: Option<Sense>) -> bool
    ensures { result ≡ is_early_warning sense }
{
    match sense {
        Some(sense) => sense.key == NO_SENSE && sense.asc == 0x00 && sense.ascq == 0x02,
        None => false,
    }
}
