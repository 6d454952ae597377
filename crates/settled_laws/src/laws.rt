ghost use Rattle.settled_laws.specs.Alike.{AttendedAnswersAlike, ExchangeAlike, GiveAlike, JourneyAlike, MarkAlike, PerformAlike, PutAlike, RefuseAlike, ResetAlike, ShowAlike};
ghost use Rattle.settled_laws.specs.Rows.{AttendedDrive};

use tape_medium::VolumeTag;

/// Law: devices that are the same but settled do the same. What they show is the same; each command is refused by its fields at both or at
/// neither, ends at both with the same status, sense data and data, and leaves devices that are again the same but settled. So does a reset,
/// and so do volumes that are taken out and put in, marks, and journeys that are noted.
pub fn settled_devices_perform_alike()
    ensures shown { ShowAlike }
    ensures refused { RefuseAlike }
    ensures performed { PerformAlike }
    ensures reset { ResetAlike }
    ensures taken { GiveAlike }
    ensures put { PutAlike }
    ensures marked { MarkAlike }
    ensures journeys { JourneyAlike }
    ensures exchanges { ExchangeAlike }
{}

/// Law: whatever commands come to a device, and whenever an attendant looks after it between them, each command is answered as if none had
/// looked after it, and at the end the device is the same but settled.
pub fn attended_devices_answer_alike()
    ensures { AttendedAnswersAlike }
{}

/// Worked rows: a READ at a drive whose tape is settled, and at one whose tape isn't.
#[tactic(auto, unfolding(device_server::specs::View::profile_of))]
pub fn worked_rows(tag: VolumeTag)
    ensures { AttendedDrive tag }
{}
