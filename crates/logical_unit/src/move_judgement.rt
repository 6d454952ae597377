use audit_log::Act;
use judgement::{Decision, Reply};
use scsi_sense::Condition;

/// What judgement at a changer leaves of a MOVE MEDIUM.
#[derive(Drop)]
pub(crate) enum MoveJudgement {
    /// It is answered, and recorded, or BUSY.
    Answered(Reply),
    /// It is judged, and the drives decide: what its record will say was asked, and found.
    Left(Act, Decision),
}

/// Why nothing was carried. Nothing has changed.
#[derive(Clone, Copy)]
pub(crate) enum MoveStop {
    /// What the changer reports.
    Refused(Condition),
    /// There is no room for a drive's record, or no number.
    Busy,
}
