use crate::act_kind::ActKind;
use crate::numbers::Numbers;
use scsi_nexus::Nexus;
use scsi_sense::{Sense, Status};

/// What a seat keeps of a call and its answer.
#[derive(Drop)]
pub struct Entry {
    /// The I_T nexus that asked or was lost; none for a reset.
    pub nexus: Option<Nexus>,
    /// The logical unit number that the call was for.
    pub lun: u8,
    /// What was asked, where the call left a record.
    pub act: Option<ActKind>,
    pub status: Status,
    pub sense: Option<Sense>,
    /// For each record that the call left the unit that has it, and its number there.
    pub numbers: Numbers,
}
