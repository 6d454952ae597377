use crate::act::Act;
use crate::stage::Stage;
use permit_tables::{Cell, KeyRule};
use scsi_nexus::Nexus;
use scsi_sense::{Sense, Status};
use unit_attention::Kind;

/// What was asked of a unit, and how it was judged and answered (profile). Records don't compare: the room of a list in a box has an address
/// and a capacity, which its value doesn't have.
#[derive(Drop)]
pub struct Record {
    /// The record's number at its unit: one more than that of the record before.
    pub number: u64,
    /// Who asked, where somebody did.
    pub nexus: Option<Nexus>,
    /// What was asked.
    pub act: Act,
    /// The stage that decided the answer.
    pub stage: Stage,
    /// The cell of the permission table, of a command that came to the reservation check.
    pub cell: Option<Cell>,
    /// The rule on keys that the reservation check found broken.
    pub rule: Option<KeyRule>,
    /// The status that was answered.
    pub status: Status,
    /// The sense data that was answered with it.
    pub sense: Option<Sense>,
    /// What every other nexus was told: of a MODE SELECT that it changed the mode parameters.
    pub told: Option<Kind>,
}

/// The largest size of a record in bytes: a unit keeps one for each command. A record of a command
/// other than PERSISTENT RESERVE OUT takes nothing beyond it.
const RECORD_SIZE: usize = 80;

const _: () = prove!(size_of::<Record>() <= RECORD_SIZE);
