use arrayvec::ArrayVec;
use scsi_cdb::CDB_LENGTH;
use scsi_nexus::Nexus;

/// The longest CDB, in bytes.
pub const MAX_CDB: usize = CDB_LENGTH;

/// What happens at the target.
#[derive(Drop)]
pub enum Event {
    /// A command of a nexus to a logical unit, with the data sent with it. Its CDB is in the event itself, so it takes no memory.
    Command {
        nexus: Nexus,
        lun: u8,
        cdb: ArrayVec<u8, MAX_CDB>,
        bytes: Vec<u8>,
    },
    /// An I_T nexus loss at a logical unit.
    Loss {
        nexus: Nexus,
        lun: u8,
    },
    /// A reset of a logical unit.
    Reset {
        lun: u8,
    },
}
