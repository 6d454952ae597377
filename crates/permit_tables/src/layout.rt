use scsi_nexus::LIST_CAPACITY;

/// How many SAS addresses a REGISTER list names at most (profile).
pub const TARGETS: usize = LIST_CAPACITY;
