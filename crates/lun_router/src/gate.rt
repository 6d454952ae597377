use scsi_nexus::Nexus;

/// What is run inside the critical section of a command, so that a test can hold a unit there. It is lent no unit.
pub trait Gate: Sync + Drop {
    /// Called once for each command to a unit that exists, under the first lock and before the step.
    fn inside(&self, lun: u8, nexus: Nexus);
}

/// Does nothing.
#[derive(Clone, Copy)]
pub struct Pass;

impl Gate for Pass {
    fn inside(&self, _lun: u8, _nexus: Nexus) {}
}
