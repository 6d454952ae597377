use iscsi_pdu::RejectReason;

/// What is done with a SCSI Command.
#[derive(Clone, Copy)]
pub enum TakenCommand {
    /// Nothing, and its data will be passed over too: it isn't the one that is expected.
    PassedOver,
    /// It is rejected, and its number is used up.
    Rejected(RejectReason),
    /// It is executed now: its data are the first so many bytes of what came with it.
    Execute(usize),
    /// It waits.
    Waits,
}

/// What is done with a Data-Out.
#[derive(Clone, Copy)]
pub enum TakenData {
    /// Its task has its data.
    Taken,
    /// Nothing: it is of a command that was passed over or aborted, or of a task that has failed already.
    PassedOver,
    /// It is rejected; if it is of a task, that has failed.
    Rejected(RejectReason),
}
