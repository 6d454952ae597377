/// What has to be kept before the reply to a command goes out.
#[derive(Clone, Copy, Default)]
pub struct Ticket {
    /// The number that a keeper has given what is kept: the tape of a volume, say.
    pub thing: u32,
    /// All of it that the keeper was asked for up to this number is to be kept.
    pub number: u64,
}

/// A record that waits to be handed out.
#[derive(Clone, Copy, Default)]
pub struct RecordTicket {
    /// The logical unit number of its unit.
    pub lun: u8,
    /// Its number at the unit.
    pub number: u64,
}

/// What the reply to a command waits for.
#[derive(Clone, Copy, Default)]
pub struct ReplyTicket {
    /// What is to be kept, if something is.
    pub kept: Option<Ticket>,
    /// Up to which record of a unit all are to be handed out but as many as may wait, if some are.
    pub handed_out: Option<RecordTicket>,
}

/// How keeping something ended, as far as a ticket.
#[derive(Clone, Copy)]
pub enum Outcome {
    /// It is on the disk.
    Kept,
    /// It could not be kept.
    Lost,
}
