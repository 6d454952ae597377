/// What a tape is spaced over (SSC-4, "SPACE(6) command").
#[derive(Clone, Copy)]
pub enum SpaceCode {
    /// Logical blocks, up to a filemark.
    Blocks,
    /// Filemarks, with all that lies between.
    Marks,
    /// To the end of data, whatever the count.
    EndOfData,
}

/// Why spacing stopped.
#[derive(Clone, Copy)]
pub enum Stop {
    /// As many were passed as the count says, or it is the end of data that was asked for.
    Done,
    /// A filemark was met among blocks. It is passed: the position is behind it going forward, before it going back.
    AtMark,
    /// The end of data was met.
    AtEnd,
    /// The beginning of the tape was met.
    AtStart,
}

/// How spacing ended.
#[derive(Clone, Copy)]
pub struct SpaceEnd {
    /// How many blocks, or filemarks, were passed of those that the count asks for. To the end of data it is 0.
    pub moved: u32,
    /// Why it stopped.
    pub stop: Stop,
}
