/// What lay at the position of a tape that was read.
#[derive(Clone, Copy)]
pub enum Item {
    /// A logical block, with its whole length in bytes.
    Block(u32),
    /// A filemark.
    Mark,
    /// Nothing: the position is at the end of data.
    End,
}
