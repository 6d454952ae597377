/// A logical object of a tape, where it lies.
#[derive(Clone, Copy)]
pub enum TapeObject<'a> {
    /// A logical block of 1 to `MAX_BLOCK` bytes.
    Block(&'a [u8]),
    /// A filemark.
    Mark,
}
