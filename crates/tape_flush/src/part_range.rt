/// Which objects of a tape a part of its image has, counted from its beginning.
#[derive(Clone, Copy)]
pub struct PartRange {
    /// So many stay in the image, and the part comes after them.
    pub stay: u32,
    /// So many the image has with the part.
    pub end: u32,
    /// So many the tape had when the part was taken.
    pub count: u32,
}
