/// What is done where a library is to be kept in a folder that has none.
#[derive(Clone, Copy, PartialEq, Eq)]
pub enum WithoutLibrary {
    /// The folder is refused, and left as it is.
    Refuse,
    /// A library is made there, and the folder if it isn't there.
    Make,
}
