use crate::fault::ImageFault;

/// How an image ends. Offsets and counts are of bytes.
#[derive(Clone, Copy)]
pub enum ImageEnd {
    /// At its last byte, or by the end mark: up to the offset `whole` it is whole.
    WholeEnd {
        whole: u64,
    },
    /// With a tail that was cut: up to the offset `whole` it is whole and can be cut back, and the `lost` bytes after it are a piece of an
    /// object.
    CutTail {
        whole: u64,
        lost: u64,
    },
    /// By a fault at the offset `whole`, after so many objects.
    Faulty {
        fault: ImageFault,
        objects: u64,
        whole: u64,
    },
}
