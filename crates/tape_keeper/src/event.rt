use std::{fmt, io, str};
use tape_medium::VolumeTag;

/// What is kept of a library.
#[derive(Clone, Copy)]
pub enum SavedThing {
    /// The tape of a volume, in its image.
    Volume(VolumeTag),
    /// Where the volumes are.
    Inventory,
}

/// Why something isn't kept.
#[derive(Clone, Copy)]
pub enum KeepFault {
    /// There is no room on the disk.
    Full,
    /// The disk failed.
    Failed,
    /// Something else has changed the file, or taken its place.
    Changed,
    /// The path of the folder leads to another one, or nowhere.
    Moved,
    /// Another program may have the folder.
    LockLost,
    /// The system says why.
    System(io::Error),
    NoMemory,
    /// There is no image of the volume.
    NoImage,
}

/// What happens to what is kept.
#[derive(Clone, Copy)]
pub enum KeepChange {
    /// It can't be kept from now on, and is tried again.
    Fails(KeepFault),
    /// It can again.
    GoesOn,
    /// It isn't whole at the end.
    Lost,
}

/// What is told of keeping tapes.
#[derive(Clone, Copy)]
pub struct KeepEvent {
    pub thing: SavedThing,
    pub change: KeepChange,
}

impl fmt::Display for SavedThing {
    fn fmt<W: fmt::Write>(&self, f: &mut fmt::Formatter<W>) -> fmt::Result {
        match self {
            SavedThing::Volume(tag) => write!(f, "volume {}", name_in(tag)),
            SavedThing::Inventory => f.write_str("the inventory"),
        }
    }
}

impl fmt::Display for KeepEvent {
    fn fmt<W: fmt::Write>(&self, f: &mut fmt::Formatter<W>) -> fmt::Result {
        let thing = self.thing;
        match self.change {
            KeepChange::Fails(fault) => { write!(f, "vtl: {thing} could not be written: {fault}") }
            KeepChange::GoesOn => write!(f, "vtl: {thing} is written again"),
            KeepChange::Lost => write!(f, "vtl: {thing} is not whole on the disk"),
        }
    }
}

/// The name in a tag, up to the spaces that it is padded with.
fn name_in(tag: &VolumeTag) -> &str {
    let size = tag
        .0
        .iter()
        .position(|byte| *byte == b' ')
        .unwrap_or(tag.0.len());
    let Some(bytes) = tag.0.get(..size) else {
        return "?";
    };
    str::from_utf8(bytes).unwrap_or("?")
}

impl fmt::Display for KeepFault {
    fn fmt<W: fmt::Write>(&self, f: &mut fmt::Formatter<W>) -> fmt::Result {
        match self {
            KeepFault::Full => f.write_str("disk full"),
            KeepFault::Failed => f.write_str("disk error"),
            KeepFault::Changed => f.write_str(
                "something else has changed the file, or taken its place",
            ),
            KeepFault::Moved => f.write_str("the path of its folder no longer leads there"),
            KeepFault::LockLost => f.write_str("the lock of its folder is lost"),
            KeepFault::System(error) => write!(f, "{error}"),
            KeepFault::NoMemory => f.write_str("want of memory"),
            KeepFault::NoImage => f.write_str("it has no image"),
        }
    }
}
