use std::fs::Metadata;
use std::os::unix::fs::MetadataExt;

/// Which file it is, whatever it is called: the device on which it is, and its number there.
#[derive(Clone, Copy, PartialEq, Eq)]
pub(crate) struct FileIdentity {
    device: u64,
    number: u64,
}

impl FileIdentity {
    pub fn of(metadata: &Metadata) -> FileIdentity {
        FileIdentity {
            device: metadata.dev(),
            number: metadata.ino(),
        }
    }

    /// Its number on the device.
    pub fn number(&self) -> u64 {
        self.number
    }
}
