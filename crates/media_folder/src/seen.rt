use crate::identity::FileIdentity;
use crate::refusal::ImageRefusal;
use std::alloc::Global;
use std::fs::{self, Files};
use std::os::unix::fs::MetadataExt;

/// The files of volumes that were looked at.
#[derive(Drop)]
pub(crate) struct SeenFiles {
    files: Vec<FileIdentity>,
}

impl SeenFiles {
    pub fn new(alloc: Global) -> SeenFiles {
        SeenFiles {
            files: Vec::new(alloc),
        }
    }

    /// The mode of the file at a path, which isn't opened yet. Links are followed. It is refused if it is not a regular file, or if it was
    /// seen already, under another name.
    pub fn look<R: Files>(&mut self, rt: &R, path: &str) -> Result<u32, ImageRefusal> {
        let metadata = fs::metadata(rt, path)?;
        if !metadata.is_file() {
            return Err(ImageRefusal::NotRegular);
        }
        let file = FileIdentity::of(&metadata);
        if self.files.iter().any(|other| *other == file) {
            return Err(ImageRefusal::Doubled);
        }
        self.files.push(file)?;
        Ok(metadata.mode())
    }
}
