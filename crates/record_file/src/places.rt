//! Where a file is to be, looked at without a change.

use crate::file_fault::WhyNoFile;
use std::fs::{self, Files};
use std::io::ErrorKind;

/// Looks whether there can be a file at a path: no directory is there, and one is in which it would be.
pub fn look_at<R: Files>(rt: &R, path: &str) -> Result<(), WhyNoFile> {
    match fs::metadata(rt, path) {
        Ok(metadata) => {
            if metadata.is_dir() {
                Err(WhyNoFile::IsDirectory)
            } else {
                Ok(())
            }
        }
        Err(error) => match error.kind() {
            ErrorKind::NotFound | ErrorKind::NotADirectory => look_at_folder(rt, folder_of(path)),
            _ => Err(WhyNoFile::Refused),
        },
    }
}

fn look_at_folder<R: Files>(rt: &R, folder: &str) -> Result<(), WhyNoFile> {
    match fs::metadata(rt, folder) {
        Ok(metadata) if metadata.is_dir() => Ok(()),
        Ok(_) | Err(_) => Err(WhyNoFile::NoDirectory),
    }
}

/// The path of the directory in which a path leads to something.
fn folder_of(path: &str) -> &str {
    match path.rsplit_once('/') {
        None => ".",
        Some(("", _)) => "/",
        Some((folder, _)) => folder,
    }
}
