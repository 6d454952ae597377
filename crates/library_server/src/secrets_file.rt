//! The file of the secrets by which initiators show who they are.
use crate::socket_fault::SocketFault;
use iscsi_chap::{ChapSecrets, SecretsFault, is_open_to_others};
use std::alloc::AllocError;
use std::fs::{self, Files, OpenFile};
use std::io::{self, Read};
use std::os::unix::fs::MetadataExt;

/// The secrets of a file that none but its owner may read or change.
pub(crate) fn secrets_at<R: AllocGlobal + Files>(
    rt: &R,
    path: String,
) -> Result<ChapSecrets, SocketFault> {
    let text = match read_closed(rt, path.as_str()) {
        Ok(Some(text)) => text,
        Ok(None) => return Err(SocketFault::OpenSecrets(path)),
        Err(error) => return Err(SocketFault::of_reading(path, error.kind())),
    };
    match ChapSecrets::parse(rt.alloc(), &text) {
        Ok(secrets) => Ok(secrets),
        Err(SecretsFault::Line { number, what }) => {
            Err(SocketFault::BadSecrets(path, number, what))
        }
        Err(SecretsFault::NoMemory) => Err(SocketFault::from(AllocError)),
    }
}

/// What a file holds, unless others than its owner may read or change it.
fn read_closed<R: AllocGlobal + Files>(rt: &R, path: &str) -> io::Result<Option<Vec<u8>>> {
    let mut file = fs::open(rt, path)?;
    if is_open_to_others(file.metadata()?.mode()) {
        return Ok(None);
    }
    let mut text = Vec::new(rt.alloc());
    file.read_to_end(&mut text)?;
    Ok(Some(text))
}
