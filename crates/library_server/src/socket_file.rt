//! The socket's file, from its making to its end.

use crate::control::ControlSocket;
use crate::notice::{Notice, tell};
use crate::socket_fault::SocketFault;
use program_options::ListenFault;
use server::Door;
use std::alloc::{AllocError, Global};
use std::fs::{self, DirBuilder, Files, Permissions};
use std::io::{self, Write};
use std::net::Net;
use std::os::unix::fs::{DirBuilderExt, FileTypeExt, MetadataExt, PermissionsExt};
use std::os::unix::net::{UnixListener, UnixStream};

/// Which file one is, wherever it is.
#[derive(Clone, Copy, PartialEq, Eq)]
struct FileIdentity {
    device: u64,
    inode: u64,
}

/// The file of a socket that is listened at.
#[derive(Drop)]
pub(crate) struct SocketFile {
    path: String,
    /// `None` where the file was gone at once.
    file: Option<FileIdentity>,
}

/// Listens at a path, where a socket's file at which no process listens is removed, which is reported.
pub(crate) fn make_socket_file<'a, R: Files + Net, E: Write>(
    rt: &R,
    path: String,
    errors: &mut E,
) -> Result<(SocketFile, Door<'a>), SocketFault> {
    let listener = match listen(rt, path.as_str(), errors) {
        Ok(listener) => listener,
        Err(error) => return Err(ListenFault::of_listening(path, error.kind()).into()),
    };
    let file = identity(rt, path.as_str());
    let socket_file = SocketFile { path, file };
    match Door::of_socket(listener) {
        Ok(door) => Ok((socket_file, door)),
        Err(error) => {
            socket_file.leave(rt);
            Err(ListenFault::of_listening(socket_file.path, error.kind()).into())
        }
    }
}

fn listen<R: Files + Net, E: Write>(
    rt: &R,
    path: &str,
    errors: &mut E,
) -> io::Result<UnixListener> {
    match UnixListener::bind(rt, path) {
        Err(error) if error.kind() == io::ErrorKind::AddrInUse && is_left_over(rt, path) => {
            fs::remove_file(rt, path)?;
            tell(errors, &Notice::TookAway(path));
            UnixListener::bind(rt, path)
        }
        listener => listener,
    }
}

/// Who may enter the folder in which the file of a control socket is made.
const FOLDER_MODE: u32 = 0o700;

/// Who may connect to a control socket.
const CONTROL_MODE: u32 = 0o600;

/// Listens at the path of a control socket, to which the program's user alone may connect: its file is made in a new folder that no other user
/// can enter, and is moved from there once it has its mode. A socket's file at which no process listens is replaced, which is reported.
pub(crate) fn make_control_file<R: AllocGlobal + Files + Net, E: Write>(
    rt: &R,
    path: String,
    errors: &mut E,
) -> Result<(SocketFile, ControlSocket), SocketFault> {
    let folder = joined(rt.alloc(), path.as_str(), ".new")?;
    let inside = joined(rt.alloc(), folder.as_str(), "/s")?;
    match listen_inside(rt, path.as_str(), folder.as_str(), inside.as_str(), errors) {
        Ok((file, socket)) => Ok((SocketFile { path, file }, socket)),
        Err(error) => Err(ListenFault::of_listening(path, error.kind()).into()),
    }
}

fn joined(alloc: Global, path: &str, more: &str) -> Result<String, AllocError> {
    let mut text = String::from_str(alloc, path)?;
    text.push_str(more)?;
    Ok(text)
}

/// The same, by way of a path in a new folder, which is gone at the end.
fn listen_inside<R: Files + Net, E: Write>(
    rt: &R,
    path: &str,
    folder: &str,
    inside: &str,
    errors: &mut E,
) -> io::Result<(Option<FileIdentity>, ControlSocket)> {
    make_room(rt, path, errors)?;
    make_folder(rt, folder, inside)?;
    let made = listen_and_move(rt, inside, path);
    let _ = fs::remove_file(rt, inside);
    let _ = fs::remove_dir(rt, folder);
    made
}

/// Looks whether a path is free, where a socket's file at which no process listens is removed, which is reported.
fn make_room<R: Files + Net, E: Write>(rt: &R, path: &str, errors: &mut E) -> io::Result<()> {
    if fs::symlink_metadata(rt, path).is_err() {
        return Ok(());
    }
    if !is_left_over(rt, path) {
        return Err(io::Error::from(io::ErrorKind::AddrInUse));
    }
    fs::remove_file(rt, path)?;
    tell(errors, &Notice::TookAway(path));
    Ok(())
}

/// Makes the folder. What a server left of it that was killed meanwhile goes.
fn make_folder<R: Files>(rt: &R, folder: &str, inside: &str) -> io::Result<()> {
    let mut builder = DirBuilder::new();
    builder.mode(FOLDER_MODE);
    match builder.create(rt, folder) {
        Err(error) if error.kind() == io::ErrorKind::AlreadyExists => {
            let _ = fs::remove_file(rt, inside);
            fs::remove_dir(rt, folder)?;
            builder.create(rt, folder)
        }
        made => made,
    }
}

/// Listens at a path in the folder, and moves the socket's file to its own.
fn listen_and_move<R: Files + Net>(
    rt: &R,
    inside: &str,
    path: &str,
) -> io::Result<(Option<FileIdentity>, ControlSocket)> {
    let socket = ControlSocket::new(UnixListener::bind(rt, inside)?)?;
    fs::set_permissions(rt, inside, Permissions::from_mode(CONTROL_MODE))?;
    let file = identity(rt, inside);
    fs::rename(rt, inside, path)?;
    Ok((file, socket))
}

/// Whether a path is that of a socket's file at which nobody listens.
fn is_left_over<R: Files + Net>(rt: &R, path: &str) -> bool {
    let is_socket = match fs::symlink_metadata(rt, path) {
        Ok(metadata) => metadata.file_type().is_socket(),
        Err(_) => false,
    };
    if !is_socket {
        return false;
    }
    match UnixStream::connect(rt, path) {
        Ok(_) => false,
        Err(error) => error.kind() == io::ErrorKind::ConnectionRefused,
    }
}

/// Which file is at a path, if one is.
fn identity<R: Files>(rt: &R, path: &str) -> Option<FileIdentity> {
    let metadata = fs::symlink_metadata(rt, path).ok()?;
    Some(FileIdentity {
        device: metadata.dev(),
        inode: metadata.ino(),
    })
}

impl SocketFile {
    pub fn path(&self) -> &str {
        self.path.as_str()
    }

    /// Removes the file, if it is still the socket's own.
    pub fn leave<R: Files>(&self, rt: &R) {
        let path = self.path.as_str();
        let file = identity(rt, path);
        if file.is_some() && file == self.file {
            let _ = fs::remove_file(rt, path);
        }
    }
}
