use crate::file_fault::{FileFault, WhyNoFile};
use crate::places::look_at;
use std::fs::{self, File, Files, Metadata, OpenOptions};
use std::io::{self, Read, Seek, SeekFrom, Write};
use std::os::unix::fs::{MetadataExt, OpenOptionsExt};

/// The mode of a file that is made: its owner may change it, and its group may read it.
const NEW_FILE: u32 = 0o640;

/// Which file one is, wherever it is.
#[derive(Clone, Copy, PartialEq, Eq)]
struct FileIdentity {
    device: u64,
    inode: u64,
}

impl FileIdentity {
    fn of(metadata: &Metadata) -> FileIdentity {
        FileIdentity {
            device: metadata.dev(),
            inode: metadata.ino(),
        }
    }
}

/// A file that is appended to.
#[derive(Drop)]
struct OpenedFile {
    file: File,
    identity: FileIdentity,
    /// Whether what was found in it ends within a line. Then a line feed is written first.
    ends_within_line: bool,
}

/// The file at a path, which is appended to. Nothing that is there is changed.
#[derive(Drop)]
pub struct AppendedFile {
    path: String,
    /// None: the path leads to another file, which couldn't be opened.
    opened: Option<OpenedFile>,
}

impl AppendedFile {
    /// Opens the file at a path, and makes it if there is none.
    pub fn open<R: Files<File = File>>(rt: &R, path: String) -> Result<AppendedFile, FileFault> {
        if let Err(why) = look_at(rt, path.as_str()) {
            return Err(FileFault { path, why });
        }
        match open_file(rt, path.as_str()) {
            Ok(opened) => Ok(AppendedFile {
                path,
                opened: Some(opened),
            }),
            Err(_) => Err(FileFault {
                path,
                why: WhyNoFile::Refused,
            }),
        }
    }

    /// Looks whether the path still leads to the file, and if not opens the one to which it leads, or makes it. Whether it is another file
    /// now.
    pub fn follow<R: Files<File = File>>(&mut self, rt: &R) -> io::Result<bool> {
        if self.is_at_its_path(rt) {
            return Ok(false);
        }
        self.opened = None;
        self.opened = Some(open_file(rt, self.path.as_str())?);
        Ok(true)
    }

    fn is_at_its_path<R: Files>(&self, rt: &R) -> bool {
        match (&self.opened, fs::metadata(rt, self.path.as_str())) {
            (Some(opened), Ok(metadata)) => opened.identity == FileIdentity::of(&metadata),
            (None, _) | (_, Err(_)) => false,
        }
    }
}

/// Opens a file to append to it, without waiting for a reader if it is a FIFO.
fn open_file<R: Files<File = File>>(rt: &R, path: &str) -> io::Result<OpenedFile> {
    let mut file = OpenOptions::new()
        .read(true)
        .append(true)
        .create(true)
        .mode(NEW_FILE)
        .open(rt, path)?;
    let metadata = file.metadata()?;
    let ends_within_line = metadata.is_file()
        && metadata.len() > 0
        && last_byte_of(&mut file)? != b'\n';
    Ok(OpenedFile {
        file,
        identity: FileIdentity::of(&metadata),
        ends_within_line,
    })
}

/// The last byte of a file that has some. What is appended comes after it wherever the file was read.
fn last_byte_of(file: &mut File) -> io::Result<u8> {
    let mut last = [b'\n'; 1];
    file.seek(SeekFrom::End(-1))?;
    file.read(&mut last)?;
    Ok(last[0])
}

impl Write for AppendedFile {
    fn write(&mut self, bytes: &[u8]) -> io::Result<usize> {
        let Some(opened) = &mut self.opened else {
            return Err(io::Error::from(io::ErrorKind::NotFound));
        };
        if opened.ends_within_line {
            if opened.file.write(b"\n")? == 0 {
                return Ok(0);
            }
            opened.ends_within_line = false;
        }
        opened.file.write(bytes)
    }

    fn flush(&mut self) -> io::Result<()> {
        match &mut self.opened {
            Some(opened) => opened.file.flush(),
            None => Err(io::Error::from(io::ErrorKind::NotFound)),
        }
    }
}
