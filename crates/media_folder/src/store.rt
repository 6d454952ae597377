ghost use Rattle.std.specs.Prelude.{◌≡◌, string_bytes, IfOk};
ghost use Rattle.media_folder.specs.declared.store.FileAccess.TheVariants.{ReadOnly};

use crate::boot::BootId;
use crate::identity::FileIdentity;
use crate::library_folder::LibraryFolder;
use crate::names::FilePaths;
use crate::record::{RecordFile, RecordOf};
use crate::small_file::make_anew;
use std::alloc::{AllocError, Global};
use std::fs::{self, File, Files, OpenFile};
use std::io::{self, ErrorKind, Seek, SeekFrom, Write};
use std::marker::Model;
use tape_flush::{ImageStore, StoreFault};

/// What may be done with a volume's file.
#[derive(Clone, Copy, PartialEq, Eq)]
pub enum FileAccess {
    ReadWrite,
    /// The file is only read, and stays as it is: its volume is protected.
    ReadOnly,
}

/// What is known where a volume's file is written.
#[derive(Clone, Copy)]
pub(crate) struct Surroundings<'a> {
    pub alloc: Global,
    pub boot: BootId,
    /// The folder of the library.
    pub folder: &'a LibraryFolder,
}

/// How a volume's file is found.
#[derive(Clone, Copy)]
enum FileName {
    /// By the volume's name.
    Own,
    /// By a name that no start reads: it is to take the place of another file.
    New,
}

/// A volume's file, which is written at its end, and its record. Both are opened, made and renamed by the folder that was opened, so that
/// nothing is changed in a folder that took its place; but they are on the disk only if the folder's own path leads to them.
#[derive(Drop)]
pub struct FileStore<'a, R: Files<File = File>> {
    files: &'a R,
    paths: FilePaths,
    name: FileName,
    file: File,
    identity: FileIdentity,
    access: FileAccess,
    /// None of a file that isn't written.
    around: Option<Surroundings<'a>>,
    /// None of a new file, and of one that has just taken its place.
    record: Option<RecordFile>,
}

impl<'a, R: Files<File = File>> Model for FileStore<'a, R> {
    ghost use Rattle.std.specs.Prelude.{string_bytes};
    ghost use Rattle.media_folder.specs.Stores.{FileStoreValue};

    ghost Value = { FileStoreValue };

    ghost view = { λ store. record { path = string_bytes store.paths.given; access = store.access } };
}

impl<'a, R: Files<File = File>> FileStore<'a, R> {
    /// Of the file at a path, which is open.
    pub(crate) fn new(
        files: &'a R,
        paths: FilePaths,
        file: File,
        access: FileAccess,
    ) -> io::Result<FileStore<'a, R>>
        ensures { IfOk result (λ store. store ≡ record { path = string_bytes paths.given; access = access }) }
    {
        let identity = FileIdentity::of(&file.metadata()?);
        Ok(FileStore {
            files,
            paths,
            name: FileName::Own,
            file,
            identity,
            access,
            around: None,
            record: None,
        })
    }

    /// From now on it is written, and its record.
    pub(crate) fn begin_record(&mut self, record: RecordFile, around: Surroundings<'a>)
        ensures { self.new ≡ self.old }
    {
        self.around = Some(around);
        self.record = Some(record);
    }

    /// It isn't written: its volume is protected.
    pub(crate) fn protect(&mut self)
        ensures { self.new ≡ record { path = self.old.path; access = ReadOnly } }
    {
        self.access = FileAccess::ReadOnly;
    }

    pub(crate) fn identity(&self) -> FileIdentity {
        self.identity
    }

    pub(crate) fn paths(&self) -> &FilePaths
        ensures { string_bytes result.now.given ≡ self.now.path }
    {
        &self.paths
    }

    /// Where its record is.
    pub(crate) fn record_paths(&self, alloc: Global) -> Result<FilePaths, AllocError> {
        self.paths.with_other_ending(alloc, ".synced")
    }

    /// Where the file is that is to take its place.
    pub(crate) fn new_paths(&self, alloc: Global) -> Result<FilePaths, AllocError> {
        self.paths.with_ending(alloc, ".new")
    }

    pub fn access(&self) -> FileAccess
        ensures { result ≡ self.now.access }
    {
        self.access
    }

    pub(crate) fn file(&self) -> &File {
        &self.file
    }

    /// What is known where it is written: a file under the volume's name is written only while its record says what of it is on the disk.
    fn written(&self) -> Result<Surroundings<'a>, StoreFault> {
        match (self.name, &self.record, self.around) {
            (FileName::New, _, Some(around)) | (FileName::Own, Some(_), Some(around)) => Ok(around),
            (FileName::Own, None, _) | (_, _, None) => Err(StoreFault::Changed),
        }
    }

    /// Cuts the file back to `size` bytes, if it has more.
    fn cut(&self, size: u64) -> Result<(), StoreFault> {
        self.written()?;
        if self.file.metadata()?.len() > size {
            self.file.set_len(size)?;
        }
        Ok(())
    }

    /// Adds bytes at the end, which has to be at an offset.
    fn add(&mut self, offset: u64, bytes: &[u8]) -> Result<(), StoreFault> {
        self.written()?;
        if self.file.seek(SeekFrom::End(0))? != offset {
            return Err(StoreFault::Changed);
        }
        self.file.write_all(bytes)?;
        Ok(())
    }

    /// Brings the file to the disk. Where its path doesn't lead to it any more, another one is found at the next start, or none.
    fn bring(&self) -> Result<(), StoreFault> {
        self.file.sync_data()?;
        match self.name {
            FileName::Own => self.check_path(),
            FileName::New => Ok(()),
        }
    }

    /// Looks whether the path that was given leads to the file.
    fn check_path(&self) -> Result<(), StoreFault> {
        match fs::metadata(self.files, self.paths.given.as_str()) {
            Ok(found) if FileIdentity::of(&found) == self.identity => Ok(()),
            Ok(_) => Err(StoreFault::Changed),
            Err(error) if error.kind() == ErrorKind::NotFound => Err(StoreFault::Changed),
            Err(error) => Err(StoreFault::from(error)),
        }
    }

    /// Notes how much is on the disk, in its record, or in another one where that isn't there any more.
    fn note_length(&mut self, size: u64) -> Result<(), StoreFault> {
        let around = self.surroundings()?;
        if self.is_noted(around, size)? {
            return Ok(());
        }
        around.folder.look(self.files)?;
        self.take_place(around)?;
        self.begin_another(around, size)
    }

    /// What is known where it is written, if it is.
    fn surroundings(&self) -> Result<Surroundings<'a>, StoreFault> {
        match self.around {
            Some(around) => Ok(around),
            None => Err(StoreFault::Changed),
        }
    }

    /// Notes in its record how much is on the disk. Whether the record is one that a start reads.
    fn is_noted(&self, around: Surroundings<'a>, size: u64) -> Result<bool, StoreFault> {
        match &self.record {
            Some(record) => {
                record.write(size)?;
                let path = self.record_paths(around.alloc)?;
                Ok(record.is_at(self.files, path.opened.as_str()))
            }
            None => Ok(false),
        }
    }

    /// A new file takes its place, on the disk too, before its record begins, since the record before it was that of another file; by a
    /// record of another file all of a file is read, and of this one all is on the disk.
    fn take_place(&mut self, around: Surroundings<'a>) -> Result<(), StoreFault> {
        match self.name {
            FileName::Own => {}
            FileName::New => {
                let new = self.new_paths(around.alloc)?;
                fs::rename(self.files, new.opened.as_str(), self.paths.opened.as_str())?;
                self.name = FileName::Own;
            }
        }
        around.folder.sync()?;
        self.check_path()
    }

    /// Begins another record, in place of the one that was there, if one was.
    fn begin_another(&mut self, around: Surroundings<'a>, size: u64) -> Result<(), StoreFault> {
        self.record = None;
        let path = self.record_paths(around.alloc)?;
        let of = self.record_of(around);
        let record = RecordFile::begin(self.files, path.opened.as_str(), of, size)?;
        around.folder.sync()?;
        self.record = Some(record);
        Ok(())
    }

    /// What its record is about.
    pub(crate) fn record_of(&self, around: Surroundings<'a>) -> RecordOf {
        RecordOf {
            alloc: around.alloc,
            inode: self.identity.number(),
            boot: around.boot,
        }
    }

    /// A new file for the same volume, under a name of its own.
    fn new_file(&self) -> Result<FileStore<'a, R>, StoreFault> {
        let around = self.surroundings()?;
        around.folder.look(self.files)?;
        let paths = self.paths.try_clone(around.alloc)?;
        let new = self.new_paths(around.alloc)?;
        let file = make_anew(self.files, new.opened.as_str())?;
        let mut store = FileStore::new(self.files, paths, file, FileAccess::ReadWrite)?;
        store.name = FileName::New;
        store.around = Some(around);
        Ok(store)
    }
}

impl<'a, R: Files<File = File>> ImageStore for FileStore<'a, R> {
    // of its bytes nothing is known
    ghost did = { λ before call after. Unit {0} };

    ghost does = { λ before call after done. tt };

    fn truncate(&mut self, size: u64) -> Result<(), StoreFault> {
        self.cut(size)
    }

    fn append(&mut self, offset: u64, bytes: &[u8]) -> Result<(), StoreFault> {
        self.add(offset, bytes)
    }

    fn sync(&mut self) -> Result<(), StoreFault> {
        self.bring()
    }

    fn note(&mut self, size: u64) -> Result<(), StoreFault> {
        self.note_length(size)
    }

    fn renewed(&self) -> Result<FileStore<'a, R>, StoreFault> {
        self.new_file()
    }
}
