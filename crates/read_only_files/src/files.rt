ghost use Rattle.std.specs.Prelude.{IsErr};

use std::alloc::{Allocator, Global};
use std::fs::{Files, Metadata, OpenOptions};
use std::io::{self, ErrorKind};

/// A handle to files by which none is changed. What would change one is refused, and isn't handed on: of the calls of `Files` that this
/// type doesn't have the system refuses each. A file is opened to be read alone, whatever is asked, so no file is made, cut or written
/// through it.
#[derive(Drop)]
pub struct ReadOnlyFiles<'a, R> {
    files: &'a R,
}

impl<'a, R> ReadOnlyFiles<'a, R> {
    /// Of the files that a handle reaches.
    pub fn new(files: &'a R) -> ReadOnlyFiles<'a, R> {
        ReadOnlyFiles { files }
    }
}

/// What a call that would change something answers.
fn refused<T>() -> io::Result<T>
    ensures { IsErr result }
{
    Err(io::Error::from(ErrorKind::ReadOnlyFilesystem))
}

impl<'a, R: AllocGlobal> Alloc for ReadOnlyFiles<'a, R> {
    type A = Global;

    fn alloc(&self) -> Global {
        self.files.alloc()
    }
}

impl<'a, R: Files> Files for ReadOnlyFiles<'a, R> {
    type File = R::File;

    type Dir = R::Dir;

    fn open_file(&self, _how: &OpenOptions, path: &str) -> io::Result<R::File> {
        self.files.open_file(OpenOptions::new().read(true), path)
    }

    fn open_dir(&self, path: &str) -> io::Result<R::Dir> {
        self.files.open_dir(path)
    }

    fn metadata(&self, path: &str) -> io::Result<Metadata> {
        self.files.metadata(path)
    }

    fn symlink_metadata(&self, path: &str) -> io::Result<Metadata> {
        self.files.symlink_metadata(path)
    }

    fn copy(&self, _from: &str, _to: &str) -> io::Result<u64>
        ensures { IsErr result }
    {
        refused::<u64>()
    }

    fn rename(&self, _from: &str, _to: &str) -> io::Result<()>
        ensures { IsErr result }
    {
        refused()
    }

    fn remove_file(&self, _path: &str) -> io::Result<()>
        ensures { IsErr result }
    {
        refused()
    }

    fn create_dir(&self, _path: &str) -> io::Result<()>
        ensures { IsErr result }
    {
        refused()
    }

    fn remove_dir(&self, _path: &str) -> io::Result<()>
        ensures { IsErr result }
    {
        refused()
    }

    fn remove_dir_all<B: Allocator>(&self, _alloc: B, _path: &str) -> io::Result<()>
        ensures { IsErr result }
    {
        refused()
    }
}

#[cfg(test)]
mod tests {
    use super::*;
    use std::test::Fail;
    use std::{fs, process};

    #[test]
    fn reads_and_changes_nothing(rt: HostRuntime) -> Result<(), Fail> {
        let files = ReadOnlyFiles::new(&rt);
        let id = process::id(rt.process());
        let path = format!(in rt.alloc(); "/tmp/vtl-read-only-{id}")?;
        let path = path.as_str();
        let other = format!(in rt.alloc(); "{path}.other")?;
        let other = other.as_str();
        fs::write(&rt, path, "as it is")?;
        assert!(rt; fs::write(&files, path, "otherwise").is_err());
        assert!(rt; fs::remove_file(&files, path).is_err());
        assert!(rt; fs::rename(&files, path, other).is_err());
        assert!(rt; fs::create_dir(&files, other).is_err());
        assert!(rt; fs::metadata(&rt, other).is_err());
        let text = fs::read_to_string(&files, path)?;
        assert_eq!(rt; text.as_str(), "as it is");
        fs::remove_file(&rt, path)?;
        Ok(())
    }
}
