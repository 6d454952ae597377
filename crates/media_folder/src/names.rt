//! The names of files in the folder.
ghost use Rattle.std.specs.Prelude.{◌≡◌, ◌++◌, codes, string_bytes, IfOk};
ghost use Rattle.media_folder.specs.Names.{IsKindOf, IsVolumePath};

use crate::fault::FolderFault;
use library_inventory::{name_of_tag, tag_of_name};
use std::alloc::{AllocError, Global};
use tape_medium::VolumeTag;

/// What a file of the folder is, by its name.
#[derive(Clone, Copy)]
pub(crate) enum FileKind {
    /// `TAG.tap`: the volume with that tag.
    Volume(VolumeTag),
    /// It ends in `.tap`, and what is before that is no tag.
    NoTag,
    Other,
}

pub(crate) fn kind_of(name: &str) -> FileKind
    ensures { IsKindOf name.now result }
{
    let Some(stem) = name.strip_suffix(".tap") else {
        return FileKind::Other;
    };
    match tag_of_name(stem) {
        Some(tag) => FileKind::Volume(tag),
        None => FileKind::NoTag,
    }
}

/// Where a folder is: the path that was given, and the one by which its files are opened, which leads to the folder that was opened even
/// where the other leads elsewhere by now.
#[derive(Clone, Copy)]
pub(crate) struct FolderPaths<'a> {
    pub given: &'a str,
    pub opened: &'a str,
}

impl<'a> FolderPaths<'a> {
    /// Of a folder that is looked at by its path alone.
    pub fn by_path(path: &'a str) -> FolderPaths<'a>
        ensures { result.given.now ≡ path.entry.now }
    {
        FolderPaths {
            given: path,
            opened: path,
        }
    }

    /// Where the file with a name is in it.
    pub fn file(self, alloc: Global, name: &str) -> Result<FilePaths, AllocError>
        ensures given { IfOk result (λ file. string_bytes file.given ≡ self.entry.given.now ++ (codes "/" ++ name.now)) }
        ensures opened { IfOk result (λ file. string_bytes file.opened ≡ self.entry.opened.now ++ (codes "/" ++ name.now)) }
    {
        Ok(FilePaths {
            given: path_in(alloc, self.given, name)?,
            opened: path_in(alloc, self.opened, name)?,
        })
    }

    /// Where a volume's file is in it. A tag that is no name has none.
    pub fn volume(self, alloc: Global, tag: &VolumeTag) -> Result<FilePaths, FolderFault>
        ensures given { IfOk result (λ file. IsVolumePath self.entry.given.now tag.now (string_bytes file.given)) }
        ensures opened { IfOk result (λ file. IsVolumePath self.entry.opened.now tag.now (string_bytes file.opened)) }
    {
        Ok(FilePaths {
            given: volume_path(alloc, self.given, tag)?,
            opened: volume_path(alloc, self.opened, tag)?,
        })
    }
}

/// Where a file of a folder is, by each of the folder's paths.
#[derive(Drop)]
pub(crate) struct FilePaths {
    pub given: String,
    pub opened: String,
}

impl FilePaths {
    /// Where the file is whose name goes on so.
    pub fn with_ending(&self, alloc: Global, ending: &str) -> Result<FilePaths, AllocError> {
        let (given, opened) = (&self.given, &self.opened);
        Ok(FilePaths {
            given: format!(in alloc; "{given}{ending}")?,
            opened: format!(in alloc; "{opened}{ending}")?,
        })
    }

    /// Where the file is whose name has another ending than that of a volume's file.
    pub fn with_other_ending(&self, alloc: Global, ending: &str) -> Result<FilePaths, AllocError> {
        let (given, opened) = (stem_of(self.given.as_str()), stem_of(self.opened.as_str()));
        Ok(FilePaths {
            given: format!(in alloc; "{given}{ending}")?,
            opened: format!(in alloc; "{opened}{ending}")?,
        })
    }

    pub fn try_clone(&self, alloc: Global) -> Result<FilePaths, AllocError>
        ensures { IfOk result (λ file. string_bytes file.given ≡ string_bytes self.now.given) }
    {
        Ok(FilePaths {
            given: String::from_str(alloc, self.given.as_str())?,
            opened: String::from_str(alloc, self.opened.as_str())?,
        })
    }
}

/// The path of a volume's file without its ending.
fn stem_of(path: &str) -> &str {
    path.strip_suffix(".tap").unwrap_or(path)
}

/// The path of a file in the folder.
pub(crate) fn path_in(alloc: Global, folder: &str, name: &str) -> Result<String, AllocError>
    ensures { IfOk result (λ path. string_bytes path ≡ folder.now ++ (codes "/" ++ name.now)) }
{
    format!(in alloc; "{folder}/{name}")
}

/// The path of a volume's file. A tag that is no name has none.
pub(crate) fn volume_path(
    alloc: Global,
    folder: &str,
    tag: &VolumeTag,
) -> Result<String, FolderFault>
    ensures { IfOk result (λ path. IsVolumePath folder.now tag.now (string_bytes path)) }
{
    let Some(name) = name_of_tag(tag) else {
        return Err(FolderFault::NoName);
    };
    Ok(format!(in alloc; "{folder}/{name}.tap")?)
}
