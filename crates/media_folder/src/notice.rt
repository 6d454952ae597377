use crate::refusal::ImageRefusal;
use inquiry_data::LibraryNumber;
use library_inventory::Element;
use std::fmt;
use std::io::{self, Write};

/// Why a record isn't that of a volume's file.
#[derive(Clone, Copy)]
pub(crate) enum RecordFault {
    /// Its text is none of a record.
    NoRecord,
    /// It is the record of another file, which had the same name.
    AnotherFile,
    /// It says that more bytes are on the disk than the file has.
    Longer { recorded: u64, length: u64 },
}

/// What is reported of a folder that is opened.
#[derive(Clone, Copy)]
pub(crate) enum Notice<'a> {
    /// The name of a file in the folder ends in `.tap`, and is that of no volume.
    NoTag {
        folder: &'a str,
        name: &'a str,
    },
    /// A file in the folder has a name that is no text.
    NoText {
        folder: &'a str,
    },
    /// A volume's file can't be served.
    LeftOut {
        path: &'a str,
        refusal: ImageRefusal,
    },
    /// Users other than the owner of the folder, or of a file in it, may read or write that.
    OpenToOthers {
        folder: &'a str,
    },
    /// A volume's file ended within an object, of which so many bytes were there.
    CutTail {
        path: &'a str,
        lost: u64,
    },
    /// A record isn't taken for that of its volume's file.
    RecordIgnored {
        path: &'a str,
        fault: RecordFault,
    },
    /// So many bytes after those of a volume's file that are known to be on the disk were moved away.
    TailMoved {
        path: &'a str,
        count: u64,
        tail: &'a str,
    },
    /// A volume's file can't be written.
    Protected {
        path: &'a str,
    },
    /// Before a volume's file is written another file had to be, which wasn't.
    Unwritable {
        path: &'a str,
        file: &'a str,
        error: io::Error,
    },
    /// The inventory doesn't name the volume of a file, which is in that element from now on.
    New {
        path: &'a str,
        element: Element,
    },
    /// The inventory of a library that is there couldn't be written.
    InventoryUnwritten {
        path: &'a str,
        error: io::Error,
    },
    /// A volume's file isn't there; by the inventory the volume was in that element.
    Missing {
        path: &'a str,
        element: Element,
    },
    /// A blank volume is to be made, and a file or a volume of the inventory has its tag.
    NotBlank {
        path: &'a str,
    },
    /// A library that was kept with the default profile is of the hosts' profile from now on.
    ForHosts {
        folder: &'a str,
        number: LibraryNumber,
    },
}

/// Reports a notice. If its line can't be written, it is lost.
pub(crate) fn tell<E: Write>(errors: &mut E, notice: &Notice<'_>) {
    let _ = writeln!(errors, "{notice}");
}

impl<'a> fmt::Display for Notice<'a> {
    fn fmt<W: fmt::Write>(&self, f: &mut fmt::Formatter<W>) -> fmt::Result {
        match self {
            Notice::NoTag { folder, name } => {
                write!(
                    f,
                    "vtl: {folder}/{name}: it is not named as a volume: it is left alone"
                )
            }
            Notice::NoText { folder } => {
                write!(
                    f,
                    "vtl: {folder}: a file whose name is not text is left alone"
                )
            }
            Notice::LeftOut { path, refusal } => {
                write!(f, "vtl: {path}: {refusal}: the volume is left out")
            }
            Notice::OpenToOthers { folder } => {
                write!(
                    f,
                    "vtl: {folder}: only its owner should be able to read or change it and its files (chmod -R go= {folder})"
                )
            }
            Notice::CutTail { path, lost } => {
                write!(
                    f,
                    "vtl: {path}: a tail of {lost} bytes that was cut off is lost"
                )
            }
            Notice::RecordIgnored { path, fault } => {
                write!(f, "vtl: {path}: {fault}: the whole image is read")
            }
            Notice::TailMoved { path, count, tail } => {
                write!(
                    f,
                    "vtl: {path}: {count} bytes that were not known to be on the disk were moved to {tail}"
                )
            }
            Notice::Protected { path } => {
                write!(
                    f,
                    "vtl: {path}: it can't be written, so the volume is write-protected"
                )
            }
            Notice::Unwritable { path, file, error } => {
                write!(
                    f,
                    "vtl: {path}: cannot write {file}: {error}: the volume is write-protected until the next start"
                )
            }
            Notice::New { path, element } => {
                let (kind, number) = words_of(*element);
                write!(
                    f,
                    "vtl: {path}: it is new here: the volume is in {kind} {number}"
                )
            }
            Notice::InventoryUnwritten { path, error } => {
                write!(
                    f,
                    "vtl: cannot write {path}: {error}: where volumes are is not saved, and is tried again"
                )
            }
            Notice::Missing { path, element } => {
                let (kind, number) = words_of(*element);
                write!(
                    f,
                    "vtl: {path}: it is missing: the volume was in {kind} {number}"
                )
            }
            Notice::NotBlank { path } => {
                write!(
                    f,
                    "vtl: {path}: the library has a volume of this name, so no blank one is made"
                )
            }
            Notice::ForHosts { folder, number } => write!(
                f,
                "vtl: {folder}: the library is kept as hosts from now on, and its number is {number}"
            ),
        }
    }
}

impl fmt::Display for RecordFault {
    fn fmt<W: fmt::Write>(&self, f: &mut fmt::Formatter<W>) -> fmt::Result {
        match self {
            RecordFault::NoRecord => f.write_str("it is not a record of what is on the disk"),
            RecordFault::AnotherFile => f.write_str("it is the record of another file"),
            RecordFault::Longer { recorded, length } => write!(
                f,
                "it says that {recorded} bytes are on the disk, and the file has {length}"
            ),
        }
    }
}

/// An element's type, as it is reported, and its number within that.
fn words_of(element: Element) -> (&'static str, u16) {
    match element {
        Element::DataTransfer(number) => ("drive", number),
        Element::Storage(number) => ("storage element", number),
        Element::ImportExport(number) => ("import/export element", number),
    }
}
