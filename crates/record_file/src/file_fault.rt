ghost use Rattle.std.specs.Prelude.{◌≡◌};
ghost use Rattle.record_file.specs.Faults.{why_text};

use std::fmt;

/// Why records can't be written into a file.
#[derive(Debug, Drop)]
pub struct FileFault {
    pub path: String,
    pub why: WhyNoFile,
}

#[derive(Clone, Copy, Debug, PartialEq, Eq)]
pub enum WhyNoFile {
    /// The path is that of a directory.
    IsDirectory,
    /// The directory in which it is to be isn't there.
    NoDirectory,
    /// The system refuses it.
    Refused,
}

impl fmt::Display for FileFault {
    ghost use Rattle.std.specs.Prelude.{Some};
    ghost use Rattle.record_file.specs.Faults.{file_fault_text};

    ghost output = { λ fault. Some (file_fault_text fault) };

    fn fmt<W: fmt::Write>(&self, f: &mut fmt::Formatter<W>) -> fmt::Result {
        let path = self.path.as_str();
        let words = words_of(self.why);
        write!(f, "vtl: device fault\nvtl: cannot write {path}{words}")
    }
}

fn words_of(why: WhyNoFile) -> &'static str
    ensures { result.now ≡ why_text why }
{
    match why {
        WhyNoFile::IsDirectory => ": it is a directory",
        WhyNoFile::NoDirectory => ": its directory is not there",
        WhyNoFile::Refused => "",
    }
}
