ghost use Rattle.std.specs.Prelude.{◌≡◌, ◌≤◌};
ghost use Rattle.program_options.specs.Options.{AreGivenInRange, AreInRange, options_of};

use crate::library_options::LibraryOptions;

/// What a command line says of a library. What it says nothing of is as usual, or as it is in a library that is kept.
#[derive(Clone, Copy)]
pub struct GivenLibrary {
    pub drives: Option<u8>,
    /// Storage elements.
    pub slots: Option<u16>,
    /// Import/export elements.
    pub import_exports: Option<u8>,
    /// Volumes; of a library that is kept, how many there are to be at least.
    pub volumes: Option<u16>,
}

impl GivenLibrary {
    /// What a library is made of that is as usual in all that the command line says nothing of, with volumes for so many bytes of blocks.
    pub fn options(&self, volume_size: u64) -> LibraryOptions
        requires range { AreGivenInRange self.now }
        requires least { 1048576 ≤ volume_size }
        requires most { volume_size ≤ 68719476736 }
        ensures value { result ≡ options_of self.now volume_size }
        ensures range { AreInRange result }
    {
        let usual = LibraryOptions::DEFAULT;
        LibraryOptions {
            drives: self.drives.unwrap_or(usual.drives),
            slots: self.slots.unwrap_or(usual.slots),
            import_exports: self.import_exports.unwrap_or(usual.import_exports),
            volumes: self.volumes.unwrap_or(usual.volumes),
            volume_size,
        }
    }
}
