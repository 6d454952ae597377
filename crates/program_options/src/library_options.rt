use crate::option_fault::OptionFault;

/// The most reads of an input, a script or a session, so that each is read to its end within a known time.
pub const MAX_READS: u64 = 0xFFFF_FFFF;

/// What a library is made of.
#[derive(Clone, Copy)]
pub struct LibraryOptions {
    pub drives: u8,
    /// Storage elements.
    pub slots: u16,
    /// Import/export elements.
    pub import_exports: u8,
    /// Volumes, in the first storage elements.
    pub volumes: u16,
    /// How many bytes of blocks a volume takes.
    pub volume_size: u64,
}

impl LibraryOptions {
    /// What a library is made of where nothing else is asked for.
    pub const DEFAULT: LibraryOptions = LibraryOptions {
        drives: 1,
        slots: 8,
        import_exports: 0,
        volumes: 1,
        volume_size: 16_777_216,
    };

    /// The least of each that a library has (profile).
    pub const MIN: LibraryOptions = LibraryOptions {
        drives: 1,
        slots: 1,
        import_exports: 0,
        volumes: 0,
        volume_size: 1_048_576,
    };

    /// The most of each that a library has (profile).
    pub const MAX: LibraryOptions = LibraryOptions {
        drives: 4,
        slots: 1024,
        import_exports: 16,
        volumes: 1024,
        volume_size: 68_719_476_736,
    };

    ghost use Rattle.std.specs.Prelude.{◌≡◌, ◌*◌, ◌↔◌, ◌≤◌, IsOk, IsOkUnless};
    ghost use Rattle.program_options.specs.Options.{AreInRange};

    /// How many bytes of blocks all volumes take together.
    pub fn size_of_all_volumes(&self) -> u64
        requires { AreInRange self.now }
        ensures { result ≡ self.now.volumes * self.now.volume_size }
    {
        u64::from(self.volumes) * self.volume_size
    }

    /// Whether each volume has a storage element.
    pub fn fits(&self) -> Result<(), OptionFault>
        ensures ok { IsOk result ↔ (self.now.volumes ≤ self.now.slots) }
        ensures err { IsOkUnless result OptionFault.MoreVolumes }
    {
        if self.volumes <= self.slots {
            Ok(())
        } else {
            Err(OptionFault::MoreVolumes)
        }
    }
}

impl Default for LibraryOptions {
    fn default() -> LibraryOptions {
        LibraryOptions::DEFAULT
    }
}
