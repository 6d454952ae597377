use inquiry_data::LibraryNumber;
use std::alloc::{AllocError, AllocFailed};
use thiserror::Error;

/// An option that says what a library is made of.
#[derive(Clone, Copy, Debug)]
pub enum SizeOption {
    Drives,
    Slots,
    ImportExports,
}

/// Why a volume isn't added to an inventory, in the order of the tests.
#[derive(Clone, Copy, Debug, Error)]
pub enum AddFault {
    #[error("no such element")]
    NoElement,
    #[error("an element twice")]
    ElementTwice,
    #[error("a tag twice")]
    TagTwice,
    /// Its source isn't an element of the library outside drives, or it has one though it isn't in a drive.
    #[error("no source")]
    BadSource,
    #[error("want of memory")]
    NoMemory,
}

impl<T: Drop> From<AllocFailed<T>> for AddFault {
    ghost use Rattle.std.specs.Prelude.{◌≡◌};
    ghost use Rattle.library_inventory.specs.declared.fault.AddFault.TheVariants.{NoMemory};

    ghost from_gives = { λ _ fault. fault ≡ NoMemory };

    fn from(_error: AllocFailed<T>) -> AddFault {
        AddFault::NoMemory
    }
}

/// Why a library can't be started.
#[derive(Clone, Copy, Debug, Error)]
pub enum StartFault {
    #[error("want of memory")]
    NoMemory,
    /// An option disagrees with the inventory: what was given, and what the library is made of.
    #[error("the option disagrees with the inventory: {given}, and not {kept}")]
    Disagrees {
        option: SizeOption,
        given: u16,
        kept: u16,
    },
    /// So many volumes are in no element, and so many storage elements are free, which are fewer.
    #[error("more volumes than free storage elements: {volumes}, and {free} are free")]
    MoreVolumes {
        volumes: usize,
        free: usize,
    },
    /// Too few of the tags from VOL00001 to VOL04095 are left for the volumes that are to be made.
    #[error("no tags are left")]
    NoTags,
    /// The default profile is given for a library that is kept with the hosts' profile, and stays so.
    #[error("--profile spec disagrees with the inventory: the library is kept as hosts")]
    KeptForHosts,
    /// Another number is given than the library has.
    #[error("--library-id {given} disagrees with the inventory, which has {kept}")]
    OtherNumber {
        given: LibraryNumber,
        kept: LibraryNumber,
    },
    /// A number is given for a library that isn't of the hosts' profile.
    #[error("--library-id needs --profile hosts: no other library has a number")]
    NumberWithoutHosts,
}

impl From<AllocError> for StartFault {
    ghost use Rattle.std.specs.Prelude.{◌≡◌};
    ghost use Rattle.library_inventory.specs.declared.fault.StartFault.TheVariants.{NoMemory};

    ghost from_gives = { λ _ fault. fault ≡ NoMemory };

    fn from(_error: AllocError) -> StartFault {
        StartFault::NoMemory
    }
}
