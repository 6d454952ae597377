//! The target of the tests: two empty drives, and two volumes in the first storage elements.

use library_start::{Device, library};
use program_options::{LibraryOptions, LibraryProfile};
use std::alloc::{AllocError, Global};
use target_core::TargetCore;

const OPTIONS: LibraryOptions = LibraryOptions {
    drives: 2,
    slots: 4,
    import_exports: 0,
    volumes: 2,
    volume_size: LibraryOptions::MIN.volume_size,
};

pub(super) fn two_drives(alloc: Global) -> Result<TargetCore<Device>, AllocError> {
    library(alloc, &OPTIONS, LibraryProfile::Spec)
}
