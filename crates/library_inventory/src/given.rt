ghost use Rattle.std.specs.Prelude.{◌≡◌};
ghost use Rattle.library_inventory.specs.Sizes.{agreed, size_of};

use crate::element::LibrarySize;
use crate::fault::{SizeOption, StartFault};
use program_options::{GivenLibrary, LibraryOptions};

/// Whether an option that may be given is what is kept.
fn agree(option: SizeOption, given: Option<u16>, kept: u16) -> Result<(), StartFault>
    ensures { result ≡ agreed option given kept }
{
    match given {
        Some(given) if given != kept => Err(StartFault::Disagrees {
            option,
            given,
            kept,
        }),
        _ => Ok(()),
    }
}

/// The size of a library: that of its inventory, with which each option that is given agrees, or without an inventory that
/// of the options, and what else is usual.
pub fn size_at_start(
    given: &GivenLibrary,
    kept: Option<LibrarySize>,
) -> Result<LibrarySize, StartFault>
    ensures { result ≡ size_of given.now kept }
{
    match kept {
        Some(kept) => {
            agree(
                SizeOption::Drives,
                given.drives.map(u16::from),
                u16::from(kept.drives),
            )?;
            agree(SizeOption::Slots, given.slots, kept.slots)?;
            agree(
                SizeOption::ImportExports,
                given.import_exports.map(u16::from),
                u16::from(kept.import_exports),
            )?;
            Ok(kept)
        }
        None => Ok(LibrarySize {
            drives: given.drives.unwrap_or(LibraryOptions::DEFAULT.drives),
            slots: given.slots.unwrap_or(LibraryOptions::DEFAULT.slots),
            import_exports: given
                .import_exports
                .unwrap_or(LibraryOptions::DEFAULT.import_exports),
        }),
    }
}
