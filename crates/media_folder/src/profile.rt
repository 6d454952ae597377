//! The profile of a library, and its number.
ghost use Rattle.std.specs.Prelude.{◌≡◌, IfOk, Ok};
ghost use Rattle.library_inventory.specs.Profiles.{profile_at_start};
ghost use Rattle.media_folder.specs.Profiles.{IsNumbered};

use crate::fault::FolderFault;
use inquiry_data::LibraryNumber;
use library_inventory::{StartProfile, profile_at_start};
use program_options::{GivenProfile, LibraryProfile};
use std::random::RandomSource;

/// The profile of a library at a start, by what is given and by what its inventory has, if it has one.
pub(crate) fn decide_profile(
    given: &GivenProfile,
    kept: Option<LibraryProfile>,
) -> Result<StartProfile, FolderFault>
    ensures { IfOk result (λ profile. profile_at_start given.now kept ≡ Ok profile) }
{
    match profile_at_start(given, kept) {
        Ok(profile) => Ok(profile),
        Err(fault) => Err(FolderFault::of_start(fault)),
    }
}

/// The profile of a library that is started. A number that is neither given nor kept comes from the system's random generator.
pub(crate) fn number_profile<R: RandomSource>(
    rt: &R,
    profile: StartProfile,
) -> Result<LibraryProfile, FolderFault>
    ensures { IfOk result (IsNumbered profile) }
{
    match profile {
        StartProfile::Spec => Ok(LibraryProfile::Spec),
        StartProfile::Hosts(Some(number)) => Ok(LibraryProfile::Hosts(number)),
        StartProfile::Hosts(None) => Ok(LibraryProfile::Hosts(random_number(rt)?)),
    }
}

/// A number that no other library is likely to have.
fn random_number<R: RandomSource>(rt: &R) -> Result<LibraryNumber, FolderFault> {
    let mut bytes = [0; 4];
    match rt.fill_bytes(&mut bytes) {
        Ok(()) => Ok(LibraryNumber {
            number: u32::from_be_bytes(bytes),
        }),
        Err(_) => Err(FolderFault::NoNumber),
    }
}
