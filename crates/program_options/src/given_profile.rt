ghost use Rattle.std.specs.Prelude.{◌≡◌};
ghost use Rattle.program_options.specs.Profiles.{is_fitting, made_profile};

use crate::library_profile::LibraryProfile;
use inquiry_data::LibraryNumber;
use scsi_cdb::Profile;

/// What a command line says of the profile of a library, and of its number. What it says nothing of is as usual, or as it is in a library that
/// is kept.
#[derive(Clone, Copy)]
pub struct GivenProfile {
    pub profile: Option<Profile>,
    pub library_number: Option<LibraryNumber>,
}

impl GivenProfile {
    /// Whether a number is given at most together with the hosts' profile: no other library has one.
    pub fn is_fitting(&self) -> bool
        ensures { result ≡ is_fitting self.now }
    {
        match self.library_number {
            Some(_) => match self.profile {
                Some(Profile::Hosts) => true,
                Some(Profile::Spec) | None => false,
            },
            None => true,
        }
    }

    /// The profile of a library that is made: the default one unless another is given. It has the other number unless one is given.
    pub fn made_profile(&self, other: LibraryNumber) -> LibraryProfile
        ensures { result ≡ made_profile self.now other }
    {
        LibraryProfile::new(
            self.profile.unwrap_or(Profile::Spec),
            self.library_number.unwrap_or(other),
        )
    }
}
