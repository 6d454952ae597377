ghost use Rattle.std.specs.Prelude.{◌≡◌};
ghost use Rattle.library_inventory.specs.Profiles.{agreed_number, new_profile, profile_at_start, profile_started};

use crate::fault::StartFault;
use inquiry_data::LibraryNumber;
use program_options::{GivenProfile, LibraryProfile};
use scsi_cdb::Profile;

/// The profile of a library that is started. One of the hosts' profile that has no number yet gets one.
#[derive(Clone, Copy)]
pub enum StartProfile {
    Spec,
    Hosts(Option<LibraryNumber>),
}

impl StartProfile {
    /// Which profile it is.
    pub fn profile(self) -> Profile
        ensures { result ≡ profile_started self }
    {
        match self {
            StartProfile::Spec => Profile::Spec,
            StartProfile::Hosts(_) => Profile::Hosts,
        }
    }
}

/// The profile of a library at a start. One that is kept stays as it is where nothing is given, and one of the hosts' profile stays of that,
/// with its number. Else it is the default one unless another is given, and a number may be given together with the hosts' profile alone.
pub fn profile_at_start(
    given: &GivenProfile,
    kept: Option<LibraryProfile>,
) -> Result<StartProfile, StartFault>
    ensures { result ≡ profile_at_start given.now kept }
{
    match kept {
        Some(LibraryProfile::Hosts(number)) => match given.profile {
            Some(Profile::Spec) => Err(StartFault::KeptForHosts),
            Some(Profile::Hosts) | None => agreed_number(given.library_number, number),
        },
        Some(LibraryProfile::Spec) | None => new_profile(given),
    }
}

/// The profile of a library that is made, or is kept with the default profile.
fn new_profile(given: &GivenProfile) -> Result<StartProfile, StartFault>
    ensures { result ≡ new_profile given.now }
{
    if !given.is_fitting() {
        return Err(StartFault::NumberWithoutHosts);
    }
    match given.profile {
        Some(Profile::Hosts) => Ok(StartProfile::Hosts(given.library_number)),
        Some(Profile::Spec) | None => Ok(StartProfile::Spec),
    }
}

/// The number that is kept, if no other one is given.
fn agreed_number(
    given: Option<LibraryNumber>,
    kept: LibraryNumber,
) -> Result<StartProfile, StartFault>
    ensures { result ≡ agreed_number given kept }
{
    match given {
        Some(given) if given.number != kept.number => {
            Err(StartFault::OtherNumber { given, kept })
        }
        Some(_) | None => Ok(StartProfile::Hosts(Some(kept))),
    }
}
