use inquiry_data::LibraryNumber;
use scsi_cdb::Profile;

/// The profile of a library. One of the hosts' profile has a number, which its units share.
#[derive(Clone, Copy, Debug, PartialEq, Eq)]
pub enum LibraryProfile {
    Spec,
    Hosts(LibraryNumber),
}

impl LibraryProfile {
    ghost use Rattle.std.specs.Prelude.{◌≡◌};
    ghost use Rattle.program_options.specs.Profiles.{profile_of, with_number};

    /// Of a library of this profile, with this number if it is to have one.
    pub fn new(profile: Profile, number: LibraryNumber) -> LibraryProfile
        ensures { result ≡ with_number profile number }
    {
        match profile {
            Profile::Spec => LibraryProfile::Spec,
            Profile::Hosts => LibraryProfile::Hosts(number),
        }
    }

    /// Which profile it is.
    pub fn profile(self) -> Profile
        ensures { result ≡ profile_of self }
    {
        match self {
            LibraryProfile::Spec => Profile::Spec,
            LibraryProfile::Hosts(_) => Profile::Hosts,
        }
    }
}
