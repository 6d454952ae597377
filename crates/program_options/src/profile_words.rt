ghost use Rattle.std.specs.Prelude.{◌≡◌};
ghost use Rattle.program_options.specs.Profiles.{number_in, number_of_target, profile_in};

use crate::option_fault::OptionFault;
use inquiry_data::LibraryNumber;
use scsi_cdb::Profile;
use sha2::{Digest, Sha256};

/// The profile with a name.
pub fn profile_of(text: &str) -> Result<Profile, OptionFault>
    ensures { result ≡ profile_in text.now }
{
    match text {
        "spec" => Ok(Profile::Spec),
        "hosts" => Ok(Profile::Hosts),
        _ => Err(OptionFault::BadProfile),
    }
}

/// The number of a library in a text of 8 hexadecimal digits, of either case.
pub fn library_number_of(text: &str) -> Result<LibraryNumber, OptionFault>
    ensures { result ≡ number_in text.now }
{
    match LibraryNumber::parse(text) {
        Some(number) => Ok(number),
        None => Err(OptionFault::BadLibraryNumber),
    }
}

/// The number of a library whose target has an iSCSI name: the first 32 bits of the name's SHA-256 (profile).
#[tactic(auto, unfolding(crate::specs::Profiles::number_of_target))]
pub fn number_of_target(name: &str) -> LibraryNumber
    ensures { result ≡ number_of_target name.now }
{
    let mut hasher = Sha256::new();
    hasher.update(name.as_bytes());
    let [b0, b1, b2, b3, ..] = hasher.finalize();
    LibraryNumber {
        number: u32::from_be_bytes([b0, b1, b2, b3]),
    }
}
