ghost use Rattle.std.specs.Prelude.{◌≡◌, ◌≤◌};
ghost use Rattle.tape_medium.specs.Limits.{most_block, most_objects, block_limit, object_limit};

use scsi_cdb::Profile;

/// The most bytes that a logical block has, in any profile. It has one at least.
pub const MAX_BLOCK: u32 = 1_048_576;

/// The most bytes of blocks that a tape is made for, 64 GiB.
pub const MAX_CAPACITY: u64 = 68_719_476_736;

/// The most logical objects that a tape has, in any profile.
pub const MAX_OBJECTS: u32 = 16_777_216;

/// The most bytes of a logical block that is written in a library of a profile, and of the data of one command there (profile).
pub fn most_block(profile: Profile) -> u32
    ensures value { result ≡ most_block profile }
    ensures within { result ≤ block_limit }
{
    match profile {
        Profile::Spec => 65_536,
        Profile::Hosts => MAX_BLOCK,
    }
}

/// The most logical objects of a tape that is written there (profile).
pub fn most_objects(profile: Profile) -> u32
    ensures value { result ≡ most_objects profile }
    ensures within { result ≤ object_limit }
{
    match profile {
        Profile::Spec => 1_000_000,
        Profile::Hosts => MAX_OBJECTS,
    }
}
