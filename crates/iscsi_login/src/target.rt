use iscsi_chap::{Access, Authentication};
use scsi_cdb::Profile;

/// The target that a login comes to.
#[derive(Drop)]
pub struct LoginTarget {
    /// Its iSCSI name.
    pub name: Vec<u8>,
    pub access: Access,
    pub authentication: Authentication,
    /// The profile of the library behind it.
    pub profile: Profile,
}
