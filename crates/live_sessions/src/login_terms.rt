//! On which terms initiators of iSCSI are let in.

/// How many workers a portal has more than sessions may log in there: they hear who hasn't logged in yet.
pub const SPARE_WORKERS: u8 = 8;

/// The most connections of one address whose initiators haven't logged in.
pub(crate) const MOST_BEFORE_LOGIN: usize = 4;

/// The most sessions of one nexus at a time.
pub(crate) const MOST_OF_NEXUS: usize = 8;

/// From where further sessions of a nexus may come.
#[derive(Clone, Copy, PartialEq, Eq)]
pub enum Paths {
    /// From an address that one of its sessions comes from: another machine that has the same name doesn't become the same host.
    SameAddress,
    /// From any address: hosts have several network cards.
    Any,
}

/// On which terms initiators of iSCSI are let in at portals.
#[derive(Clone, Copy)]
pub struct LoginTerms {
    /// How many sessions at a time may have logged in at each portal.
    pub most_sessions: u8,
    pub paths: Paths,
    /// How many nexuses of hosts that aren't named may come in, so that those of named hosts find slots.
    pub most_strangers: u8,
}
