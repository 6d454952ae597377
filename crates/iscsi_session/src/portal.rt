use iscsi_answers::PortalAddress;
use iscsi_login::{Challenge, LoginTarget};

/// Where a connection has come to.
#[derive(Clone, Copy)]
pub struct Portal<'a> {
    pub target: &'a LoginTarget,
    /// The portal group that the address stands for.
    pub group: u16,
    /// The address that this connection came to, as `ADDRESS:PORT`.
    pub address: &'a str,
    /// All portals of the target; that of the group is told by `address`.
    pub portals: &'a [PortalAddress],
}

/// A connection that has come in at a portal.
#[derive(Clone, Copy)]
pub struct Arrival<'a> {
    /// Where it has come to.
    pub portal: Portal<'a>,
    /// What its initiator is asked, if it is to prove who it is.
    pub challenge: Option<Challenge>,
    /// The number that its session has then, not 0.
    pub tsih: u16,
}
