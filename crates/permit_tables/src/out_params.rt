use crate::addresses::Addresses;
use crate::list_defect::ListDefect;
use scsi_cdb::OutServiceAction;
use scsi_nexus::Nexus;

/// A PERSISTENT RESERVE OUT command with its parameter list (SPC-4, "PERSISTENT RESERVE OUT
/// command").
#[derive(Drop)]
pub struct OutParams {
    /// The RESERVATION KEY, 0 for none.
    pub rk: u64,
    /// The SERVICE ACTION RESERVATION KEY.
    pub sark: u64,
    /// Whom REGISTER AND MOVE names, with any port; none where the TransportID is no SAS one.
    pub dest: Option<Nexus>,
    /// The service action.
    pub act: OutServiceAction,
    /// The byte of the command with SCOPE in bits 7 to 4 and TYPE in bits 3 to 0.
    pub scope_type: u8,
    /// UNREG of REGISTER AND MOVE: the sender is unregistered.
    pub unreg: bool,
    /// What is wrong with the list though its length is right.
    pub defect: Option<ListDefect>,
    /// ALL_TG_PT of either REGISTER: the sender's address, and each listed one, at every target
    /// port.
    pub all_ports: bool,
    /// SPEC_I_PT of either REGISTER: the list names further SAS addresses.
    pub listed: bool,
    /// The SAS addresses that a REGISTER list without a defect names, in its order.
    pub targets: Addresses,
}
