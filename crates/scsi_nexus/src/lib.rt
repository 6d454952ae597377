//! The ends that speak to a unit: an initiator's SAS address with the target port that it comes by,
//! lists of such nexuses, and the TransportIDs that name the addresses in parameter data.
#![tactic(auto)]

mod laws;
mod layout;
mod nexus;
mod nexus_list;
mod place;
mod transport_id;

pub use laws::nexus_rows;
pub use layout::TRANSPORT_ID_LENGTH;
pub use nexus::{Nexus, TARGET_PORTS};
pub use nexus_list::{LIST_CAPACITY, ListFull, NexusList};
pub use place::{order_of, place_near, place_of};
pub use transport_id::{TransportId, TransportIdFault, transport_id_reads_back};
