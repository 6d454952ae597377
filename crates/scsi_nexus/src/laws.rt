//! Worked rows that the definitions compute to. Each function has an empty body: its clauses are the rows.

ghost use Rattle.scsi_nexus.specs.Rows.{NexusRows, PortRows, TransportIdRows};

/// The order of nexuses, their ports and their text, and TransportIDs byte by byte.
pub fn nexus_rows()
    ensures nexuses { NexusRows }
    ensures ports { PortRows }
    ensures transport_ids { TransportIdRows }
{}
