//! Summaries of units, as plain values.

use element_map::ElementType;
use permit_tables::ResType;
use scsi_cdb::Profile;
use scsi_nexus::Nexus;
use tape_medium::VolumeTag;

/// A library: a summary of each unit, by logical unit number. They are of different moments, since each is copied under its own lock.
#[derive(Drop)]
pub struct LibrarySummary {
    pub profile: Profile,
    pub units: Vec<UnitSummary>,
}

/// The server of a library.
#[derive(Drop)]
pub struct ServerSummary {
    /// How many bytes of memory it has, where the system says that.
    pub memory: Option<u64>,
    /// The tags of the volumes whose images can't be written.
    pub failing: Vec<VolumeTag>,
    /// Whether the inventory can't be written, which says where the volumes are.
    pub is_inventory_failing: bool,
}

/// A session that goes on, at one moment.
#[derive(Drop)]
pub struct SessionSummary {
    /// Its place in the order of accepting, from 1 on.
    pub number: u64,
    /// Whom it is of, once its host has logged in.
    pub nexus: Option<Nexus>,
    /// The iSCSI name that its initiator has given.
    pub name: Option<String>,
    /// The address that it came from, at a portal.
    pub address: Option<String>,
    /// When it began (RFC 3339), where the clock could be read.
    pub start: Option<String>,
    /// How many commands it has sent.
    pub commands: u64,
    /// How many bytes came.
    pub received: u64,
    /// How many bytes were sent.
    pub sent: u64,
}

/// A logical unit at one moment.
#[derive(Drop)]
pub struct UnitSummary {
    pub lun: u8,
    /// The last record number that was used, 0 if none was.
    pub last: u64,
    /// How many records haven't been handed out.
    pub waiting: usize,
    /// How many of the slots for nexuses are used.
    pub slots: usize,
    /// Whether somebody prevents the removal of media.
    pub is_prevented: bool,
    /// PRGENERATION.
    pub generation: u32,
    /// The type and the holder, which is the nexus that made or took it.
    pub reservation: Option<(ResType, Nexus)>,
    /// The registered nexuses with their keys, ascending.
    pub registrations: Vec<(Nexus, u64)>,
    pub contents: UnitContents,
}

/// What is in a unit.
#[derive(Drop)]
pub enum UnitContents {
    /// The elements of a changer, by type: data transfer, import/export, storage.
    Changer(Vec<ElementSummary>),
    /// The volume in the bay of a drive.
    Drive(Option<VolumeSummary>),
}

/// An element of a changer.
#[derive(Clone, Copy)]
pub struct ElementSummary {
    pub element_type: ElementType,
    pub address: u16,
    /// The tag of its volume.
    pub tag: Option<VolumeTag>,
}

/// A volume in a drive.
#[derive(Clone, Copy)]
pub struct VolumeSummary {
    pub tag: VolumeTag,
    pub is_protected: bool,
    /// How many blocks and filemarks lie before its position.
    pub position: u32,
    /// How many it has.
    pub objects: u32,
    /// How many of the first of them are as they were when the tape was last copied to its image.
    pub unchanged: u32,
    /// How many bytes its blocks have.
    pub bytes: u64,
}
