use crate::counters::LogCounters;

/// What the log pages of a drive are made of.
#[derive(Clone, Copy)]
pub struct DriveLog {
    pub counters: LogCounters,
    /// The volume that is loaded.
    pub volume: Option<VolumeLog>,
}

/// What log pages show of a volume of one partition, in bytes.
#[derive(Clone, Copy)]
pub struct VolumeLog {
    pub capacity: u64,
    /// The bytes of the objects before the end of data.
    pub to_end_of_data: u64,
    /// The bytes of the objects before the position.
    pub position: u64,
    /// How much of the capacity is beyond early warning, 0 where nothing warns.
    pub early_warning: u64,
}
