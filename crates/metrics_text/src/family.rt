//! Families of metrics: those of the same name, with one heading.
ghost use Rattle.std.specs.Prelude.{◌≡◌};
ghost use Rattle.metrics_text.specs.Families.{family_name, family_help, family_type};

/// What a family says.
#[derive(Clone, Copy)]
pub(crate) enum Family {
    /// How many records were counted, by what they say.
    Records,
    /// How many couldn't be counted.
    Uncounted,
    Unit(UnitNumber),
    Volume(VolumeNumber),
    Server(ServerNumber),
}

/// What is told of each unit.
#[derive(Clone, Copy)]
pub(crate) enum UnitNumber {
    Last,
    Waiting,
    Slots,
    Registrations,
    Reserved,
    Prevented,
}

/// What is told of each volume in a drive.
#[derive(Clone, Copy)]
pub(crate) enum VolumeNumber {
    Position,
    Objects,
    Unsaved,
    Bytes,
}

/// What is told of the server.
#[derive(Clone, Copy)]
pub(crate) enum ServerNumber {
    Memory,
    Sessions,
    Commands,
    Bytes,
    ImageFailing,
    InventoryFailing,
    AwaitedSaves,
    LastSync,
}

impl Family {
    /// Its name.
    #[tactic(auto, unfolding(crate::specs::Families::family_name))]
    pub fn name(self) -> &'static str
        ensures { result.now ≡ family_name self }
    {
        match self {
            Family::Records => "vtl_records_total",
            Family::Uncounted => "vtl_uncounted_records_total",
            Family::Unit(UnitNumber::Last) => "vtl_records_last",
            Family::Unit(UnitNumber::Waiting) => "vtl_records_waiting",
            Family::Unit(UnitNumber::Slots) => "vtl_slots_used",
            Family::Unit(UnitNumber::Registrations) => "vtl_registrations",
            Family::Unit(UnitNumber::Reserved) => "vtl_reserved",
            Family::Unit(UnitNumber::Prevented) => "vtl_removal_prevented",
            Family::Volume(VolumeNumber::Position) => "vtl_volume_position",
            Family::Volume(VolumeNumber::Objects) => "vtl_volume_objects",
            Family::Volume(VolumeNumber::Unsaved) => "vtl_volume_unsaved_objects",
            Family::Volume(VolumeNumber::Bytes) => "vtl_volume_bytes",
            Family::Server(ServerNumber::Memory) => "process_resident_memory_bytes",
            Family::Server(ServerNumber::Sessions) => "vtl_sessions",
            Family::Server(ServerNumber::Commands) => "vtl_session_commands_total",
            Family::Server(ServerNumber::Bytes) => "vtl_session_bytes_total",
            Family::Server(ServerNumber::ImageFailing) => "vtl_image_failing",
            Family::Server(ServerNumber::InventoryFailing) => "vtl_inventory_failing",
            Family::Server(ServerNumber::AwaitedSaves) => "vtl_awaited_saves",
            Family::Server(ServerNumber::LastSync) => "vtl_last_sync_seconds",
        }
    }

    /// What it is, in words.
    #[tactic(auto, unfolding(crate::specs::Families::family_help))]
    pub fn help(self) -> &'static str
        ensures { result.now ≡ family_help self }
    {
        match self {
            Family::Records => "Records taken out of units, by what they say.",
            Family::Uncounted => "Records that couldn't be counted, for want of memory.",
            Family::Unit(UnitNumber::Last) => "The number of a unit's last record.",
            Family::Unit(UnitNumber::Waiting) => "Records that a unit hasn't handed out.",
            Family::Unit(UnitNumber::Slots) => "Slots for nexuses that are used, of 128.",
            Family::Unit(UnitNumber::Registrations) => "Registered nexuses.",
            Family::Unit(UnitNumber::Reserved) => "Whether a reservation is held.",
            Family::Unit(UnitNumber::Prevented) => "Whether removal is prevented.",
            Family::Volume(VolumeNumber::Position) => "Objects before the position.",
            Family::Volume(VolumeNumber::Objects) => "Blocks and filemarks of a volume.",
            Family::Volume(VolumeNumber::Unsaved) => "Objects that its image hasn't.",
            Family::Volume(VolumeNumber::Bytes) => "Bytes in the blocks of a volume.",
            Family::Server(ServerNumber::Memory) => "Resident memory of the server, in bytes.",
            Family::Server(ServerNumber::Sessions) => "Sessions that go on.",
            Family::Server(ServerNumber::Commands) => "Commands that came in sessions.",
            Family::Server(ServerNumber::Bytes) =>
                "Bytes that came in sessions, and that were sent.",
            Family::Server(ServerNumber::ImageFailing) => "Volumes whose images can't be written.",
            Family::Server(ServerNumber::InventoryFailing) =>
                "Whether the inventory can't be written.",
            Family::Server(ServerNumber::AwaitedSaves) => "Saves that replies wait for.",
            Family::Server(ServerNumber::LastSync) =>
                "How long the last save took that a reply waited for.",
        }
    }

    /// The type of its metrics.
    #[tactic(auto, unfolding(crate::specs::Families::family_type))]
    pub fn type_text(self) -> &'static str
        ensures { result.now ≡ family_type self }
    {
        match self {
            Family::Records => "counter",
            Family::Uncounted => "counter",
            Family::Unit(UnitNumber::Last) => "counter",
            Family::Unit(UnitNumber::Waiting) => "gauge",
            Family::Unit(UnitNumber::Slots) => "gauge",
            Family::Unit(UnitNumber::Registrations) => "gauge",
            Family::Unit(UnitNumber::Reserved) => "gauge",
            Family::Unit(UnitNumber::Prevented) => "gauge",
            Family::Volume(VolumeNumber::Position) => "gauge",
            Family::Volume(VolumeNumber::Objects) => "gauge",
            Family::Volume(VolumeNumber::Unsaved) => "gauge",
            Family::Volume(VolumeNumber::Bytes) => "gauge",
            Family::Server(ServerNumber::Memory) => "gauge",
            Family::Server(ServerNumber::Sessions) => "gauge",
            Family::Server(ServerNumber::Commands) => "counter",
            Family::Server(ServerNumber::Bytes) => "counter",
            Family::Server(ServerNumber::ImageFailing) => "gauge",
            Family::Server(ServerNumber::InventoryFailing) => "gauge",
            Family::Server(ServerNumber::AwaitedSaves) => "gauge",
            Family::Server(ServerNumber::LastSync) => "gauge",
        }
    }
}
