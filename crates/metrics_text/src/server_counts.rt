/// What is counted of a server.
#[derive(Clone, Copy)]
pub struct ServerCounts {
    /// How many sessions go on.
    pub sessions: u64,
    /// How many commands came, in those that go on and in those that have ended.
    pub commands: u64,
    /// How many bytes came in them, and were sent.
    pub received: u64,
    pub sent: u64,
    /// How many saves replies wait for: of a volume, of the inventory, or of a part of what a drive has written.
    pub awaited_saves: u64,
    /// How many microseconds the last save took that a reply waited for, once there was one.
    pub last_sync: Option<u64>,
}
