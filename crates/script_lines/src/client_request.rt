/// What a host asks of a logical unit.
#[derive(Drop)]
pub enum ClientRequest {
    /// A command: its CDB, 1 to 16 bytes, and the data sent with it, as much at most as a frame has room for.
    Command {
        lun: u8,
        cdb: Vec<u8>,
        bytes: Vec<u8>,
    },
    /// A reset of the logical unit.
    Reset {
        lun: u8,
    },
}
