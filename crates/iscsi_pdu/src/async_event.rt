ghost use Rattle.std.specs.Prelude.{◌≡◌};

/// What an Asynchronous Message tells (RFC 7143, "AsyncEvent").
#[derive(Clone, Copy)]
pub enum AsyncEvent {
    /// The data segment has the sense data.
    ScsiEvent,
    LogoutRequested,
    ConnectionDropped,
    AllConnectionsDropped,
    NegotiationRequested,
    /// All active tasks of the logical unit are being terminated.
    TasksTerminated,
    VendorSpecific,
    /// Any other code.
    Reserved,
}

impl AsyncEvent {
    ghost use Rattle.iscsi_pdu.specs.Codes.{async_event_code, async_event_of};

    /// What the code stands for.
    pub fn of(code: u8) -> AsyncEvent
        ensures { result ≡ async_event_of code }
    {
        match code {
            0x00 => AsyncEvent::ScsiEvent,
            0x01 => AsyncEvent::LogoutRequested,
            0x02 => AsyncEvent::ConnectionDropped,
            0x03 => AsyncEvent::AllConnectionsDropped,
            0x04 => AsyncEvent::NegotiationRequested,
            0x05 => AsyncEvent::TasksTerminated,
            0xFF => AsyncEvent::VendorSpecific,
            _ => AsyncEvent::Reserved,
        }
    }

    /// Its code; of `Reserved` one that stands for nothing.
    pub fn code(self) -> u8
        ensures { result ≡ async_event_code self }
    {
        match self {
            AsyncEvent::ScsiEvent => 0x00,
            AsyncEvent::LogoutRequested => 0x01,
            AsyncEvent::ConnectionDropped => 0x02,
            AsyncEvent::AllConnectionsDropped => 0x03,
            AsyncEvent::NegotiationRequested => 0x04,
            AsyncEvent::TasksTerminated => 0x05,
            AsyncEvent::VendorSpecific => 0xFF,
            AsyncEvent::Reserved => 0x06,
        }
    }
}
