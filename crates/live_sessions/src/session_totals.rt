use crate::session_counts::SessionCounts;

/// What came and went in all sessions: in those that go on, and in those that have ended.
#[derive(Clone, Copy, Default)]
pub struct SessionTotals {
    /// How many go on.
    pub sessions: usize,
    /// How many commands came.
    pub commands: u64,
    /// How many bytes came, and were sent.
    pub received: u64,
    pub sent: u64,
}

impl SessionTotals {
    /// Adds what came and went in one.
    pub(crate) fn add(&mut self, counts: &SessionCounts) {
        self.commands = self.commands.saturating_add(counts.commands());
        self.received = self.received.saturating_add(counts.received());
        self.sent = self.sent.saturating_add(counts.sent());
    }
}
