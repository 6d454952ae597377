use scsi_nexus::Nexus;
use std::sync::atomic::{AtomicBool, AtomicU16, AtomicU64, Ordering};

/// Of whom a session is, how many commands came in it, and how many bytes each way. Its own thread notes that, and the thread that reports
/// it looks, without a lock: so what it sees may be of different moments.
#[derive(Drop)]
pub struct SessionCounts {
    /// Set once the nexus is there.
    is_in: AtomicBool,
    sas: AtomicU64,
    port: AtomicU16,
    commands: AtomicU64,
    received: AtomicU64,
    sent: AtomicU64,
}

impl SessionCounts {
    /// Those of a session that hasn't begun.
    pub fn new() -> SessionCounts {
        SessionCounts {
            is_in: AtomicBool::new(false),
            sas: AtomicU64::new(0),
            port: AtomicU16::new(0),
            commands: AtomicU64::new(0),
            received: AtomicU64::new(0),
            sent: AtomicU64::new(0),
        }
    }

    /// Another session begins.
    pub fn begin(&self) {
        self.is_in.store(false, Ordering::SeqCst);
        self.commands.store(0, Ordering::SeqCst);
        self.received.store(0, Ordering::SeqCst);
        self.sent.store(0, Ordering::SeqCst);
    }

    /// Its host is let in as a nexus.
    pub fn note_nexus(&self, nexus: Nexus) {
        self.sas.store(nexus.sas, Ordering::SeqCst);
        self.port.store(nexus.port, Ordering::SeqCst);
        self.is_in.store(true, Ordering::SeqCst);
    }

    /// A command came.
    pub fn note_command(&self) {
        self.commands.fetch_add(1, Ordering::SeqCst);
    }

    /// So many bytes came.
    pub fn note_received(&self, bytes: usize) {
        self.received.fetch_add(bytes as u64, Ordering::SeqCst);
    }

    /// So many bytes were sent.
    pub fn note_sent(&self, bytes: usize) {
        self.sent.fetch_add(bytes as u64, Ordering::SeqCst);
    }

    /// Of whom it is, once its host is let in.
    pub fn nexus(&self) -> Option<Nexus> {
        if !self.is_in.load(Ordering::SeqCst) {
            return None;
        }
        Some(Nexus {
            sas: self.sas.load(Ordering::SeqCst),
            port: self.port.load(Ordering::SeqCst),
        })
    }

    pub fn commands(&self) -> u64 {
        self.commands.load(Ordering::SeqCst)
    }

    pub fn received(&self) -> u64 {
        self.received.load(Ordering::SeqCst)
    }

    pub fn sent(&self) -> u64 {
        self.sent.load(Ordering::SeqCst)
    }
}
