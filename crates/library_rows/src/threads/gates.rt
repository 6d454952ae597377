//! A gate that holds logical unit 1 until a command elsewhere was answered.

use lun_router::Gate;
use scsi_nexus::Nexus;
use std::sync::atomic::{AtomicBool, AtomicU64, Ordering};
use std::thread;
use std::time::{Clock, Duration};

/// How often the gate looks, a millisecond apart.
const TURNS: u32 = 10_000;

/// What the gate and the threads tell each other.
#[derive(Drop)]
pub(super) struct Flags {
    /// How many commands have come to the gate of logical unit 1.
    pub(super) entered: AtomicU64,
    /// Whether a command elsewhere was answered.
    pub(super) answered: AtomicBool,
    /// Whether the gate stopped waiting for it.
    pub(super) ran_out: AtomicBool,
}

impl Flags {
    pub(super) fn new() -> Flags {
        Flags {
            entered: AtomicU64::new(0),
            answered: AtomicBool::new(false),
            ran_out: AtomicBool::new(false),
        }
    }

    /// Waits for a command at the gate, as long as the gate waits.
    pub(super) fn wait_until_entered(&self, clock: &impl Clock) {
        for _turn in 0..TURNS {
            if self.entered.load(Ordering::SeqCst) > 0 {
                return;
            }
            thread::sleep(clock, Duration::from_millis(1));
        }
    }
}

/// The gate of the tests.
#[derive(Drop)]
pub(super) struct TestGate<'a> {
    pub(super) clock: &'a HostRuntime,
    pub(super) flags: &'a Flags,
    /// Whether it holds logical unit 1.
    pub(super) holds: bool,
}

impl Gate for TestGate<'_> {
    fn inside(&self, lun: u8, _nexus: Nexus) {
        if lun != 1 || !self.holds {
            return;
        }
        self.flags.entered.fetch_add(1, Ordering::SeqCst);
        for _turn in 0..TURNS {
            if self.flags.answered.load(Ordering::SeqCst) {
                return;
            }
            thread::sleep(self.clock, Duration::from_millis(1));
        }
        self.flags.ran_out.store(true, Ordering::SeqCst);
    }
}
