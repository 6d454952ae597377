use live_sessions::SessionCounts;
use mio::Waker;
use std::alloc::{AllocError, Global};
use std::sync::atomic::{AtomicBool, AtomicU32, Ordering};
use std::sync::{Arc, Mutex, Wait};

/// What is known of the session that a worker serves, for its reader, its writer, and the threads that keep tapes.
///
/// No held reply stays asleep, by the order in which both sides go. A session notes that it holds a reply, then asks how its ticket
/// ended, then waits. A keeper notes how a ticket ended, then looks whether a session holds something, then wakes it. So either the session
/// learns that as it asks, or the keeper sees that it holds; and a wake that comes before the wait ends that wait.
#[derive(Drop)]
pub(crate) struct SessionFlags {
    is_in: AtomicBool,
    is_kept: AtomicBool,
    /// Whether the session holds replies, as its own thread says: from the first that it holds until a look by which it holds none.
    is_holding: AtomicBool,
    /// Whether the session has held a reply since it looked around the last time.
    is_new: AtomicBool,
    /// How many records the session has left at units that were full, but for those whose replies were sent.
    unpaced: AtomicU32,
    /// What it counts, which its status is told by.
    counts: Arc<SessionCounts, Global>,
    /// By which the thread of the session is woken while it waits for its host.
    waker: Mutex<Option<Waker>>,
}

impl SessionFlags {
    /// Those of a session that has just begun.
    pub fn new(alloc: Global) -> Result<SessionFlags, AllocError> {
        Ok(SessionFlags {
            is_in: AtomicBool::new(false),
            is_kept: AtomicBool::new(true),
            is_holding: AtomicBool::new(false),
            is_new: AtomicBool::new(false),
            unpaced: AtomicU32::new(0),
            counts: Arc::new(alloc, SessionCounts::new())?,
            waker: Mutex::new(None),
        })
    }

    /// Another session begins.
    pub fn begin(&self) {
        self.is_in.store(false, Ordering::SeqCst);
        self.is_kept.store(true, Ordering::SeqCst);
        self.is_holding.store(false, Ordering::SeqCst);
        self.is_new.store(false, Ordering::SeqCst);
        self.unpaced.store(0, Ordering::SeqCst);
    }

    /// What the session counts.
    pub fn counts(&self) -> &SessionCounts {
        &self.counts
    }

    /// The same, shared with the thread that reports it.
    pub fn shared_counts(&self) -> Result<Arc<SessionCounts, Global>, AllocError> {
        Arc::try_clone(&self.counts)
    }

    /// The session has ended: it holds nothing any more, and no thread wakes it.
    pub fn end<R: Wait>(&self, rt: &R) {
        self.is_holding.store(false, Ordering::SeqCst);
        *self.waker.lock(rt) = None;
    }

    /// Whether the session's host is logged in.
    pub fn is_in(&self) -> bool {
        self.is_in.load(Ordering::SeqCst)
    }

    /// The session's host has logged in.
    pub fn come_in(&self) {
        self.is_in.store(true, Ordering::SeqCst);
    }

    /// Whether all that the session's replies say to be kept is.
    pub fn is_kept(&self) -> bool {
        self.is_kept.load(Ordering::SeqCst)
    }

    /// Something isn't kept that a reply would say to be: from now on none is sent.
    pub fn lose(&self) {
        self.is_kept.store(false, Ordering::SeqCst);
    }

    /// Whether the session holds replies.
    pub fn holds(&self) -> bool {
        self.is_holding.load(Ordering::SeqCst)
    }

    /// The session holds a reply more.
    pub fn hold(&self) {
        self.is_holding.store(true, Ordering::SeqCst);
        self.is_new.store(true, Ordering::SeqCst);
    }

    /// The session has looked around, and holds some replies or none.
    pub fn note_holding(&self, is_holding: bool) {
        self.is_holding.store(is_holding, Ordering::SeqCst);
    }

    /// Whether the session has held a reply since this was asked the last time.
    pub fn take_new(&self) -> bool {
        self.is_new.swap(false, Ordering::SeqCst)
    }

    /// The session has left a record at a unit that is full.
    pub fn note_unpaced(&self) {
        self.unpaced.fetch_add(1, Ordering::SeqCst);
    }

    /// A reply is sent that has waited for such a record. The session's own thread alone counts.
    pub fn note_paced(&self) {
        let count = self.unpaced();
        self.unpaced
            .store(count.saturating_sub(1), Ordering::SeqCst);
    }

    /// It counts anew.
    pub fn forget_unpaced(&self) {
        self.unpaced.store(0, Ordering::SeqCst);
    }

    /// How many such records it has left whose replies weren't sent.
    pub fn unpaced(&self) -> u32 {
        self.unpaced.load(Ordering::SeqCst)
    }

    /// By which the session is woken from now on.
    pub fn wake_by<R: Wait>(&self, rt: &R, waker: Waker) {
        *self.waker.lock(rt) = Some(waker);
    }

    /// Wakes the session, where it holds replies and can be woken.
    pub fn wake<R: Wait>(&self, rt: &R) {
        if !self.holds() {
            return;
        }
        if let Some(waker) = &*self.waker.lock(rt) {
            // Where the system refuses that, the session looks around by itself before long.
            let _ = waker.wake();
        }
    }
}
