//! The tapes of a library, kept while it is served.

ghost use Rattle.std.specs.Prelude.{◌≡◌, ◌+◌, IfOk, vec_len};

use crate::session_flags::SessionFlags;
use crate::teller::Teller;
use std::alloc::{AllocError, Global};
use std::io::Write;
use std::sync::Wait;
use std::thread::{self, Threads};
use std::time::Clock;
use tape_keeper::{KeepEvent, KeepListener, KeepPlace, TapeKeeper};

/// Reports how keeping tapes goes as a server reports what happens, and wakes the sessions that hold replies.
#[derive(Drop)]
pub struct KeepTeller<'a, R: Wait, E: Write> {
    pub(crate) rt: &'a R,
    pub(crate) teller: &'a Teller<E>,
    /// The flags of the sessions that may hold replies.
    pub(crate) sessions: &'a [SessionFlags],
}

impl<'a, R: Wait, E: Write> KeepTeller<'a, R, E> {
    /// One that has no session to wake.
    pub fn new(rt: &'a R, teller: &'a Teller<E>) -> KeepTeller<'a, R, E> {
        KeepTeller {
            rt,
            teller,
            sessions: &[],
        }
    }
}

impl<'a, R: Wait, E: Write> KeepListener for KeepTeller<'a, R, E> {
    fn tell(&self, event: &KeepEvent) {
        self.teller.tell_keeping(self.rt, event);
    }

    fn settled(&self) {
        for session in self.sessions {
            session.wake(self.rt);
        }
    }
}

/// Where a keeper works in a library with so many drives.
pub(crate) fn places_of(alloc: Global, drives: u8) -> Result<Vec<KeepPlace>, AllocError>
    ensures { IfOk result (λ places. vec_len places ≡ drives + 2) }
{
    let mut places = Vec::new(alloc);
    places.push(KeepPlace::Changer)?;
    places.push(KeepPlace::Upkeep)?;
    'drives: for place in 0..drives {
        places.push(KeepPlace::Drive(place + 1))?;
    }
    Ok(places)
}

/// Has a thread work at each place, until the library ends.
pub(crate) fn work_at_all<K: TapeKeeper + Sync, R: Clock + Threads + Wait + Sync, E: Write + Send>(
    alloc: Global,
    keeper: &K,
    listener: &KeepTeller<'_, R, E>,
    places: &mut [KeepPlace],
) {
    let rt = listener.rt;
    let count = places.len();
    thread::for_each_mut(
        rt,
        places,
        count.max(1),
        &|_place: usize, place: &mut KeepPlace| keeper.work(rt, alloc, listener, *place),
    );
}
