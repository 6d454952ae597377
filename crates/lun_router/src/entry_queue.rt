use logical_unit::Entry;
use std::alloc::Global;
use std::marker::Model;

/// Entries in order, of which the oldest are taken off. Contracts see them, and for how many more there is room.
#[derive(Drop)]
pub(crate) struct EntryQueue {
    items: Vec<Entry>,
    /// How many of the items, the oldest, were taken off: never more than are left, once some were.
    gone: usize,
}

impl Model for EntryQueue {
    ghost use Rattle.std.specs.Prelude.{◌≤◌, ◌-◌, drop};
    ghost use Rattle.std.specs.Vec.{vec_len, vec_capacity};
    ghost use Rattle.lun_router.specs.Queue.{QueueValue};

    ghost Value = { QueueValue };

    ghost view = { λ q. record { entries = drop q.gone q.items.items; room = vec_capacity q.items - vec_len q.items } };

    ghost invariant = { λ q. q.gone ≤ vec_len q.items };
}

impl EntryQueue {
    ghost use Rattle.std.specs.Prelude.{◌≡◌, ◌<◌, ◌≤◌, ◌++◌, ◌∷◌, [], length, take, drop, IsTrue};

    pub(crate) fn new(alloc: Global) -> EntryQueue
        ensures { result.entries ≡ [] }
    {
        EntryQueue {
            items: Vec::new(alloc),
            gone: 0,
        }
    }

    pub(crate) fn allocator(&self) -> Global {
        *self.items.allocator()
    }

    pub(crate) fn as_slice(&self) -> &[Entry]
        ensures { result.now ≡ self.now.entries }
    {
        &self.items.as_slice()[self.gone..]
    }

    /// The oldest.
    pub(crate) fn oldest(&self, count: usize) -> &[Entry]
        requires { count ≤ length self.now.entries }
        ensures { result.now ≡ take count self.now.entries }
    {
        &self.as_slice()[..count]
    }

    /// Makes room for one more, if memory isn't refused. The entries stay as they are.
    pub(crate) fn make_room(&mut self) -> bool
        ensures same { self.new.entries ≡ self.old.entries }
        ensures room { IsTrue result → 0 < self.new.room }
    {
        self.items.reserve(1).is_ok()
    }

    pub(crate) fn push_reserved(&mut self, entry: Entry)
        requires { 0 < self.old.room }
        ensures { self.new.entries ≡ self.old.entries ++ entry ∷ [] }
    {
        self.items.push_reserved(entry);
    }

    /// Takes the oldest off. The others are moved only where there are no more of them than were taken off, so that moving
    /// them costs as much as taking those off.
    pub(crate) fn remove_oldest(&mut self, count: usize)
        requires { count ≤ length self.old.entries }
        ensures { self.new.entries ≡ drop count self.old.entries }
    {
        self.gone += count;
        let left = self.items.len() - self.gone;
        if left <= self.gone {
            self.items.rotate_left(self.gone);
            self.items.truncate(left);
            self.gone = 0;
        }
    }
}
