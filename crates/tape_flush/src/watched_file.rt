ghost use Rattle.std.specs.Prelude.{◌≡◌, ◌≤◌, ◌+◌, ◌↔◌, List, ℕ, length, is_ok, IsTrue, OnOk, OnErr, IfErr};
ghost use Rattle.tape_flush.specs.Stores.{Truncate, Append, Sync, Note, contents_of, Truncates, Replaces};
ghost use Rattle.tape_flush.specs.Careful.{after, GoesOn, IsInOrder};
ghost use Rattle.tape_flush.specs.Watched.{IsEmptyAt, Same, IsStopped, Adds, AddsInPart};
ghost use Rattle.tape_flush.specs.declared.known.FileTail.TheVariants.{Empty};

use crate::fault::FlushFault;
use crate::known::{FileTail, Known};
use crate::store::{ImageStore, StoreFault};
use std::marker::Model;

/// A file, with what is known of it.
#[derive(Drop)]
pub(crate) struct WatchedFile<S: ImageStore> {
    store: S,
    known: Known,
}

impl<S: ImageStore> Model for WatchedFile<S> {
    ghost use Rattle.tape_flush.specs.Watched.{WatchedValue};

    ghost Value = { WatchedValue S };

    ghost view = { λ watched. record { store = watched.store; known = watched.known } };
}

impl<S: ImageStore> WatchedFile<S> {
    pub(crate) fn new(store: S, known: Known) -> WatchedFile<S>
        ensures { result ≡ record { store = store; known = known } }
    {
        WatchedFile { store, known }
    }

    pub(crate) fn known(&self) -> Known
        ensures { result ≡ self.now.known }
    {
        self.known
    }

    pub(crate) fn store(&self) -> &S
        ensures { result.now ≡ self.now.store }
    {
        &self.store
    }

    /// Notes on the disk how much of the file is there.
    pub(crate) fn note(&mut self, size: u64) -> Result<(), StoreFault>
        ensures did { S.did self.old.store (Note size (is_ok result)) self.new.store }
        ensures known { self.new.known ≡ after self.old.known (Note size (is_ok result)) }
    {
        let noted = self.store.note(size);
        self.known = self.known.noted(size, noted.is_ok());
        noted
    }

    fn truncate(&mut self, size: u64) -> Result<(), StoreFault>
        ensures did { S.did self.old.store (Truncate size (is_ok result)) self.new.store }
        ensures known { self.new.known ≡ after self.old.known (Truncate size (is_ok result)) }
    {
        let cut = self.store.truncate(size);
        self.known = self.known.truncated(size, cut.is_ok());
        cut
    }

    /// Brings the file to the disk.
    pub(crate) fn sync(&mut self) -> Result<(), StoreFault>
        ensures did { S.did self.old.store (Sync (is_ok result)) self.new.store }
        ensures known { self.new.known ≡ after self.old.known (Sync (is_ok result)) }
    {
        let synced = self.store.sync();
        self.known = self.known.synced(synced.is_ok());
        synced
    }

    /// Adds bytes at the end. A file of 2^64 bytes or more is refused, and nothing changes.
    pub(crate) fn append(&mut self, bytes: &[u8]) -> Result<(), FlushFault>
        requires { self.old.known.tail ≡ Empty }
        ensures goes { GoesOn S.did self.old.store self.old.known self.new.store self.new.known }
        ensures ok { OnOk result (IsEmptyAt (self.old.known.sound + length bytes.now) self.new.known) }
        ensures added { OnOk result (Adds self.old.known.sound bytes.now (contents_of (S.file self.old.store)) (contents_of (S.file self.new.store))) }
        ensures same { OnErr result (self.new.known.sound ≡ self.old.known.sound) }
        ensures part { OnErr result (AddsInPart bytes.now (contents_of (S.file self.old.store)) (contents_of (S.file self.new.store))) }
    {
        let offset = self.known.sound;
        let count = bytes.len() as u64;
        if u64::MAX - offset < count {
            return Err(FlushFault::PastLastOffset);
        }
        match self.store.append(offset, bytes) {
            Ok(()) => {
                self.known = self.known.grown(count);
                Ok(())
            }
            Err(fault) => {
                self.known = self.known.not_grown();
                Err(FlushFault::Store(fault))
            }
        }
    }

    /// Has the record say no more than so many bytes, before the file is cut back to them.
    fn note_less(&mut self, size: u64) -> Result<(), StoreFault>
        requires { IsInOrder self.old.known }
        ensures goes { GoesOn S.did self.old.store self.old.known self.new.store self.new.known }
        ensures ok { OnOk result (self.new.known.most ≤ size) }
        ensures known { (self.new.known.sound ≡ self.old.known.sound) × (self.new.known.synced ≡ self.old.known.synced) }
        ensures contents { Same (contents_of (S.file self.old.store)) (contents_of (S.file self.new.store)) }
    {
        if self.known.most <= size {
            return Ok(());
        }
        self.note(size)
    }

    /// Whether it may be written on, after so many bytes.
    pub(crate) fn ends_at(&self, size: u64) -> bool
        ensures { IsTrue result ↔ IsEmptyAt size self.now.known }
    {
        matches!(self.known.tail, FileTail::Empty) && self.known.sound == size
    }

    /// Cuts the file back to so many bytes, in such a way that nothing of what was cut off can come back: before, its record says no more
    /// than these, and then the cut is brought to the disk.
    pub(crate) fn cut_back(&mut self, size: u64) -> Result<(), FlushFault>
        requires order { IsInOrder self.old.known }
        requires sound { size ≤ self.old.known.sound }
        ensures goes { GoesOn S.did self.old.store self.old.known self.new.store self.new.known }
        ensures ok { OnOk result (IsEmptyAt size self.new.known) }
        ensures cut { OnOk result (Truncates size (contents_of (S.file self.old.store)) (contents_of (S.file self.new.store))) }
        ensures err { (piece : List ℕ) → IfErr result (IsStopped size piece self.old.known (S.file self.old.store) self.new.known (S.file self.new.store)) }
    {
        if let Err(fault) = self.note_less(size) {
            return Err(FlushFault::Store(fault));
        }
        if let Err(fault) = self.truncate(size) {
            return Err(FlushFault::Store(fault));
        }
        match self.sync() {
            Ok(()) => Ok(()),
            Err(fault) => Err(FlushFault::Unsynced(fault)),
        }
    }
}
