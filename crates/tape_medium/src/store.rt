//! The logical objects of a tape, over the bytes of their blocks and the place of each object in them.

ghost use Rattle.std.specs.Prelude.{◌≡◌, ◌<◌, ◌≤◌, ◌+◌, ◌*◌, ◌/◌, ◌%◌, ◌++◌, ◌∷◌, [], ◌^◌, length, take, OnOk, OnErr, Some, slice_get, slice_index_or};
ghost use Rattle.tape_medium.specs.Object.{Block, Mark};
ghost use Rattle.tape_medium.specs.Tape.{bytes_in, blocks, marks, is_mark};
ghost use Rattle.tape_medium.specs.Lent.{lent_object};

use crate::index::{
    Place, end_before, home_before, put_block_places, put_mark_places, put_place, reserve_places,
};
use crate::memory::{MemoryLease, MemoryLimit};
use crate::object::TapeObject;
use crate::pieces::Pieces;
use std::alloc::{AllocError, Global};
use std::marker::Model;

/// The objects. Contracts see the list of them.
#[derive(Drop)]
pub(crate) struct Store {
    pieces: Pieces,
    places: Vec<Place>,
    /// The memory of the places.
    lease: MemoryLease,
    memory: MemoryLimit,
}

impl Model for Store {
    ghost use Rattle.std.specs.Prelude.{List};
    ghost use Rattle.tape_medium.specs.Object.{Object};
    ghost use Rattle.tape_medium.specs.Pieces.{contents};
    ghost use Rattle.tape_medium.specs.Store.{objects_in, ends_of, IsKept, AreHoused};

    ghost Value = { List Object };

    ghost view = { λ a. objects_in (contents a.pieces) 0 (ends_of a.places.items) };

    ghost invariant = { λ a. IsKept (contents a.pieces) (ends_of a.places.items) × AreHoused a.pieces 0 0 a.places.items };
}

impl Store {
    pub(crate) fn new(alloc: Global, memory: MemoryLimit) -> Store
        ensures { result ≡ [] }
    {
        Store {
            pieces: Pieces::new(alloc),
            places: Vec::new(alloc),
            lease: MemoryLease::none(),
            memory,
        }
    }

    pub(crate) fn len(&self) -> usize
        ensures { result ≡ length self.now }
    {
        self.places.len()
    }

    /// How many bytes the first `count` objects take.
    pub(crate) fn bytes_before(&self, count: usize) -> usize
        requires { count ≤ length self.now }
        ensures { result ≡ bytes_in (take count self.now) }
    {
        end_before(&self.places, count)
    }

    pub(crate) fn object(&self, at: usize) -> TapeObject<'_>
        requires { at < length self.now }
        ensures { slice_get self.now at ≡ Some (lent_object result) }
    {
        let start = end_before(&self.places, at);
        let place = self.places[at];
        if place.end == start {
            return TapeObject::Mark;
        }
        TapeObject::Block(self.pieces.part(place.home, start, place.end))
    }

    pub(crate) fn is_mark(&self, at: usize) -> bool
        requires { at < length self.now }
        ensures { result ≡ is_mark (slice_index_or self.now at Mark) }
    {
        let start = end_before(&self.places, at);
        self.places[at].end == start
    }

    /// Drops what lies behind the first `at` objects, and gives back its memory.
    pub(crate) fn truncate(&mut self, at: usize)
        requires { at ≤ length self.old }
        ensures { self.new ≡ take at self.old }
    {
        let home = home_before(&self.places, at);
        self.places.truncate(at);
        self.pieces.release(home);
    }

    /// Puts a block behind the first `at` objects, in place of what lay there, on a tape for `capacity` bytes.
    pub(crate) fn put_block(
        &mut self,
        at: usize,
        block: &[u8],
        capacity: usize,
    ) -> Result<(), AllocError>
        requires within { at ≤ length self.old }
        requires some { 0 < length block.now }
        requires fits { bytes_in (take at self.old) + length block.now < 2 ^ 64 }
        requires few { at + 1 < 2 ^ 64 }
        ensures ok { OnOk result (self.new ≡ take at self.old ++ Block block.now ∷ []) }
        ensures err { OnErr result (self.new ≡ self.old) }
    {
        let start = self.bytes_before(at);
        let home = home_before(&self.places, at);
        reserve_places(&mut self.places, &self.memory, &mut self.lease, at + 1)?;
        let home = self.pieces.put(home, start, block, capacity, &self.memory)?;
        let end = start + block.len();
        put_place(&mut self.places, at, Place { end, home });
        Ok(())
    }

    /// Puts `count` filemarks behind the first `at` objects, in place of what lay there.
    pub(crate) fn put_marks(&mut self, at: usize, count: usize) -> Result<(), AllocError>
        requires within { at ≤ length self.old }
        requires few { at + count < 2 ^ 64 }
        ensures ok { OnOk result (self.new ≡ take at self.old ++ marks count) }
        ensures err { OnErr result (self.new ≡ self.old) }
    {
        let end = self.bytes_before(at);
        let home = home_before(&self.places, at);
        reserve_places(&mut self.places, &self.memory, &mut self.lease, at + count)?;
        put_mark_places(&mut self.places, at, Place { end, home }, count);
        Ok(())
    }

    /// Puts blocks of `size` bytes behind the first `at` objects, in place of what lay there, on a tape for `capacity` bytes.
    pub(crate) fn put_blocks(
        &mut self,
        at: usize,
        bytes: &[u8],
        size: usize,
        capacity: usize,
    ) -> Result<(), AllocError>
        requires within { at ≤ length self.old }
        requires some { 0 < size }
        requires whole { length bytes.now % size ≡ 0 }
        requires fits { bytes_in (take at self.old) + length bytes.now < 2 ^ 64 }
        requires few { at + length bytes.now / size < 2 ^ 64 }
        ensures ok { OnOk result (self.new ≡ take at self.old ++ blocks size (length bytes.now / size) bytes.now) }
        ensures err { OnErr result (self.new ≡ self.old) }
    {
        let count = bytes.len() / size;
        let start = self.bytes_before(at);
        let home = home_before(&self.places, at);
        reserve_places(&mut self.places, &self.memory, &mut self.lease, at + count)?;
        let home = self.pieces.put(home, start, bytes, capacity, &self.memory)?;
        put_block_places(&mut self.places, at, start, size, count, home);
        Ok(())
    }
}
