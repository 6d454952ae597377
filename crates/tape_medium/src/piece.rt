ghost use Rattle.std.specs.Prelude.{◌≡◌, ◌+◌, ◌-◌, ◌≤◌, [], length, slice_range, IfOk, IsTrue};
ghost use Rattle.tape_medium.specs.Pieces.{behind};

use crate::index::{part, put_bytes};
use crate::memory::{MemoryLease, MemoryLimit};
use std::alloc::{AllocError, Global};
use std::marker::Model;

/// How many bytes a piece takes, 8 MiB, but on a tape for fewer, or where one write has more.
const PIECE: usize = 8_388_608;

/// A piece of memory, which isn't moved.
#[derive(Drop)]
pub(crate) struct Piece {
    /// How many bytes lie in the pieces before it.
    before: usize,
    bytes: Vec<u8>,
    /// How many bytes it takes.
    room: usize,
    _lease: MemoryLease,
}

impl Model for Piece {
    ghost use Rattle.std.specs.Prelude.{◌≤◌, vec_capacity};
    ghost use Rattle.tape_medium.specs.Pieces.{PieceView};

    ghost Value = { PieceView };

    ghost view = { λ p. record { before = p.before; bytes = p.bytes.items; room = p.room } };

    ghost invariant = { λ p. p.room ≤ vec_capacity p.bytes };
}

impl Piece {
    /// An empty piece for `least` bytes and more, behind so many bytes, on a tape for `capacity` bytes.
    pub(crate) fn new(
        alloc: Global,
        memory: &MemoryLimit,
        before: usize,
        least: usize,
        capacity: usize,
    ) -> Result<Piece, AllocError>
        ensures before { IfOk result (λ piece. piece.before ≡ before) }
        ensures bytes { IfOk result (λ piece. piece.bytes ≡ []) }
        ensures room { IfOk result (λ piece. least ≤ piece.room) }
    {
        let room = PIECE.min(capacity).max(least);
        let lease = memory.lease(room)?;
        let bytes = Vec::with_capacity(alloc, room)?;
        Ok(Piece {
            before,
            bytes,
            room,
            _lease: lease,
        })
    }

    /// Whether it has room for `count` bytes behind its first ones, up to `end`.
    pub(crate) fn has_room(&self, end: usize, count: usize) -> bool
        ensures { IsTrue result → end - self.now.before + count ≤ self.now.room }
    {
        let from = end.saturating_sub(self.before);
        from <= self.room && count <= self.room - from
    }

    /// The bytes from `start` to `end`, as places of the tape.
    pub(crate) fn part(&self, start: usize, end: usize) -> &[u8]
        requires low { self.now.before ≤ start }
        requires order { start ≤ end }
        requires high { end ≤ self.now.before + length self.now.bytes }
        ensures { result.now ≡ slice_range self.now.bytes (start - self.now.before) (end - self.now.before) }
    {
        part(&self.bytes, start - self.before, end - self.before)
    }

    /// Puts bytes behind its first ones, up to `end`, in place of what lay there, within the room.
    pub(crate) fn put(&mut self, end: usize, more: &[u8])
        requires room { end - self.old.before + length more.now ≤ self.old.room }
        ensures { self.new ≡ behind self.old end more.now }
    {
        put_bytes(&mut self.bytes, end.saturating_sub(self.before), more);
    }

    /// Cuts off what lies behind its first bytes, up to `end`.
    pub(crate) fn cut(&mut self, end: usize)
        ensures { self.new ≡ behind self.old end [] }
    {
        self.bytes.truncate(end.saturating_sub(self.before));
    }

    /// Begins anew, behind so many bytes.
    pub(crate) fn begin(&mut self, before: usize)
        ensures { self.new ≡ record { before = before; bytes = []; room = self.old.room } }
    {
        self.before = before;
        self.bytes.clear();
    }
}
