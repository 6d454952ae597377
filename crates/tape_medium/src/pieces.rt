//! The bytes of a tape's blocks. A tape grows piece by piece, and no piece is moved: what was written before stays where it lies. Pieces
//! behind the last byte are kept, for what will be written, until they are released.

ghost use Rattle.std.specs.Prelude.{◌≡◌, ◌+◌, ◌-◌, ◌<◌, ◌≤◌, ◌^◌, ◌++◌, ◌∷◌, [], suc, length, take, slice_range, slice_index_or, slice_set, vec_len, IfOk, OnOk, OnErr};
ghost use Rattle.tape_medium.specs.Pieces.{PieceView, contents, behind, IsHome, IsBegun, IsPut};

use crate::index::reserve_total;
use crate::memory::MemoryLimit;
use crate::piece::Piece;
use std::alloc::{AllocError, Global};
use std::marker::Model;

/// Contracts see the pieces that are in use.
#[derive(Drop)]
pub(crate) struct Pieces {
    pieces: Vec<Piece>,
    used: usize,
    alloc: Global,
}

impl Model for Pieces {
    ghost use Rattle.std.specs.Prelude.{◌≤◌, List, take, vec_len};
    ghost use Rattle.tape_medium.specs.Pieces.{PieceView, IsLaid};

    ghost Value = { List PieceView };

    ghost view = { λ a. take a.used a.pieces.items };

    ghost invariant = { λ a. (a.used ≤ vec_len a.pieces) × IsLaid 0 (take a.used a.pieces.items) };
}

/// Puts bytes into a piece, behind its first ones up to `end`, within its room.
fn put_into(pieces: &mut Vec<Piece>, at: usize, end: usize, more: &[u8])
    requires within { at < vec_len pieces.old }
    requires room { (d : PieceView) → end - (slice_index_or pieces.old.items at d).before + length more.now ≤ (slice_index_or pieces.old.items at d).room }
    ensures len { vec_len pieces.new ≡ vec_len pieces.old }
    ensures items { (d : PieceView) → pieces.new.items ≡ slice_set pieces.old.items at (behind (slice_index_or pieces.old.items at d) end more.now) }
{
    let piece = &mut pieces[at];
    piece.put(end, more);
}

/// Cuts a piece off behind its first bytes, up to `end`.
fn cut_at(pieces: &mut Vec<Piece>, at: usize, end: usize)
    requires { at < vec_len pieces.old }
    ensures len { vec_len pieces.new ≡ vec_len pieces.old }
    ensures items { (d : PieceView) → pieces.new.items ≡ slice_set pieces.old.items at (behind (slice_index_or pieces.old.items at d) end []) }
{
    let piece = &mut pieces[at];
    piece.cut(end);
}

/// Begins a piece behind the first `at`, at so many bytes, on a tape for `capacity` bytes: the one that lies there, if it has room, or a
/// new one.
fn begin_at(
    alloc: Global,
    memory: &MemoryLimit,
    pieces: &mut Vec<Piece>,
    at: usize,
    before: usize,
    more: &[u8],
    capacity: usize,
) -> Result<(), AllocError>
    requires { at ≤ vec_len pieces.old }
    ensures within { OnOk result (at < vec_len pieces.new) }
    ensures ok { OnOk result (IsBegun at before more.now pieces.old.items pieces.new.items) }
    ensures err { OnErr result (pieces.new.items ≡ pieces.old.items) }
    ensures stay { OnErr result (vec_len pieces.new ≡ vec_len pieces.old) }
{
    if at < pieces.len() && pieces[at].has_room(0, more.len()) {
        let piece = &mut pieces[at];
        piece.begin(before);
        piece.put(before, more);
        return Ok(());
    }
    let mut piece = Piece::new(alloc, memory, before, more.len(), capacity)?;
    piece.put(before, more);
    reserve_total(pieces, at + 1)?;
    pieces.truncate(at);
    let _ = pieces.push(piece);
    Ok(())
}

impl Pieces {
    pub(crate) fn new(alloc: Global) -> Pieces
        ensures { result ≡ [] }
    {
        Pieces {
            pieces: Vec::new(alloc),
            used: 0,
            alloc,
        }
    }

    /// The bytes from `start` to `end`, which lie in one piece.
    pub(crate) fn part(&self, home: usize, start: usize, end: usize) -> &[u8]
        requires some { start < end }
        requires home { IsHome self.now home start end }
        ensures { result.now ≡ slice_range (contents self.now) start end }
    {
        self.pieces[home].part(start, end)
    }

    /// Gives back the memory of all pieces behind one.
    pub(crate) fn release(&mut self, home: usize)
        ensures { self.new ≡ take (home + 1) self.old }
    {
        self.used = self.used.min(home.saturating_add(1));
        self.pieces.truncate(self.used);
    }

    /// Puts bytes behind the first `end`, which end in the piece `home`, in place of what lay there, and answers in which piece they lie:
    /// in that one if it has room for all of them, else in the next.
    pub(crate) fn put(
        &mut self,
        home: usize,
        end: usize,
        more: &[u8],
        capacity: usize,
        memory: &MemoryLimit,
    ) -> Result<usize, AllocError>
        requires home { IsHome self.old home end end }
        ensures ok { IfOk result (λ at. IsPut self.old self.new home end at more.now) }
        ensures err { OnErr result (self.new ≡ self.old) }
    {
        if home < self.used && self.pieces[home].has_room(end, more.len()) {
            put_into(&mut self.pieces, home, end, more);
            self.used = home + 1;
            return Ok(home);
        }
        if home >= self.used {
            begin_at(
                self.alloc,
                memory,
                &mut self.pieces,
                home,
                end,
                more,
                capacity,
            )?;
            self.used = home + 1;
            return Ok(home);
        }
        begin_at(
            self.alloc,
            memory,
            &mut self.pieces,
            home + 1,
            end,
            more,
            capacity,
        )?;
        cut_at(&mut self.pieces, home, end);
        self.used = home + 2;
        Ok(home + 1)
    }
}
