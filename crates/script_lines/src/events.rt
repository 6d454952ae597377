ghost use Rattle.std.specs.Prelude.{◌≡◌, List, [], ◌∷◌, ◌++◌, OnOk};
ghost use Rattle.target_core.specs.declared.event.Event.{Event};
ghost use Rattle.script_lines.specs.Events.{joined};

use std::alloc::{AllocError, Global};
use std::marker::Model;
use target_core::Event;

/// How many events the first piece has room for.
const FIRST_PIECE: usize = 16;

/// The most events of a piece, some 300 KB.
const PIECE: usize = 4_096;

/// The events of a script, in pieces, so that those that have run can be let go.
#[derive(Drop)]
pub struct Events {
    pieces: Vec<Vec<Event>>,
}

impl Model for Events {
    ghost Value = { List Event };

    ghost view = { λ e. joined e.pieces.items };
}

impl Events {
    /// No events.
    pub fn new(alloc: Global) -> Events
        ensures { result ≡ [] }
    {
        Events {
            pieces: Vec::new(alloc),
        }
    }

    /// Adds an event behind the others. Where there is room for it, nothing holds it in between.
    #[inline(always)]
    pub fn push(&mut self, alloc: Global, event: Event) -> Result<(), AllocError>
        ensures { OnOk result (self.new ≡ self.old ++ event ∷ []) }
    {
        if let Some(last) = self.pieces.last_mut()
            && last.len() < last.capacity()
        {
            last.push_reserved(event);
            return Ok(());
        }
        self.begin_piece(alloc, event)
    }

    /// Adds an event in a piece of its own.
    #[cold]
    #[inline(never)]
    fn begin_piece(&mut self, alloc: Global, event: Event) -> Result<(), AllocError>
        ensures { OnOk result (self.new ≡ self.old ++ event ∷ []) }
    {
        let mut piece = Vec::with_capacity(alloc, self.next_room())?;
        piece.push(event)?;
        self.pieces.push(piece)?;
        Ok(())
    }

    /// How many events the next piece has room for: twice as many as the last one holds.
    fn next_room(&self) -> usize {
        match self.pieces.last() {
            None => FIRST_PIECE,
            Some(last) => last.len().saturating_mul(2).min(PIECE),
        }
    }

    /// The pieces, in their order.
    pub fn into_pieces(self) -> Vec<Vec<Event>>
        ensures { joined result.items ≡ self }
    {
        let Events { pieces } = self;
        pieces
    }
}
