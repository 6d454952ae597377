//! The tapes of a library that is served, kept by its keeper.

use crate::keeper::MediaKeeper;
use crate::store::InventoryStore;
use library_start::Device;
use std::alloc::Global;
use std::sync::Wait;
use std::time::Clock;
use tape_flush::ImageStore;
use tape_keeper::{CarriedOutCommand, KeepListener, KeepPlace, TapeKeeper, TapeSource};
use tickets::{Outcome, Ticket};

/// The tapes of a library, and the keeper that keeps them.
#[derive(Drop)]
pub struct SavedTapes<'a, S: ImageStore + Drop, N: InventoryStore + Drop, T: TapeSource<Device>> {
    pub keeper: &'a MediaKeeper<S, N>,
    pub tapes: &'a T,
}

impl<'a, S: ImageStore + Drop, N: InventoryStore + Drop, T: TapeSource<Device>> TapeKeeper
    for SavedTapes<'a, S, N, T> {
    ghost use Rattle.std.specs.Prelude.{false};
    ghost use Rattle.saved_media.specs.Wishes.{is_waited_for, wish_of};

    ghost says_kept = { λ class. is_waited_for (wish_of class false) };

    fn begin<R: Wait, H: KeepListener>(
        &self,
        rt: &R,
        listener: &H,
        command: CarriedOutCommand,
    ) -> Option<Ticket> {
        self.keeper.begin(rt, listener, command)
    }

    fn outcome_of<R: Wait>(&self, rt: &R, ticket: Ticket) -> Option<Outcome> {
        self.keeper.outcome_of(rt, ticket)
    }

    fn await_outcome<R: Wait>(&self, rt: &R, ticket: Ticket) -> Outcome {
        self.keeper.await_outcome(rt, ticket)
    }

    // LUN 0 is the changer's.
    fn drives(&self) -> u8 {
        self.tapes.units().saturating_sub(1)
    }

    fn work<R: Clock + Wait, H: KeepListener>(
        &self,
        rt: &R,
        alloc: Global,
        listener: &H,
        place: KeepPlace,
    ) {
        for _turn in rt.forever() {
            if !self.keeper.await_turn(rt, place) {
                return;
            }
            self.keeper
                .take_turn(rt, alloc, self.tapes, listener, place);
        }
    }

    fn end<R: Wait>(&self, rt: &R) {
        self.keeper.end(rt);
    }

    fn keep_all<R: Wait, H: KeepListener>(&self, rt: &R, alloc: Global, listener: &H) -> bool {
        self.keeper.keep_all(rt, alloc, self.tapes, listener)
    }
}
