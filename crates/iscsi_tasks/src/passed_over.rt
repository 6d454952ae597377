use arrayvec::ArrayVec;
use std::marker::Model;

/// How many tags are known.
const TAGS: usize = 64;

/// Initiator task tags of commands that were passed over or aborted, the last of them. It takes no memory.
#[derive(Drop)]
pub(crate) struct PassedOver {
    tags: ArrayVec<u32, TAGS>,
}

impl Model for PassedOver {
    ghost use Rattle.std.specs.Prelude.{ℕ, List};

    ghost Value = { List ℕ };

    ghost view = { λ p. p.tags.items };
}

impl PassedOver {
    ghost use Rattle.std.specs.Prelude.{◌≡◌, ◌==◌, []};
    ghost use Rattle.std.specs.List.{list_any};
    ghost use Rattle.iscsi_tasks.specs.Commands.{remembered};

    pub(crate) fn new() -> PassedOver
        ensures { result ≡ [] }
    {
        PassedOver {
            tags: ArrayVec::new(),
        }
    }

    /// Notes a tag; of so many the first is forgotten.
    pub(crate) fn remember(&mut self, tag: u32)
        ensures { self.new ≡ remembered self.old tag }
    {
        if self.tags.is_full() {
            self.tags.remove(0);
        }
        self.tags.push(tag);
    }

    pub(crate) fn has(&self, tag: u32) -> bool
        ensures { result ≡ list_any (λ x. x == tag) self.now }
    {
        self.tags.as_slice().iter().any(|other| *other == tag)
    }
}
