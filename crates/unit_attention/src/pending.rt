use crate::kind::Kind;
use arrayvec::ArrayVec;
use std::marker::Model;

/// How many kinds there are.
const KINDS: usize = 9;

/// The kinds that wait for one nexus, oldest first, each once at most.
#[derive(Default, Drop)]
pub(crate) struct Pending {
    kinds: ArrayVec<Kind, KINDS>,
}

impl Model for Pending {
    ghost use Rattle.std.specs.Prelude.{List};
    ghost use Rattle.unit_attention.specs.declared.kind.Kind.{Kind};
    ghost use Rattle.unit_attention.specs.Pending.{IsOnce};

    ghost Value = { List Kind };

    ghost view = { λ p. p.kinds.items };

    ghost invariant = { λ p. IsOnce p.kinds.items };
}

impl Pending {
    ghost use Rattle.std.specs.Prelude.{◌≡◌, [], ◌∷◌};
    ghost use Rattle.unit_attention.specs.Pending.{is_pending, with_kind, without_kind, oldest_reset, oldest_other};

    /// What waits after a first contact.
    pub(crate) fn after_contact() -> Pending
        ensures { result ≡ Kind.PowerOn ∷ [] }
    {
        let mut kinds = ArrayVec::new();
        kinds.push(Kind::PowerOn);
        Pending { kinds }
    }

    fn has(&self, kind: Kind) -> bool
        ensures { result ≡ is_pending self.now kind }
    {
        self.kinds.as_slice().iter().any(|waiting| kind == *waiting)
    }

    /// Adds a kind at the end. 29h/00h empties the list first; a kind that waits stays in its place.
    pub(crate) fn raise(&mut self, kind: Kind)
        ensures { self.new ≡ with_kind self.old kind }
    {
        if kind == Kind::PowerOn {
            self.kinds.clear();
            self.kinds.push(kind);
        } else if !self.has(kind) {
            self.kinds.push(kind);
        }
    }

    /// Takes a kind away.
    pub(crate) fn clear(&mut self, kind: Kind)
        ensures { self.new ≡ without_kind self.old kind }
    {
        self.kinds.retain(|waiting| kind != *waiting);
    }

    /// The oldest kind of ASC 29h.
    pub(crate) fn first_reset(&self) -> Option<Kind>
        ensures { result ≡ oldest_reset self.now }
    {
        self.kinds
            .as_slice()
            .iter()
            .copied()
            .find(|kind| kind.is_reset())
    }

    /// The oldest kind of another ASC.
    pub(crate) fn first_other(&self) -> Option<Kind>
        ensures { result ≡ oldest_other self.now }
    {
        self.kinds
            .as_slice()
            .iter()
            .copied()
            .find(|kind| !kind.is_reset())
    }

    /// An equal list.
    pub(crate) fn copy(&self) -> Pending
        ensures { result ≡ self.now }
    {
        let mut kinds = ArrayVec::new();
        for kind in self.kinds.as_slice() {
            kinds.push(*kind);
        }
        Pending { kinds }
    }
}
