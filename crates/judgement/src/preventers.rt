use arrayvec::ArrayVec;
use scsi_nexus::Nexus;
use std::marker::Model;
use unit_attention::SLOTS;

/// How many nexuses may prevent removal at once: as many as have slots (profile).
pub(crate) const PREVENTERS: usize = SLOTS;

/// The nexuses that prevent the removal of media, in the order in which they began to (SPC-4,
/// "PREVENT ALLOW MEDIUM REMOVAL command"). It takes no memory. A nexus that prevents removal has a slot and is here once, so there is
/// always room.
#[derive(Drop)]
pub(crate) struct Preventers {
    nexuses: ArrayVec<Nexus, PREVENTERS>,
}

impl Model for Preventers {
    ghost use Rattle.std.specs.Prelude.{List};
    ghost use Rattle.scsi_nexus.specs.declared.nexus.Nexus.{Nexus};

    ghost Value = { List Nexus };

    ghost view = { λ p. p.nexuses.items };
}

impl Preventers {
    ghost use Rattle.std.specs.Prelude.{◌≡◌, ◌<◌, [], ◌∷◌, ◌++◌, not, nat_lt, ◌||◌, ◌==◌, true, length, filter, if◌then◌else◌};
    ghost use Rattle.scsi_nexus.specs.Order.{same_nexus};
    ghost use Rattle.pr_core.specs.Targets.{is_among};

    pub(crate) fn new() -> Preventers
        ensures { result ≡ [] }
    {
        Preventers {
            nexuses: ArrayVec::new(),
        }
    }

    fn has(&self, nexus: Nexus) -> bool
        ensures { result ≡ is_among nexus self.now }
    {
        self.nexuses.as_slice().iter().any(|other| nexus == *other)
    }

    /// Whether nobody prevents removal.
    pub(crate) fn is_empty(&self) -> bool
        ensures { result ≡ (length self.now == 0) }
    {
        self.nexuses.is_empty()
    }

    /// A nexus prevents removal from now on.
    pub(crate) fn add(&mut self, nexus: Nexus)
        requires { (is_among nexus self.old || nat_lt (length self.old) PREVENTERS) ≡ true }
        ensures { self.new ≡ (if is_among nexus self.old then self.old else self.old ++ nexus ∷ []) }
    {
        if !self.has(nexus) {
            self.nexuses.push(nexus);
        }
    }

    /// A nexus prevents removal no more.
    pub(crate) fn remove(&mut self, nexus: Nexus)
        ensures { self.new ≡ filter (λ p. not (same_nexus p nexus)) self.old }
    {
        self.nexuses.retain(|preventer| *preventer != nexus);
    }

    /// None of these prevents removal any more.
    pub(crate) fn remove_all(&mut self, nexuses: &[Nexus])
        ensures { self.new ≡ filter (λ p. not (is_among p nexuses.now)) self.old }
    {
        self.nexuses
            .retain(|preventer| !contains(nexuses, *preventer));
    }

    /// An equal list.
    pub(crate) fn copy(&self) -> Preventers
        ensures { result ≡ self.now }
    {
        let mut nexuses = ArrayVec::new();
        let copied = nexuses.try_extend_from_slice(self.nexuses.as_slice());
        // For the prover alone: a list of the same capacity has room for all.
        prove!(copied.is_ok());
        Preventers { nexuses }
    }
}

ghost use Rattle.std.specs.Prelude.{◌≡◌};
ghost use Rattle.pr_core.specs.Targets.{is_among};

fn contains(nexuses: &[Nexus], nexus: Nexus) -> bool
    ensures { result ≡ is_among nexus nexuses.now }
{
    nexuses.iter().any(|other| nexus == *other)
}
