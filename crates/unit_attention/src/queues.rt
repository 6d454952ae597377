use crate::kind::Kind;
use crate::others::raise_in;
use crate::pending::Pending;
use arrayvec::ArrayVec;
use scsi_nexus::{Nexus, place_near, place_of};
use std::marker::Model;
use thiserror::Error;

/// How many nexuses a unit has slots for.
pub const SLOTS: usize = 128;

/// Every slot is used.
#[derive(Clone, Copy, Debug, Drop, Error)]
#[error("no slot is left for another nexus")]
pub struct NoSlot;

/// What waits for each nexus that had contact with a unit.
#[derive(Drop)]
pub struct Queues {
    slots: ArrayVec<(Nexus, Pending), SLOTS>,
    /// Where the slot that `find` found last stood. It is a guess: any number is right.
    recent: usize,
    /// Where the slot stands behind the one that a condition was raised at last: conditions are raised ascending by nexus. It is a guess too.
    next: usize,
}

impl Model for Queues {
    ghost use Rattle.std.specs.Prelude.{List, T};
    ghost use Rattle.std.specs.FinMap.{is_sorted};
    ghost use Rattle.scsi_nexus.specs.Order.{nexus_cmp};
    ghost use Rattle.unit_attention.specs.Queues.{Slots};

    ghost Value = { Slots };

    ghost view = { λ q. q.slots.items };

    ghost invariant = { λ q. T (is_sorted nexus_cmp q.slots.items) };
}

impl Queues {
    ghost use Rattle.std.specs.Prelude.{T, ◌≡◌, ◌≤◌, ◌==◌, ◌↔◌, false, [], map, length, OnOk, OnErr, IsErr, IfOk, None};
    ghost use Rattle.std.specs.Option.{option_copied};
    ghost use Rattle.std.specs.FinMap.{is_sorted};
    ghost use Rattle.scsi_nexus.specs.Order.{nexus_cmp};
    ghost use Rattle.scsi_nexus.specs.Place.{IsPlaceOf};
    ghost use Rattle.unit_attention.specs.Queues.{slot_limit, IsSlotAt, slot_of, has_slot, contacted, raised, for_others, all_raised, cleared, lost, was_reset, first_reset_of, first_other_of};

    /// No slot is used.
    pub fn new() -> Queues
        ensures { result ≡ [] }
    {
        Queues {
            slots: ArrayVec::new(),
            recent: 0,
            next: 0,
        }
    }

    fn place(&self, nexus: Nexus) -> Result<usize, usize>
        ensures place { IsPlaceOf nexus self.now result }
        ensures found { IfOk result (λ place. IsSlotAt self.now nexus place) }
        ensures absent { OnErr result (slot_of self.now nexus ≡ None) }
    {
        place_at(self.slots.as_slice(), self.recent, nexus)
    }

    /// The same, with the other guess.
    fn next_place(&self, nexus: Nexus) -> Result<usize, usize>
        ensures place { IsPlaceOf nexus self.now result }
        ensures found { IfOk result (λ place. IsSlotAt self.now nexus place) }
        ensures absent { OnErr result (slot_of self.now nexus ≡ None) }
    {
        place_near(self.slots.as_slice(), self.next, nexus)
    }

    fn pending(&self, nexus: Nexus) -> Option<&Pending>
        ensures { option_copied result ≡ slot_of self.now nexus }
    {
        let place = self.place(nexus).ok()?;
        Some(&self.slots.as_slice()[place].1)
    }

    /// Whether a nexus has a slot. Until another is looked for so, its slot is found at once.
    pub fn find(&mut self, nexus: Nexus) -> bool
        ensures found { result ≡ has_slot self.old nexus }
        ensures same { self.new ≡ self.old }
    {
        match self.place(nexus) {
            Ok(place) => {
                self.recent = place;
                true
            }
            Err(_) => false,
        }
    }

    /// Whether a nexus has a slot.
    pub fn has(&self, nexus: Nexus) -> bool
        ensures { result ≡ has_slot self.now nexus }
    {
        self.pending(nexus).is_some()
    }

    /// Whether all slots are used.
    pub fn is_full(&self) -> bool
        ensures { result ≡ (length self.now == slot_limit) }
    {
        self.slots.is_full()
    }

    /// How many nexuses have a slot.
    pub fn used(&self) -> usize
        ensures used { result ≡ length self.now }
        ensures bound { result ≤ slot_limit }
    {
        self.slots.len()
    }

    /// Gives a nexus without a slot one, where 29h/00h waits. Nothing changes where it has one, nor
    /// where all slots are used.
    pub fn contact(&mut self, nexus: Nexus) -> Result<(), NoSlot>
        ensures ok { OnOk result (self.new ≡ contacted self.old nexus) }
        ensures no_slot { IsErr result ↔ ((has_slot self.old nexus ≡ false) × (length self.old ≡ slot_limit)) }
        ensures err { OnErr result (self.new ≡ self.old) }
    {
        match self.place(nexus) {
            Ok(_) => Ok(()),
            Err(place) => {
                if self.slots.is_full() {
                    return Err(NoSlot);
                }
                self.slots.insert(place, (nexus, Pending::after_contact()));
                Ok(())
            }
        }
    }

    /// Raises a condition for a nexus: at the end of its list, unless it waits already; 29h/00h
    /// empties the list first. Nothing changes where the nexus has no slot.
    pub fn raise(&mut self, nexus: Nexus, kind: Kind)
        ensures { self.new ≡ raised self.old nexus kind }
    {
        match self.next_place(nexus) {
            Ok(place) => {
                self.slots.as_mut_slice()[place].1.raise(kind);
                self.next = place + 1;
            }
            Err(place) => self.next = place,
        }
    }

    /// Raises a condition for the nexuses of entries that ascend by nexus, all but a sender and some that are named.
    pub fn raise_others<V>(
        &mut self,
        entries: &[(Nexus, V)],
        sender: Nexus,
        named: &[Nexus],
        kind: Kind,
    )
        requires { T (is_sorted nexus_cmp entries.now) }
        ensures { self.new ≡ all_raised self.old (for_others sender named.now kind (map (λ e. e.0) entries.now)) }
    {
        raise_in(self.slots.as_mut_slice(), entries, sender, named, kind);
    }

    /// Takes a reported condition off a nexus's list.
    pub fn clear(&mut self, nexus: Nexus, kind: Kind)
        ensures { self.new ≡ cleared self.old nexus kind }
    {
        if let Ok(place) = self.place(nexus) {
            self.slots.as_mut_slice()[place].1.clear(kind);
        }
    }

    /// The oldest condition of ASC 29h that waits for a nexus.
    pub fn first_reset(&self, nexus: Nexus) -> Option<Kind>
        ensures { result ≡ first_reset_of self.now nexus }
    {
        self.pending(nexus)?.first_reset()
    }

    /// The oldest condition of ASC 29h that waits for a nexus once it makes contact.
    #[tactic(auto, using(crate::proofs::Contact::first_reset_known, crate::proofs::Contact::first_reset_new))]
    pub fn first_reset_on_contact(&self, nexus: Nexus) -> Option<Kind>
        ensures { result ≡ first_reset_of (contacted self.now nexus) nexus }
    {
        match self.pending(nexus) {
            Some(pending) => pending.first_reset(),
            None => Some(Kind::PowerOn),
        }
    }

    /// The oldest condition of another ASC that waits for a nexus.
    pub fn first_other(&self, nexus: Nexus) -> Option<Kind>
        ensures { result ≡ first_other_of self.now nexus }
    {
        self.pending(nexus)?.first_other()
    }

    /// An I_T nexus loss: 29h/07h for that nexus.
    pub fn lose(&mut self, nexus: Nexus)
        ensures { self.new ≡ lost self.old nexus }
    {
        self.raise(nexus, Kind::NexusLoss);
    }

    /// A reset of the unit: 29h/03h for every slot.
    pub fn reset(&mut self)
        ensures { self.new ≡ was_reset self.old }
    {
        for (_, pending) in self.slots.as_mut_slice() {
            pending.raise(Kind::BusDeviceReset);
        }
    }

    /// The nexuses with a slot, ascending.
    pub fn slots(&self) -> ArrayVec<Nexus, SLOTS>
        ensures { result.items ≡ map (λ e. e.0) self.now }
    {
        let mut nexuses = ArrayVec::new();
        for (nexus, _) in self.slots.as_slice() {
            nexuses.push(*nexus);
        }
        nexuses
    }

    /// Equal lists, for a base that later records stand on.
    pub fn copy(&self) -> Queues
        ensures { result ≡ self.now }
    {
        let mut slots = ArrayVec::new();
        for (nexus, pending) in self.slots.as_slice() {
            slots.push((*nexus, pending.copy()));
        }
        Queues {
            slots,
            recent: 0,
            next: 0,
        }
    }
}

ghost use Rattle.std.specs.Prelude.{T};
ghost use Rattle.std.specs.FinMap.{is_sorted};
ghost use Rattle.scsi_nexus.specs.Order.{nexus_cmp};
ghost use Rattle.scsi_nexus.specs.Place.{IsPlaceOf};

/// Where the slot of a nexus stands, or would. A place that it may have is tried first.
fn place_at(slots: &[(Nexus, Pending)], guess: usize, nexus: Nexus) -> Result<usize, usize>
    requires { T (is_sorted nexus_cmp slots.now) }
    ensures { IsPlaceOf nexus slots.now result }
{
    if guess < slots.len() && slots[guess].0 == nexus {
        return Ok(guess);
    }
    place_of(slots, nexus)
}
