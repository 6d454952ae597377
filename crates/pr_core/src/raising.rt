ghost use Rattle.std.specs.Prelude.{◌≡◌};
ghost use Rattle.pr_core.specs.State.{is_sole_holder, registrants};
ghost use Rattle.pr_core.specs.Acts.{act_shown};
ghost use Rattle.std.specs.List.{list_any};
ghost use Rattle.unit_attention.specs.Queues.{all_raised, for_others};
ghost use Rattle.pr_core.specs.Outcome.{is_releasing, standing_of, raised, removed};

use crate::act::{ReservationAct, Standing};
use crate::state::PrState;
use scsi_nexus::{Nexus, NexusList};
use unit_attention::{Kind, Queues};

impl PrState {
    /// Whether one of these nexuses is the reservation's, where that isn't of an all registrants type.
    fn has_holder(&self, targets: &[Nexus]) -> bool
        ensures { result ≡ list_any (is_sole_holder self.now) targets.now }
    {
        targets.iter().any(|nexus| self.holds_alone(*nexus))
    }

    /// Whether the reservation is a nexus's, and isn't of an all registrants type.
    fn holds_alone(&self, nexus: Nexus) -> bool
        ensures { result ≡ is_sole_holder self.now nexus }
    {
        match self.reservation() {
            None => false,
            Some((res_type, holder)) => !res_type.is_all_registrants() && nexus == holder,
        }
    }

    /// Whether those whom an act leaves registered, and whom it doesn't name, are told that the
    /// reservation was released.
    fn is_releasing(&self, sender: Nexus, act: ReservationAct<'_>) -> bool
        ensures { result ≡ is_releasing self.now sender (act_shown act.entry) }
    {
        match act {
            ReservationAct::Register(key, targets) => {
                key == 0 && self.res_type().is_registrants_only() && self.has_holder(targets)
            }
            ReservationAct::Release(_) => {
                self.holds(sender) && (self.res_type().is_registrants_only() || self.is_all_held())
            }
            ReservationAct::Preempt(preempted, code) => {
                self.takes(preempted) && code != self.res_type().code()
            }
            ReservationAct::Reserve(_) | ReservationAct::Clear | ReservationAct::Move(_, _, _) => {
                false
            }
        }
    }

    /// What decides what an act does to the other nexuses.
    fn standing(&self, sender: Nexus, act: ReservationAct<'_>) -> Standing
        ensures { result ≡ standing_of self.now sender (act_shown act.entry) }
    {
        Standing {
            is_taking: self.is_taking(act),
            is_all_held: self.is_all_held(),
            is_releasing: self.is_releasing(sender, act),
        }
    }

    /// Raises the attentions of an act, ascending by nexus. What a PREEMPT tells a nexus goes by its key; any other act that
    /// tells anything tells one kind, which one walk over registrations and slots raises.
    pub(crate) fn raise_attentions(
        &self,
        sender: Nexus,
        act: ReservationAct<'_>,
        queues: &mut Queues,
    )
        ensures { queues.new ≡ all_raised queues.old (raised self.now sender (act_shown act.entry)) }
    {
        match act {
            ReservationAct::Preempt(_, _) => self.raise_by_keys(sender, act, queues),
            ReservationAct::Clear => {
                self.raise_for_others(sender, &[], Kind::ReservationsPreempted, queues);
            }
            ReservationAct::Register(_, targets) => {
                if self.is_releasing(sender, act) {
                    self.raise_for_others(sender, targets, Kind::ReservationsReleased, queues);
                }
            }
            ReservationAct::Release(_) => {
                if self.is_releasing(sender, act) {
                    self.raise_for_others(sender, &[], Kind::ReservationsReleased, queues);
                }
            }
            ReservationAct::Reserve(_) | ReservationAct::Move(_, _, _) => {}
        }
    }

    /// Raises the attentions of an act, each by the key of its nexus.
    fn raise_by_keys(&self, sender: Nexus, act: ReservationAct<'_>, queues: &mut Queues)
        ensures { queues.new ≡ all_raised queues.old (raised self.now sender (act_shown act.entry)) }
    {
        let standing = self.standing(sender, act);
        for (nexus, key) in self.registrations() {
            if let Some(kind) = act.raised(sender, *nexus, *key, standing) {
                queues.raise(*nexus, kind);
            }
        }
    }

    /// Raises an attention for the registered nexuses, all but a sender and some that are named.
    fn raise_for_others(&self, sender: Nexus, named: &[Nexus], kind: Kind, queues: &mut Queues)
        ensures { queues.new ≡ all_raised queues.old (for_others sender named.now kind (registrants self.now)) }
    {
        queues.raise_others(self.registrations(), sender, named, kind);
    }

    /// The nexuses that another's act unregisters, ascending.
    pub(crate) fn removed_by(&self, sender: Nexus, act: ReservationAct<'_>) -> NexusList
        ensures { result ≡ removed self.now sender (act_shown act.entry) }
    {
        let is_taking = self.is_taking(act);
        let is_all_held = self.is_all_held();
        let mut removed = NexusList::new();
        for (nexus, key) in self.registrations() {
            if act.removes(sender, *nexus, *key, is_taking, is_all_held) {
                // The list has room for as many as there are registrations.
                let _ = removed.push(*nexus);
            }
        }
        removed
    }
}
