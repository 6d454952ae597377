ghost use Rattle.std.specs.Prelude.{◌≡◌, option_map};
ghost use Rattle.pr_core.specs.Acts.{act_shown};
ghost use Rattle.pr_core.specs.State.{State, key as key_in_state, is_all_held as is_all_held_in, is_taking as is_taking_in, key_after, is_counted};
ghost use Rattle.pr_core.specs.Outcome.{standing_of, told, raised_for, is_removed};

use crate::targets::is_among;
use permit_tables::ResType;
use scsi_nexus::Nexus;
use unit_attention::Kind;

/// A reservation act that was accepted, as the history of a unit has it beside its sender.
#[derive(Clone, Copy)]
pub enum ReservationAct<'a> {
    /// REGISTER or REGISTER AND IGNORE EXISTING KEY with the new key and the nexuses that it names;
    /// 0 unregisters them. The list is lent, so an act's size doesn't go by the most nexuses that a REGISTER can name.
    Register(u64, &'a [Nexus]),
    /// RESERVE with the type.
    Reserve(ResType),
    /// RELEASE with the command's byte of scope and type, which counts for a holder alone.
    Release(u8),
    /// CLEAR.
    Clear,
    /// PREEMPT or PREEMPT AND ABORT with the preempted key and the command's byte of scope and type,
    /// which counts for one that takes the reservation alone.
    Preempt(u64, u8),
    /// REGISTER AND MOVE with the destination's key, the destination, and whether the sender is
    /// unregistered.
    Move(u64, Nexus, bool),
}

/// What decides what an act does to the nexuses other than its sender, found once for all of them.
#[derive(Clone, Copy)]
pub(crate) struct Standing {
    /// Whether the act is a preemption that takes the reservation.
    pub(crate) is_taking: bool,
    /// Whether the reservation is of an all registrants type.
    pub(crate) is_all_held: bool,
    /// Whether those who stay registered are told that the reservation was released.
    pub(crate) is_releasing: bool,
}

impl ReservationAct<'_> {
    /// Whether PRGENERATION counts the act.
    pub fn is_counted(self) -> bool
        ensures { result ≡ is_counted (act_shown self.entry) }
    {
        match self {
            ReservationAct::Reserve(_) | ReservationAct::Release(_) => false,
            ReservationAct::Register(_, _)
            | ReservationAct::Clear
            | ReservationAct::Preempt(_, _)
            | ReservationAct::Move(_, _, _) => true,
        }
    }

    /// The key of a nexus after the act, 0 for none, from its key before: `is_taking` says whether
    /// the act is a preemption that takes the reservation, and `is_all_held` whether that was of an
    /// all registrants type.
    pub fn key_after(
        self,
        sender: Nexus,
        nexus: Nexus,
        key: u64,
        is_taking: bool,
        is_all_held: bool,
    ) -> u64
        ensures { (v : State) → key ≡ key_in_state v nexus → is_taking ≡ is_taking_in v (act_shown self.entry) → is_all_held ≡ is_all_held_in v → result ≡ key_after v sender (act_shown self.entry) nexus }
    {
        match self {
            ReservationAct::Register(new, targets) => {
                if is_among(nexus, targets) { new } else { key }
            }
            ReservationAct::Reserve(_) | ReservationAct::Release(_) => key,
            ReservationAct::Clear => 0,
            ReservationAct::Preempt(preempted, _) => {
                let falls = if is_taking {
                    nexus != sender && (is_all_held || key == preempted)
                } else {
                    key == preempted
                };
                if falls { 0 } else { key }
            }
            ReservationAct::Move(new, destination, unregisters) => {
                if nexus == destination {
                    new
                } else if nexus == sender && unregisters {
                    0
                } else {
                    key
                }
            }
        }
    }

    /// Whether the act unregisters a registered nexus with this key that isn't its sender.
    pub(crate) fn removes(
        self,
        sender: Nexus,
        nexus: Nexus,
        key: u64,
        is_taking: bool,
        is_all_held: bool,
    ) -> bool
        ensures { (v : State) → key ≡ key_in_state v nexus → is_taking ≡ is_taking_in v (act_shown self.entry) → is_all_held ≡ is_all_held_in v → result ≡ is_removed v sender (act_shown self.entry) nexus }
    {
        nexus != sender && self.key_after(sender, nexus, key, is_taking, is_all_held) == 0
    }

    /// What the act tells a registered nexus with this key that isn't its sender.
    fn told(self, sender: Nexus, nexus: Nexus, key: u64, standing: Standing) -> Option<Kind>
        ensures { (v : State) → key ≡ key_in_state v nexus → standing ≡ standing_of v sender (act_shown self.entry) → result ≡ told v sender (act_shown self.entry) nexus }
    {
        let is_released = match self {
            ReservationAct::Clear => return Some(Kind::ReservationsPreempted),
            ReservationAct::Preempt(_, _) => {
                let after = self.key_after(
                    sender,
                    nexus,
                    key,
                    standing.is_taking,
                    standing.is_all_held,
                );
                if after == 0 {
                    return Some(Kind::RegistrationsPreempted);
                }
                standing.is_releasing
            }
            ReservationAct::Register(_, targets) => {
                standing.is_releasing && !is_among(nexus, targets)
            }
            ReservationAct::Release(_) => standing.is_releasing,
            ReservationAct::Reserve(_) | ReservationAct::Move(_, _, _) => false,
        };
        if is_released {
            Some(Kind::ReservationsReleased)
        } else {
            None
        }
    }

    /// The attention that the act raises for a registered nexus with this key, if it does: none for its
    /// sender.
    pub(crate) fn raised(
        self,
        sender: Nexus,
        nexus: Nexus,
        key: u64,
        standing: Standing,
    ) -> Option<Kind>
        ensures { (v : State) → key ≡ key_in_state v nexus → standing ≡ standing_of v sender (act_shown self.entry) → option_map (λ kind. (nexus, kind)) result ≡ raised_for v sender (act_shown self.entry) nexus }
    {
        if nexus == sender {
            None
        } else {
            self.told(sender, nexus, key, standing)
        }
    }
}
