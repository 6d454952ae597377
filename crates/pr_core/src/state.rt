ghost use Rattle.std.specs.Prelude.{◌≡◌, ◌≤◌, ◌==◌, nat_le, length};
ghost use Rattle.pr_core.specs.Acts.{act_shown, Register};
ghost use Rattle.std.specs.List.{list_any};
ghost use Rattle.pr_core.specs.State.{State, capacity, power_on, key, lasting, takes, is_taking, is_all_held, is_holder, decided, keys_after, after, registrants, IsKeyed, role as role_in, res_type as type_held, cell as cell_in, type_in as type_in_byte};
ghost use Rattle.pr_core.specs.Table.{IsProper};

use crate::act::ReservationAct;
use crate::key_table::KeyTable;
use permit_tables::{Cell, ResType, Role};
use scsi_cdb::Class;
use scsi_nexus::{Nexus, NexusList};
use std::marker::Model;

/// The reservations of one unit: the registered nexuses with their keys, the reservation, and
/// PRGENERATION. It takes no memory.
///
/// | act | keys afterwards | reservation afterwards |
/// |---|---|---|
/// | REGISTER of either kind | that of each nexus it names is the new one, 0 for none | ends with its last holder's key |
/// | RESERVE | | the sender's, where there was none |
/// | RELEASE | | none, by a holder |
/// | CLEAR | none | none |
/// | PREEMPT that takes | none for the others with that key, or all others under an all registrants type | the sender's, of the command's type |
/// | PREEMPT that doesn't | none for each with that key | ends with its last holder's key |
/// | REGISTER AND MOVE | the destination's is the new one, the sender's goes with UNREG | the destination's, of the old type |
///
/// ```text
/// if state.judge(nexus, &params) == Verdict::Allowed {
///     state.apply(nexus, &params, &mut queues)?;
/// }
/// ```
#[derive(Drop)]
pub struct PrState {
    keys: KeyTable,
    reservation: Option<(ResType, Nexus)>,
    generation: u32,
}

impl Model for PrState {
    ghost use Rattle.std.specs.Prelude.{length, ◌≤◌};
    ghost use Rattle.pr_core.specs.State.{State, capacity};
    ghost use Rattle.pr_core.specs.Table.{IsProper};

    ghost Value = { State };

    ghost view = { λ a. record { keys = a.keys; reservation = a.reservation; generation = a.generation } };

    ghost invariant = { λ a. IsProper a.keys × (length a.keys ≤ capacity) };
}

impl PrState {
    /// Nothing registered, nothing reserved, generation 0: as at power on.
    pub fn new() -> Self
        ensures { result ≡ power_on }
    {
        PrState {
            keys: KeyTable::new(),
            reservation: None,
            generation: 0,
        }
    }

    /// The reservation key of a nexus, 0 for none.
    pub fn key_of(&self, nexus: Nexus) -> u64
        ensures { result ≡ key self.now nexus }
    {
        self.keys.key(nexus)
    }

    /// The reservation: its type, and the nexus that made or took it, or to which it was moved.
    pub fn reservation(&self) -> Option<(ResType, Nexus)>
        ensures { result ≡ self.now.reservation }
    {
        self.reservation
    }

    /// What a nexus is to the unit.
    pub fn role(&self, nexus: Nexus) -> Role
        ensures { result ≡ role_in self.now nexus }
    {
        if self.holds(nexus) {
            Role::Holder
        } else if self.key_of(nexus) != 0 {
            Role::Registered
        } else {
            Role::Other
        }
    }

    /// PRGENERATION: how many acts other than RESERVE and RELEASE were accepted, modulo 2^32.
    pub fn generation(&self) -> u32
        ensures { result ≡ self.now.generation }
    {
        self.generation
    }

    /// The registered nexuses, ascending.
    pub fn registrants(&self) -> NexusList
        ensures list { result ≡ registrants self.now }
        ensures ascending { IsProper self.now.keys }
        ensures room { length self.now.keys ≤ capacity }
    {
        let mut list = NexusList::new();
        for (nexus, _) in self.keys.entries() {
            // The list has room for as many as there are registrations.
            let _ = list.push(*nexus);
        }
        list
    }

    /// The registered nexuses with their keys, ascending.
    pub fn registrations(&self) -> &[(Nexus, u64)]
        ensures list { result.now ≡ self.now.keys }
        ensures ascending { IsProper self.now.keys }
        ensures room { length self.now.keys ≤ capacity }
    {
        self.keys.entries()
    }

    /// The cell of the permission table that a command of this class by a nexus stands in.
    pub fn cell(&self, nexus: Nexus, class: Class) -> Cell
        ensures { result ≡ cell_in self.now nexus class }
    {
        Cell {
            class,
            res_type: self.res_type(),
            role: self.role(nexus),
        }
    }
}

impl PrState {
    /// The type of the reservation, `None` for none.
    pub(crate) fn res_type(&self) -> ResType
        ensures { result ≡ type_held self.now }
    {
        match self.reservation {
            None => ResType::None,
            Some((res_type, _)) => res_type,
        }
    }

    /// Whether some nexus has this key.
    pub(crate) fn has_key(&self, key: u64) -> bool
        ensures { result ≡ list_any (λ e. e.1 == key) self.now.keys }
    {
        self.keys.has_key(key)
    }

    /// Whether a preemption of this key takes the reservation.
    pub(crate) fn takes(&self, preempted: u64) -> bool
        ensures { result ≡ takes self.now preempted }
    {
        match self.reservation {
            None => false,
            Some((res_type, holder)) => {
                if res_type.is_all_registrants() {
                    preempted == 0
                } else {
                    preempted == self.key_of(holder)
                }
            }
        }
    }

    /// Whether an act is a preemption that takes the reservation.
    pub(crate) fn is_taking(&self, act: ReservationAct<'_>) -> bool
        ensures { result ≡ is_taking self.now (act_shown act.entry) }
    {
        match act {
            ReservationAct::Preempt(preempted, _) => self.takes(preempted),
            ReservationAct::Register(_, _)
            | ReservationAct::Reserve(_)
            | ReservationAct::Release(_)
            | ReservationAct::Clear
            | ReservationAct::Move(_, _, _) => false,
        }
    }

    /// Whether the reservation is of an all registrants type.
    pub(crate) fn is_all_held(&self) -> bool
        ensures { result ≡ is_all_held self.now }
    {
        match self.reservation {
            None => false,
            Some((res_type, _)) => res_type.is_all_registrants(),
        }
    }

    /// Whether a nexus holds the reservation.
    pub(crate) fn holds(&self, nexus: Nexus) -> bool
        ensures { result ≡ is_holder self.now nexus }
    {
        match self.reservation {
            None => false,
            Some((res_type, holder)) => {
                if res_type.is_all_registrants() {
                    self.key_of(nexus) != 0
                } else {
                    nexus == holder
                }
            }
        }
    }
}

impl PrState {
    /// What is left of the reservation under the keys that stand.
    fn lasting(&self) -> Option<(ResType, Nexus)>
        ensures { result ≡ lasting self.now.keys self.now.reservation }
    {
        let (res_type, holder) = self.reservation?;
        let over = if res_type.is_all_registrants() {
            self.keys.entries().is_empty()
        } else {
            self.key_of(holder) == 0
        };
        if over { None } else { Some((res_type, holder)) }
    }

    /// What an act makes of the reservation by itself, if it does.
    fn decided(&self, sender: Nexus, act: ReservationAct<'_>) -> Option<Option<(ResType, Nexus)>>
        ensures { result ≡ decided self.now sender (act_shown act.entry) }
    {
        match act {
            ReservationAct::Register(_, _) => None,
            ReservationAct::Reserve(res_type) => {
                if self.reservation.is_none() {
                    Some(Some((res_type, sender)))
                } else {
                    None
                }
            }
            ReservationAct::Release(_) => { if self.holds(sender) { Some(None) } else { None } }
            ReservationAct::Clear => Some(None),
            ReservationAct::Preempt(preempted, code) => {
                if self.takes(preempted) {
                    Some(Some((type_in(code), sender)))
                } else {
                    None
                }
            }
            ReservationAct::Move(_, destination, _) => match self.reservation {
                None => Some(None),
                Some((res_type, _)) => Some(Some((res_type, destination))),
            },
        }
    }

    /// Whether there is room for what a REGISTER of these nexuses registers.
    #[tactic(auto, using(crate::proofs::ManyLaws::unregistering_fits, crate::proofs::ManyLaws::registering_is))]
    pub(crate) fn has_room_for(&self, sender: Nexus, targets: &[Nexus], key: u64) -> bool
        ensures { result ≡ nat_le (length (keys_after self.now sender (Register key targets.now))) capacity }
    {
        // For the prover: the keys ascend, and there is room for them.
        let _registrations = self.registrations();
        key == 0 || self.keys.has_room_for(targets, key)
    }

    /// Changes the keys by an act, all at once.
    fn change_keys(&mut self, sender: Nexus, act: ReservationAct<'_>)
        requires keyed { IsKeyed (act_shown act) }
        requires room { length (keys_after self.old sender (act_shown act)) ≤ capacity }
        ensures { self.new ≡ record self.old { keys = keys_after self.old sender (act_shown act.entry) } }
    {
        match act {
            ReservationAct::Register(key, targets) => self.keys.register_all(targets, key),
            ReservationAct::Reserve(_) | ReservationAct::Release(_) => {}
            ReservationAct::Clear => self.keys.clear(),
            ReservationAct::Preempt(preempted, _) => {
                let taking = self.takes(preempted);
                let all = self.is_all_held();
                if taking {
                    if all {
                        self.keys.keep_only(sender);
                    } else {
                        self.keys.remove_others(preempted, sender);
                    }
                } else {
                    self.keys.remove_key(preempted);
                }
            }
            ReservationAct::Move(key, destination, unregisters) => {
                // For the prover: each branch ends in its own `put`.
                if unregisters {
                    self.keys.remove(sender);
                    self.keys.put(destination, key);
                } else {
                    self.keys.put(destination, key);
                }
            }
        }
    }

    /// Carries out an act.
    pub(crate) fn accept(&mut self, sender: Nexus, act: ReservationAct<'_>)
        requires keyed { IsKeyed (act_shown act) }
        requires room { length (keys_after self.old sender (act_shown act)) ≤ capacity }
        ensures { self.new ≡ after self.old sender (act_shown act.entry) }
    {
        let decided = self.decided(sender, act);
        self.change_keys(sender, act);
        let reservation = match decided {
            Some(reservation) => reservation,
            None => self.lasting(),
        };
        self.reservation = reservation;
        if act.is_counted() {
            self.generation = self.generation.wrapping_add(1);
        }
    }
}

impl PrState {
    /// Equal reservations, for a base that later records stand on.
    pub fn copy(&self) -> PrState
        ensures { result ≡ self.now }
    {
        PrState {
            keys: self.keys.copy(),
            reservation: self.reservation,
            generation: self.generation,
        }
    }
}

/// The type in a byte of scope and type, `None` for a byte that isn't scope 0 with a known type.
pub fn type_in(code: u8) -> ResType
    ensures { result ≡ type_in_byte code }
{
    ResType::from_code(code).unwrap_or(ResType::None)
}
