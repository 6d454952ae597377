ghost use Rattle.unit_laws.specs.Reservations.{NoneRegistered, GenerationCounts, HolderIsRegistered, ReserveTakesNothing, OnlyTheseEnd};

/// Under an all registrants type no nexus is merely registered: each that has a key holds.
#[tactic(auto, using(crate::proofs::CommandLaws::none_registered))]
pub fn none_registered_under_all_registrants()
    ensures { NoneRegistered }
{}

/// PRGENERATION counts exactly the accepted acts other than RESERVE and RELEASE, modulo 2^32.
#[tactic(auto, using(crate::proofs::CommandLaws::generation_counts))]
pub fn generation_counts_acts()
    ensures { GenerationCounts }
{}

/// After any commands from power on, a reservation that isn't of an all registrants type has its
/// holder's registration, and one of such a type somebody's.
#[tactic(auto, using(crate::proofs::CommandLaws::holder_is_registered))]
pub fn holder_is_registered()
    ensures { HolderIsRegistered }
{}

/// RESERVE never takes a reservation from another, nor ends one.
#[tactic(auto, using(crate::proofs::CommandLaws::reserve_takes_nothing))]
pub fn reserve_takes_nothing()
    ensures { ReserveTakesNothing }
{}

/// Only PREEMPT with the holder's key (0 under an all registrants type), CLEAR, RELEASE by a holder,
/// unregistering, or REGISTER AND MOVE can end or move a reservation.
#[tactic(auto, using(crate::proofs::CommandLaws::only_these_end))]
pub fn only_these_end_a_reservation()
    ensures { OnlyTheseEnd }
{}
