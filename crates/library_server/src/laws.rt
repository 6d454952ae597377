//! Worked rows that the definitions compute to.

ghost use Rattle.std.specs.Prelude.{◌≡◌, [], ◌∷◌, Some, None, codes};
ghost use Rattle.lun_router.specs.declared.closing.CloseFault.TheVariants.{SeatMissing};
ghost use Rattle.server.specs.Faults.{first_among};
ghost use Rattle.server.specs.declared.acceptor.ServeTerm.{ServeTerm};
ghost use Rattle.server.specs.declared.acceptor.ServeTerm.TheVariants.{Sessions, UntilClosed};
ghost use Rattle.server.specs.declared.faulty_session.FaultySession.{FaultySession};
ghost use Rattle.library_server.specs.Memory.{resident_in};
ghost use Rattle.library_server.specs.Rows.{LinesOfServing, OrderOfFaults, StatusesOfServing, silent_session};
ghost use Rattle.library_server.specs.ServerFaults.{MayTell};
ghost use Rattle.library_server.specs.declared.server_fault.ServerFault.TheVariants.{Close, Media, NoMemory, Session, Write};

/// How serving ends by a fault, and by which of two.
pub fn worked_rows()
    ensures statuses { StatusesOfServing }
    ensures lines { LinesOfServing }
    ensures order { OrderOfFaults }
{}

/// Worked rows: which faults a server may have, and whose session's is told.
pub fn fault_rows()
    ensures until_closed { (session : FaultySession) → MayTell UntilClosed (Session session) → ⊥ }
    ensures of_a_number { (session : FaultySession) → MayTell (Sessions 2) (Session session) }
    ensures seat { (term : ServeTerm) → MayTell term (Close SeatMissing) → ⊥ }
    ensures others { MayTell UntilClosed Write × MayTell UntilClosed Media × MayTell UntilClosed NoMemory }
    ensures first { first_among None (None ∷ (Some (silent_session 3) ∷ (Some (silent_session 2) ∷ []))) ≡ Some (silent_session 2) }
    ensures none { first_among None (None ∷ (None ∷ [])) ≡ None }
{}

/// Worked rows: how many bytes of memory are resident by a line of the system.
pub fn memory_rows()
    ensures whole { resident_in (codes "2873 1304 742 1 0 209 0\n") ≡ Some 5341184 }
    ensures begun { resident_in (codes "2873 1304") ≡ None }
    ensures other { resident_in (codes "2873 all 742 1 0 209 0\n") ≡ None }
    ensures none { resident_in [] ≡ None }
{}
