ghost use Rattle.std.specs.Prelude.{[], ◌∷◌, Some, None};
ghost use Rattle.logical_unit.specs.Answers.{DoneValue};
ghost use Rattle.iscsi_session.specs.declared.register.NexusEnd.TheVariants.{Lost, GoesOn};
ghost use Rattle.server.specs.Rows.{Gives, IsCommandOf, IsLossOf, a, b};

/// Worked rows: what sessions leave of two nexuses, and of none; and that a session makes no call of another nexus, and ends with the
/// loss of its own, unless that goes on.
pub fn session_rows()
    ensures nobody { Gives (None ∷ []) [] }
    ensures one { (d l : DoneValue) → IsCommandOf a d → IsLossOf a l → Gives (Some (a, Lost) ∷ []) (d ∷ (l ∷ [])) }
    ensures two { (d l e m : DoneValue) → IsCommandOf a d → IsLossOf a l → IsCommandOf b e → IsLossOf b m
        → Gives (Some (a, Lost) ∷ (Some (b, Lost) ∷ [])) (d ∷ (l ∷ (e ∷ (m ∷ [])))) }
    ensures of_another { (d l : DoneValue) → IsCommandOf b d → Gives (Some (a, Lost) ∷ []) (d ∷ (l ∷ [])) → ⊥ }
    ensures without_the_loss { (d : DoneValue) → IsCommandOf a d → Gives (Some (a, Lost) ∷ []) (d ∷ []) → ⊥ }
    ensures goes_on { (d : DoneValue) → IsCommandOf a d → Gives (Some (a, GoesOn) ∷ []) (d ∷ []) }
    ensures another_goes_on { (d : DoneValue) → IsCommandOf b d → Gives (Some (a, GoesOn) ∷ []) (d ∷ []) → ⊥ }
{}
