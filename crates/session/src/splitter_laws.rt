ghost use Rattle.std.specs.Prelude.{◌≡◌, ℕ, true, false, List, [], ◌∷◌, ◌++◌, take, drop};
ghost use Rattle.std.specs.List.{concat};
ghost use Rattle.scsi_cdb.specs.declared.profile.Profile.{Profile};
ghost use Rattle.scsi_cdb.specs.declared.profile.Profile.TheVariants.{Spec};
ghost use Rattle.frames.specs.declared.fault.FrameFault.TheVariants.{BadFrame};
ghost use Rattle.frames.specs.Frames.{FrameValue, Login};
ghost use Rattle.frames.specs.Rows.{a, login_by, test_unit_ready, one_session, one_session_frames};
ghost use Rattle.frames.specs.Stream.{Reads, Stop, Waiting, Broken};
ghost use Rattle.session.specs.Splitting.{Splits};

/// Worked rows: streams in pieces, and their frames.
pub fn splitting_rows()
    ensures nothing { Splits Spec [] [] (Waiting false []) }
    ensures at_once { Splits Spec (one_session ∷ []) one_session_frames (Waiting true []) }
    ensures in_the_login { Splits Spec (take 7 one_session ∷ drop 7 one_session ∷ []) one_session_frames (Waiting true []) }
    ensures cut_session { Splits Spec (login_by 1 ∷ (0 ∷ 0 ∷ []) ∷ (0 ∷ []) ∷ []) (Login a ∷ []) (Waiting true (0 ∷ 0 ∷ 0 ∷ [])) }
    ensures behind_a_fault { Splits Spec ((login_by 1 ++ login_by 2) ∷ test_unit_ready ∷ []) (Login a ∷ []) (Broken BadFrame) }
{}

/// Law: however a stream is cut into pieces, their frames are those that it begins with, and they end where it stops. So
/// two ways to cut one stream give the same frames and the same fault.
pub fn cuts_change_nothing()
    ensures stream { (p : Profile) (pieces : List (List ℕ)) (frames : List FrameValue) (stop : Stop) → Splits p pieces frames stop → Reads p false (concat pieces) frames stop }
    ensures same { (p : Profile) (pieces others : List (List ℕ)) (fs gs : List FrameValue) (s t : Stop) → concat pieces ≡ concat others
        → Splits p pieces fs s → Splits p others gs t → (fs ≡ gs) × (s ≡ t) }
{}
