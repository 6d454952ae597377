ghost use Rattle.std.specs.Prelude.{◌≡◌, ℕ, true, List, [], ◌∷◌, ◌++◌, length, drop, replicate};
ghost use Rattle.scsi_cdb.specs.declared.profile.Profile.{Profile};
ghost use Rattle.scsi_cdb.specs.declared.profile.Profile.TheVariants.{Spec, Hosts};
ghost use Rattle.frames.specs.Frames.{FrameValue, Login, Command, Reset, Logout, Complete, parsed_frame};
ghost use Rattle.frames.specs.Rows.{a, login_by, test_unit_ready, write, logout};
ghost use Rattle.frames.specs.Sending.{IsSendable, HasWidth, is_behind_login, frame_bytes};
ghost use Rattle.frames.specs.Stream.{Stop, Reads};

/// Worked rows: frames as a client writes them, byte by byte.
pub fn sent_rows()
    ensures login { frame_bytes (Login a) ≡ login_by 1 }
    ensures command { frame_bytes (Command 0 (replicate 6 0) []) ≡ test_unit_ready }
    ensures write { frame_bytes (Command 1 (0x0A ∷ 0 ∷ 0 ∷ 0 ∷ 4 ∷ 0 ∷ []) (1 ∷ 2 ∷ 3 ∷ 4 ∷ [])) ≡ write }
    ensures reset { frame_bytes (Reset 7) ≡ 0 ∷ 0 ∷ 0 ∷ 2 ∷ 3 ∷ 7 ∷ [] }
    ensures logout { frame_bytes Logout ≡ logout }
{}

/// Worked rows: what a client may send goes by the limits of a frame.
#[tactic(auto, unfolding(crate::specs::Sending::IsSendable))]
pub fn sendable_rows()
    ensures longest { (bytes : List ℕ) → length bytes ≡ 131053 → IsSendable Spec (Command 0 (replicate 16 0) bytes) }
    ensures longer { (bytes : List ℕ) → length bytes ≡ 131054 → ¬ IsSendable Spec (Command 0 (replicate 16 0) bytes) }
    ensures longest_for_hosts { (bytes : List ℕ) → length bytes ≡ 1114093 → IsSendable Hosts (Command 0 (replicate 16 0) bytes) }
    ensures longer_for_hosts { (bytes : List ℕ) → length bytes ≡ 1114094 → ¬ IsSendable Hosts (Command 0 (replicate 16 0) bytes) }
    ensures no_cdb { ¬ IsSendable Spec (Command 0 [] []) }
    ensures cdb_of_17 { ¬ IsSendable Spec (Command 0 (replicate 17 0) []) }
    ensures login { IsSendable Spec (Login a) }
    ensures port_5 { ¬ IsSendable Spec (Login (record { sas = 1; port = 5 })) }
    ensures reset { IsSendable Spec (Reset 255) }
    ensures logout { IsSendable Spec Logout }
{}

/// Law: a stream that begins with what a client writes for a frame has that very frame at its front, and then the
/// rest. So the server reads each frame of a client, in their order.
pub fn frame_is_read()
    ensures parsed { (p : Profile) (f : FrameValue) (rest : List ℕ) → IsSendable p f → HasWidth f
        → parsed_frame p (is_behind_login f) (frame_bytes f ++ rest) ≡ Complete f (length (frame_bytes f)) }
    ensures rest { (f : FrameValue) (rest : List ℕ) → drop (length (frame_bytes f)) (frame_bytes f ++ rest) ≡ rest }
    ensures stream { (p : Profile) (f : FrameValue) (rest : List ℕ) (others : List FrameValue) (stop : Stop) → IsSendable p f → HasWidth f
        → Reads p true rest others stop → Reads p (is_behind_login f) (frame_bytes f ++ rest) (f ∷ others) stop }
{}
