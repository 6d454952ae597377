ghost use Rattle.std.specs.Prelude.{◌≡◌, [], ◌∷◌, ◌++◌, true, false, codes};
ghost use Rattle.tape_medium.specs.Object.{Block, Mark};
ghost use Rattle.tape_flush.specs.Bringing.{IsJustThat, IsThere};
ghost use Rattle.tape_flush.specs.Careful.{known_of, after, trusted_to, Allowed};
ghost use Rattle.tape_flush.specs.Images.{end_at, ends_from};
ghost use Rattle.tape_flush.specs.Saved.{ends_within};
ghost use Rattle.tape_flush.specs.Stores.{file_value, Does, Survives, Truncate, Append, Sync, Note};
ghost use Rattle.tape_flush.specs.declared.known.FileTail.TheVariants.{Unknown, Cut, Empty};

/// Worked rows: "hi", a filemark and "odd" end at 10, 14 and 26 bytes; and those of them that end within so many.
pub fn worked_rows()
    ensures ends { ends_from 0 (Block (0x68 ∷ 0x69 ∷ []) ∷ Mark ∷ Block (0x6F ∷ 0x64 ∷ 0x64 ∷ []) ∷ []) ≡ 10 ∷ 14 ∷ 26 ∷ [] }
    ensures front { end_at (10 ∷ 14 ∷ 26 ∷ []) 0 ≡ 0 }
    ensures second { end_at (10 ∷ 14 ∷ 26 ∷ []) 2 ≡ 14 }
    ensures within { ends_within 14 (10 ∷ 14 ∷ 26 ∷ []) ≡ 10 ∷ 14 ∷ [] }
    ensures none { ends_within 9 (10 ∷ 14 ∷ 26 ∷ []) ≡ [] }
{}

/// Worked rows: a file of "hello", of which "he" is on the disk as its record says, is written on, cut back, and brought to the disk; and a
/// sync that fails forgets what wasn't.
pub fn store_rows()
    ensures written_on { Does (Append 5 (codes "!") true) (file_value (codes "hello") 5 (codes "he") (2 ∷ [])) (file_value (codes "hello!") 6 (codes "he") (2 ∷ [])) }
    ensures elsewhere { ¬ Does (Append 4 (codes "!") true) (file_value (codes "hello") 5 (codes "he") (2 ∷ [])) (file_value (codes "hello!") 6 (codes "he") (2 ∷ [])) }
    ensures in_part { Does (Append 5 (codes "abc") false) (file_value (codes "hello") 5 (codes "he") (2 ∷ [])) (file_value (codes "helloab") 7 (codes "he") (2 ∷ [])) }
    ensures cut { Does (Truncate 1 true) (file_value (codes "hello") 5 (codes "he") (2 ∷ [])) (file_value (codes "h") 1 (codes "h") (2 ∷ [])) }
    ensures synced { Does (Sync true) (file_value (codes "hello") 5 (codes "he") (2 ∷ [])) (file_value (codes "hello") 5 (codes "hello") (2 ∷ [])) }
    ensures forgotten { Does (Sync false) (file_value (codes "hello") 5 (codes "he") (2 ∷ [])) (file_value (codes "heXYZ!") 2 (codes "he") (2 ∷ [])) }
    ensures lost_for_good { ¬ Does (Sync true) (file_value (codes "heXYZ!") 2 (codes "he") (2 ∷ [])) (file_value (codes "heXYZ!") 2 (codes "heXYZ!") (2 ∷ [])) }
    ensures either { Does (Note 5 false) (file_value (codes "hello") 5 (codes "hello") (2 ∷ [])) (file_value (codes "hello") 5 (codes "hello") (5 ∷ 2 ∷ [])) }
{}

/// Worked rows: what a power cut may leave of "hello", of which "he" was brought to the disk: all, nothing more, the first bytes only,
/// zeros under the new length, other pages, or a cut that is undone; but not other first bytes.
pub fn survival_rows()
    ensures all { Survives (file_value (codes "hello") 5 (codes "he") (2 ∷ [])) (codes "hello") 2 }
    ensures nothing_more { Survives (file_value (codes "hello") 5 (codes "he") (2 ∷ [])) (codes "he") 2 }
    ensures first_bytes { Survives (file_value (codes "hello") 5 (codes "he") (2 ∷ [])) (codes "hel") 2 }
    ensures zeros { Survives (file_value (codes "hello") 5 (codes "he") (2 ∷ [])) (codes "he" ++ 0 ∷ 0 ∷ 0 ∷ []) 2 }
    ensures reordered { Survives (file_value (codes "hello") 5 (codes "he") (2 ∷ [])) (codes "he" ++ 0 ∷ 0 ∷ codes "o") 2 }
    ensures old_behind { Survives (file_value (codes "he") 2 (codes "he") (2 ∷ [])) (codes "heard before") 2 }
    ensures another_front { ¬ Survives (file_value (codes "hello") 5 (codes "he") (2 ∷ [])) (codes "ha") 2 }
    ensures another_record { ¬ Survives (file_value (codes "hello") 5 (codes "he") (2 ∷ [])) (codes "hello") 5 }
{}

/// Worked rows: what is known of a file after each call, and which calls are allowed then.
pub fn known_rows()
    ensures grown { after (known_of 2 2 2 2 Empty) (Append 2 (codes "llo") true) ≡ known_of 2 2 2 5 Empty }
    ensures not_grown { after (known_of 2 2 2 2 Empty) (Append 2 (codes "llo") false) ≡ known_of 2 2 2 2 Unknown }
    ensures synced { after (known_of 2 2 2 5 Empty) (Sync true) ≡ known_of 2 2 5 5 Empty }
    ensures not_synced { after (known_of 2 2 2 5 Empty) (Sync false) ≡ known_of 2 2 2 2 Unknown }
    ensures noted { after (known_of 2 2 5 5 Empty) (Note 5 true) ≡ known_of 5 5 5 5 Empty }
    ensures not_noted { after (known_of 2 2 5 5 Empty) (Note 5 false) ≡ known_of 2 5 5 5 Empty }
    ensures cut { after (known_of 1 1 5 5 Empty) (Truncate 1 true) ≡ known_of 1 1 1 1 Cut }
    ensures cut_lasts { after (known_of 1 1 1 1 Cut) (Sync true) ≡ known_of 1 1 1 1 Empty }
    ensures too_early { ¬ Allowed (known_of 5 5 5 5 Empty) (Truncate 1 true) }
    ensures over_a_cut { ¬ Allowed (known_of 1 1 1 1 Cut) (Append 1 (codes "!") true) }
    ensures not_there { ¬ Allowed (known_of 2 2 2 5 Empty) (Note 5 true) }
    ensures opened { trusted_to 7 ≡ known_of 7 7 7 7 Unknown }
{}

/// Worked rows: what a sync and a note leave of "hello", of which "he" was on the disk: all of it and a record of just that; not less, not
/// more, and no record of less.
pub fn synced_rows()
    ensures just { IsJustThat 5 (file_value (codes "hello") 5 (codes "he") (2 ∷ [])) (file_value (codes "hello") 5 (codes "hello") (5 ∷ [])) }
    ensures unsynced { ¬ IsJustThat 5 (file_value (codes "hello") 5 (codes "he") (2 ∷ [])) (file_value (codes "hello") 5 (codes "he") (5 ∷ [])) }
    ensures unnoted { ¬ IsJustThat 5 (file_value (codes "hello") 5 (codes "he") (2 ∷ [])) (file_value (codes "hello") 5 (codes "hello") (5 ∷ 2 ∷ [])) }
    ensures more { ¬ IsJustThat 5 (file_value (codes "hello!") 6 (codes "he") (2 ∷ [])) (file_value (codes "hello!") 6 (codes "hello!") (5 ∷ [])) }
    ensures there { IsThere 2 (file_value (codes "hello") 5 (codes "he") (2 ∷ [])) }
    ensures not_there { ¬ IsThere 3 (file_value (codes "hello") 5 (codes "he") (3 ∷ [])) }
    ensures noted_less { ¬ IsThere 2 (file_value (codes "hello") 5 (codes "he") (2 ∷ 1 ∷ [])) }
{}
