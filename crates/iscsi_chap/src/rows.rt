ghost use Rattle.std.specs.Prelude.{◌≡◌, ℕ, List, [], ◌∷◌, ◌++◌, Some, None, Ok, Err, codes};
ghost use Rattle.iscsi_chap.specs.Algorithms.{chosen_algorithm};
ghost use Rattle.iscsi_chap.specs.Entries.{entry_among};
ghost use Rattle.iscsi_chap.specs.Secrets.{credentials, line_entry, numbered, secrets_in};
ghost use Rattle.iscsi_chap.specs.declared.algorithm.ChapAlgorithm.TheVariants.{Sha256, Md5};
ghost use Rattle.iscsi_chap.specs.declared.algorithm.ChapDigests.TheVariants as taken;
ghost use Rattle.iscsi_chap.specs.declared.entry.ChapEntry.{ChapEntry};
ghost use Rattle.iscsi_chap.specs.declared.secrets_fault.LineFault.TheVariants.{FieldCount, Name, SecretLength, SameSecret, UserTwice, SecretOfHost, SecretOfTarget};

/// Worked rows: the algorithm that is taken from a list.
pub fn algorithm_rows()
    ensures sha256_before_md5 { chosen_algorithm taken.Sha256AndMd5 (codes "5,7") ≡ Some Sha256 }
    ensures sha256_first { chosen_algorithm taken.Sha256AndMd5 (codes "7,5") ≡ Some Sha256 }
    ensures md5_alone { chosen_algorithm taken.Sha256AndMd5 (codes "5") ≡ Some Md5 }
    ensures md5_behind_another { chosen_algorithm taken.Sha256AndMd5 (codes "6,5") ≡ Some Md5 }
    ensures hexadecimal { chosen_algorithm taken.Sha256AndMd5 (codes "0x7") ≡ Some Sha256 }
    ensures neither { chosen_algorithm taken.Sha256AndMd5 (codes "6,77") ≡ None }
    ensures sha256_behind_md5 { chosen_algorithm taken.Sha256 (codes "5,7") ≡ Some Sha256 }
    ensures sha256_and_md5 { chosen_algorithm taken.Sha256 (codes "7,5") ≡ Some Sha256 }
    ensures never_md5 { chosen_algorithm taken.Sha256 (codes "5") ≡ None }
    ensures never_md5_in_hexadecimal { chosen_algorithm taken.Sha256 (codes "6,0x5") ≡ None }
{}

/// Worked rows: the entry of a host and a user, and its place.
pub fn entry_rows()
    ensures first { (e f : ChapEntry) → e.host.items ≡ codes "iqn.a" → e.own.user.items ≡ codes "b" → entry_among (e ∷ f ∷ []) (codes "IQN.A") (codes "b") ≡ Some (0, e) }
    ensures second { (e f : ChapEntry) → e.host.items ≡ codes "iqn.a" → e.own.user.items ≡ codes "b" → f.host.items ≡ codes "iqn.a" → f.own.user.items ≡ codes "c" → entry_among (e ∷ f ∷ []) (codes "iqn.a") (codes "c") ≡ Some (1, f) }
    ensures user_in_capital_letters { (e : ChapEntry) → e.host.items ≡ codes "iqn.a" → e.own.user.items ≡ codes "b" → entry_among (e ∷ []) (codes "iqn.a") (codes "B") ≡ None }
{}

/// Worked rows: the lines of a secrets file.
#[tactic(auto, unfolding(crate::specs::Secrets::line_entry, crate::specs::Secrets::first_word))]
pub fn line_rows()
    ensures empty { line_entry (codes "") ≡ Ok None }
    ensures comment { line_entry (codes "# a b c") ≡ Ok None }
    ensures host { line_entry (codes "iqn.2026-11.a:b  b twelve-bytes")
        ≡ Ok (Some (record { host = codes "iqn.2026-11.a:b"; own = credentials (codes "b") (codes "twelve-bytes"); target = None })) }
    ensures host_and_target { line_entry (codes "iqn.2026-11.a:b b twelve-bytes c twelve-more-") ≡ Ok (Some (record {
      host = codes "iqn.2026-11.a:b";
      own = credentials (codes "b") (codes "twelve-bytes");
      target = Some (credentials (codes "c") (codes "twelve-more-"));
    })) }
    ensures comment_behind { line_entry (codes "iqn.2026-11.a:b b twelve-bytes #c")
        ≡ Ok (Some (record { host = codes "iqn.2026-11.a:b"; own = credentials (codes "b") (codes "twelve-bytes"); target = None })) }
    ensures two_words { line_entry (codes "iqn.2026-11.a:b b") ≡ Err FieldCount }
    ensures four_words { line_entry (codes "iqn.2026-11.a:b b twelve-bytes c") ≡ Err FieldCount }
    ensures six_words { line_entry (codes "iqn.2026-11.a:b b twelve-bytes c twelve-more- d") ≡ Err FieldCount }
    ensures no_name { line_entry (codes "a b twelve-bytes") ≡ Err Name }
    ensures eleven_bytes { line_entry (codes "iqn.2026-11.a:b b eleven-byte") ≡ Err SecretLength }
    ensures eleven_bytes_of_the_target { line_entry (codes "iqn.2026-11.a:b b twelve-bytes c eleven-byte") ≡ Err SecretLength }
    ensures same_secret { line_entry (codes "iqn.2026-11.a:b b twelve-bytes c twelve-bytes") ≡ Err SameSecret }
{}

/// Worked rows: a host has a line for a user once.
#[tactic(auto, unfolding(crate::specs::Secrets::line_entry, crate::specs::Secrets::first_word))]
pub fn secrets_rows()
    ensures name_in_capital_letters { secrets_in (codes "iqn.2026-11.a:b b twelve-bytes" ++ 10 ∷ codes "IQN.2026-11.A:B b twelve-more-") ≡ Err (2, UserTwice) }
    ensures behind_a_comment { secrets_in (codes "iqn.2026-11.a:b b twelve-bytes" ++ 10 ∷ codes "#" ++ 10 ∷ codes "iqn.2026-11.a:b b twelve-bytes") ≡ Err (3, UserTwice) }
    ensures first_fault { secrets_in (codes "iqn.2026-11.a:b b twelve-bytes" ++ 10 ∷ codes "iqn.2026-11.a:b b twelve-bytes" ++ 10 ∷ codes "iqn.2026-11.a:b") ≡ Err (2, UserTwice) }
    ensures own_fault { secrets_in (codes "iqn.2026-11.a:b b twelve-bytes" ++ 10 ∷ codes "iqn.2026-11.a:b b") ≡ Err (2, FieldCount) }
    ensures user_in_capital_letters { secrets_in (codes "iqn.2026-11.a:b b twelve-bytes" ++ 10 ∷ codes "iqn.2026-11.a:b B twelve-bytes") ≡ Ok (
        numbered 1 (record { host = codes "iqn.2026-11.a:b"; own = credentials (codes "b") (codes "twelve-bytes"); target = None })
        ∷ numbered 2 (record { host = codes "iqn.2026-11.a:b"; own = credentials (codes "B") (codes "twelve-bytes"); target = None }) ∷ []) }
    ensures another_host { secrets_in (codes "iqn.2026-11.a:b b twelve-bytes" ++ 10 ∷ codes "iqn.2026-11.a:c b twelve-bytes") ≡ Ok (
        numbered 1 (record { host = codes "iqn.2026-11.a:b"; own = credentials (codes "b") (codes "twelve-bytes"); target = None })
        ∷ numbered 2 (record { host = codes "iqn.2026-11.a:c"; own = credentials (codes "b") (codes "twelve-bytes"); target = None }) ∷ []) }
{}

/// Worked rows: no secret of the target is a host's, on whichever of two lines it stands first; targets may share one.
#[tactic(auto, unfolding(crate::specs::Secrets::line_entry, crate::specs::Secrets::first_word))]
pub fn mirrored_rows()
    ensures host_before_target { secrets_in (codes "iqn.2026-11.a:b b twelve-bytes" ++ 10 ∷ codes "iqn.2026-11.a:c c twelve-more- t twelve-bytes") ≡ Err (2, SecretOfHost 1) }
    ensures target_before_host { secrets_in (codes "iqn.2026-11.a:c c twelve-more- t twelve-bytes" ++ 10 ∷ codes "iqn.2026-11.a:b b twelve-bytes") ≡ Err (2, SecretOfTarget 1) }
    ensures behind_a_comment { secrets_in (codes "#" ++ 10 ∷ codes "iqn.2026-11.a:b b twelve-bytes" ++ 10 ∷ codes "#" ++ 10 ∷ codes "iqn.2026-11.a:c c twelve-more- t twelve-bytes") ≡ Err (4, SecretOfHost 2) }
    ensures of_one_host { secrets_in (codes "iqn.2026-11.a:b b twelve-bytes" ++ 10 ∷ codes "iqn.2026-11.a:b c twelve-more- t twelve-bytes") ≡ Err (2, SecretOfHost 1) }
    ensures one_for_both_hosts { secrets_in (codes "iqn.2026-11.a:b b twelve-bytes t twelve-other" ++ 10 ∷ codes "iqn.2026-11.a:c c twelve-more- t twelve-other") ≡ Ok (
        numbered 1 (record { host = codes "iqn.2026-11.a:b"; own = credentials (codes "b") (codes "twelve-bytes"); target = Some (credentials (codes "t") (codes "twelve-other")) })
        ∷ numbered 2 (record { host = codes "iqn.2026-11.a:c"; own = credentials (codes "c") (codes "twelve-more-"); target = Some (credentials (codes "t") (codes "twelve-other")) }) ∷ []) }
{}
