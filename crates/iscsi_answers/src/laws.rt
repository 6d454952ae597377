ghost use Rattle.std.specs.Prelude.{◌≡◌, ◌≤◌, ◌+◌, ◌++◌, ℕ, true, false, All, List, [], codes, length};
ghost use Rattle.iscsi_pdu.specs.Pdus.{TargetPduValue};
ghost use Rattle.iscsi_pdu.specs.declared.residual.Residual.TheVariants.{Exact, Overflow, Underflow};
ghost use Rattle.iscsi_answers.specs.declared.command_answer.AnsweredCommand.{AnsweredCommand};
ghost use Rattle.iscsi_answers.specs.declared.data_in.Transfer.{Transfer};
ghost use Rattle.iscsi_answers.specs.CommandAnswers.{residual_of, residual_between, transferable};
ghost use Rattle.iscsi_answers.specs.DataIns.{data_ins};
ghost use Rattle.iscsi_answers.specs.Laws.{over, under, payloads};
ghost use Rattle.iscsi_keys.specs.Texts.{item_bytes};
ghost use Rattle.iscsi_answers.specs.Repeats.{is_overdone};
ghost use Rattle.iscsi_answers.specs.Rows.{numbered};

/// Law: the data segments of a command's Data-In, put together, are the data that are sent.
pub fn data_are_whole()
    ensures { (t : Transfer) (bytes : List ℕ) → payloads (data_ins t bytes) ≡ bytes }
{}

/// Law: none of them is longer than the initiator takes.
pub fn segments_are_short()
    ensures { (t : Transfer) (bytes : List ℕ) → All (λ (p : TargetPduValue). length p.payload ≤ t.limits.max_data_segment_length) (data_ins t bytes) }
{}

/// Law: what there was, and what is told as missing, is what was expected, and what is told as over.
pub fn residual_balances()
    ensures { (c : AnsweredCommand) (bytes : List ℕ) → transferable c bytes + under (residual_of c bytes) ≡ c.expected_data_transfer_length + over (residual_of c bytes) }
{}

/// Worked rows: 36 bytes where 255 are expected, 8 where 4 are, and all of 512.
pub fn residual_rows()
    ensures shorter { residual_between 255 36 ≡ Underflow 219 }
    ensures longer { residual_between 4 8 ≡ Overflow 4 }
    ensures whole { residual_between 512 512 ≡ Exact }
{}

/// Worked rows: texts that have a key twice, and texts of 64 keys and of 65.
pub fn repeat_rows()
    ensures nothing { is_overdone [] ≡ false }
    ensures once { is_overdone (item_bytes (codes "X-a") (codes "1") ++ item_bytes (codes "X-b") (codes "1")) ≡ false }
    ensures twice { is_overdone (item_bytes (codes "X-a") (codes "1") ++ item_bytes (codes "X-a") (codes "1")) ≡ true }
    ensures another_value { is_overdone (item_bytes (codes "SendTargets") (codes "All") ++ item_bytes (codes "X-a") (codes "1") ++ item_bytes (codes "SendTargets") []) ≡ true }
    ensures another_case { is_overdone (item_bytes (codes "X-a") (codes "1") ++ item_bytes (codes "X-A") (codes "1")) ≡ false }
    ensures longer { is_overdone (item_bytes (codes "X-a") (codes "1") ++ item_bytes (codes "X-ab") (codes "1")) ≡ false }
    ensures without_a_name { is_overdone (item_bytes [] (codes "1") ++ item_bytes [] (codes "2")) ≡ true }
    ensures most { is_overdone (numbered 64) ≡ false }
    ensures one_more { is_overdone (numbered 65) ≡ true }
{}
