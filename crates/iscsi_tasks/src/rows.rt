ghost use Rattle.std.specs.Prelude.{◌≡◌, true, false, [], ◌∷◌, Some, None, Ok};
ghost use Rattle.iscsi_pdu.specs.declared.reject_reason.RejectReason.TheVariants.{TaskInProgress, TooManyImmediateCommands};
ghost use Rattle.iscsi_tasks.specs.declared.awaiting.Awaiting.TheVariants.{Turn, Data, Failing, Failed};
ghost use Rattle.iscsi_tasks.specs.declared.fault.TaskFault.TheVariants.{UnexpectedUnsolicitedData, IncorrectAmountOfData, DataOffsetError};
ghost use Rattle.iscsi_tasks.specs.declared.taken.TakenCommand.TheVariants.{PassedOver, Rejected, Execute};
ghost use Rattle.tickets.specs.declared.ticket.Outcome.TheVariants.{Kept, Lost};
ghost use Rattle.iscsi_tasks.specs.declared.held_reply.Response.TheVariants.{Replied, TargetFailure};
ghost use Rattle.iscsi_tasks.specs.Limits.{most_held};
ghost use Rattle.iscsi_tasks.specs.Values.{begun_tasks};
ghost use Rattle.iscsi_tasks.specs.Writes.{wanted, first_awaited, data_fault};
ghost use Rattle.iscsi_tasks.specs.Windows.{max_cmd_sn};
ghost use Rattle.iscsi_tasks.specs.Commands.{is_taken, counted, command_answer, missing_number};
ghost use Rattle.iscsi_tasks.specs.Aborts.{is_waiting_at, reset_by_another, was_reset, without_task, without_unit};
ghost use Rattle.iscsi_tasks.specs.Holding.{answers_due, with_held, without_due};
ghost use Rattle.iscsi_tasks.specs.Next.{tag_after};
ghost use Rattle.iscsi_tasks.specs.Rows.{after_numbers, with_tags, sn, bursts, write, data_out, begun, tagged, urgent, alone, behind, handing, good, reply_to};
ghost use Rattle.iscsi_tasks.specs.Rows.{holding, reply_with_record, ticket_for, ticket_with_record};

/// Worked rows: what writes wait for, and what is wrong with Data-Out.
pub fn data_rows()
    ensures most { wanted 131053 (write 0xFFFFFFFF true) ≡ 131053 }
    ensures immediate { first_awaited (bursts true false) (write 4 true) 4 ≡ Turn }
    ensures unsolicited { first_awaited (bursts true false) (write 9 false) 2 ≡ Data (record { target_transfer_tag = 0xFFFFFFFF; end = 6; data_sn = sn 0 }) }
    ensures beyond_first_burst { first_awaited (bursts true false) (write 9 true) 7 ≡ Failed IncorrectAmountOfData }
    ensures beyond_announced { first_awaited (bursts true false) (write 2 true) 3 ≡ Failed IncorrectAmountOfData }
    ensures no_immediate_data { first_awaited (bursts false false) (write 9 true) 1 ≡ Failed UnexpectedUnsolicitedData }
    ensures no_unsolicited_data { first_awaited (bursts true true) (write 9 false) 1 ≡ Failing UnexpectedUnsolicitedData }
    ensures last { data_fault begun 3 (data_out 5 1 3 true) 5 ≡ None }
    ensures no_bytes { data_fault begun 3 (data_out 5 1 3 false) 0 ≡ None }
    ensures another_tag { data_fault begun 3 (data_out 4 1 3 true) 5 ≡ Some UnexpectedUnsolicitedData }
    ensures another_place { data_fault begun 3 (data_out 5 1 4 true) 4 ≡ Some DataOffsetError }
    ensures another_number { data_fault begun 3 (data_out 5 0 3 true) 5 ≡ Some DataOffsetError }
    ensures too_much { data_fault begun 3 (data_out 5 1 3 false) 6 ≡ Some IncorrectAmountOfData }
    ensures too_little { data_fault begun 3 (data_out 5 1 3 true) 4 ≡ Some IncorrectAmountOfData }
{}

/// Worked rows: the numbers of a session, round the circle.
pub fn number_rows()
    ensures held { most_held ≡ 3407872 }
    ensures window { max_cmd_sn (begun_tasks (bursts true false) 12 (sn 0xFFFFFFFF)) ≡ sn 30 }
    ensures next { counted (begun_tasks (bursts true false) 12 (sn 0xFFFFFFFF)) false ≡ begun_tasks (bursts true false) 12 (sn 0) }
    ensures half_the_circle_away { is_taken (begun_tasks (bursts true false) 12 (sn 5)) false (sn 0x80000005) ≡ false }
    ensures tag { tag_after 0xFFFFFFFD ≡ 0xFFFFFFFE }
    ensures tag_round { tag_after 0xFFFFFFFE ≡ 0 }
{}

/// Worked rows: the command window. What an initiator may send ahead is MaxCmdSN - ExpCmdSN + 1 (RFC 7143, "Command Numbering and
/// Acknowledging"): 32 at first, one less for each command that isn't answered, and nothing while MaxCmdSN is one below ExpCmdSN.
pub fn window_rows()
    ensures at_first { max_cmd_sn alone ≡ sn 32 }
    ensures in_hand { max_cmd_sn (handing (write 4 true)) ≡ sn 31 }
    ensures in_hand_immediate { max_cmd_sn (handing (urgent (write 4 true))) ≡ sn 32 }
    ensures held { max_cmd_sn (holding (reply_to (write 4 true) 7 1 ∷ reply_to (tagged 2 (write 4 true)) 7 2 ∷ [])) ≡ sn 30 }
    ensures held_immediate { max_cmd_sn (holding (reply_to (urgent (write 4 true)) 7 1 ∷ [])) ≡ sn 32 }
    ensures one_left { max_cmd_sn (behind (write 4 true) 31) ≡ sn 1 }
    ensures closed { max_cmd_sn (behind (write 4 true) 32) ≡ sn 0 }
    ensures last { is_taken (behind (write 4 true) 31) false (sn 1) ≡ true }
    ensures beyond { is_taken (behind (write 4 true) 32) false (sn 1) ≡ false }
    ensures beyond_immediate { is_taken (behind (write 4 true) 32) true (sn 1) ≡ true }
    ensures passed_over { command_answer (behind (write 4 true) 32) (tagged 2 (write 4 true)) [] ≡ Ok PassedOver }
    ensures crowded { command_answer (behind (urgent (write 4 true)) 32) (tagged 2 (urgent (write 4 true))) []
        ≡ Ok (Rejected TooManyImmediateCommands) }
    ensures in_use { command_answer (holding (reply_to (write 4 true) 7 1 ∷ [])) (write 0 true) [] ≡ Ok (Rejected TaskInProgress) }
    ensures another_tag { command_answer (holding (reply_to (write 4 true) 7 1 ∷ [])) (tagged 2 (write 0 true)) [] ≡ Ok (Execute 0) }
{}

/// Worked rows: replies that are held, of the volumes 7 and 8. A reply with LUN 0 is of unit 0.
pub fn holding_rows()
    ensures holds { with_held (handing (write 4 true)) good (ticket_for 7 1)
        ≡ holding (reply_to (write 4 true) 7 1 ∷ []) }
    ensures kept { answers_due (ticket_for 7 2) Kept
        (reply_to (write 4 true) 7 2 ∷ reply_to (write 4 true) 8 1 ∷ reply_to (write 4 true) 7 3 ∷ [])
        ≡ record { command = write 4 true; response = Replied good } ∷ [] }
    ensures lost { answers_due (ticket_for 8 1) Lost (reply_to (write 4 true) 7 2 ∷ reply_to (write 4 true) 8 1 ∷ [])
        ≡ record { command = write 4 true; response = TargetFailure } ∷ [] }
    ensures stay { without_due (holding (reply_to (write 4 true) 7 2 ∷ reply_to (write 4 true) 8 1 ∷ []))
        (ticket_for 8 1)
        ≡ holding (reply_to (write 4 true) 7 2 ∷ []) }
    ensures both { answers_due (ticket_with_record 7 2 9) Kept (reply_with_record (write 4 true) 7 2 9 ∷ [])
        ≡ record { command = write 4 true; response = Replied good } ∷ [] }
    ensures another_record { answers_due (ticket_with_record 7 2 9) Kept
        (reply_to (write 4 true) 7 2 ∷ reply_with_record (write 4 true) 7 2 8 ∷ []) ≡ [] }
    ensures there { is_waiting_at (holding (reply_to (write 4 true) 7 1 ∷ [])) 0 1 ≡ true }
    ensures not_there { is_waiting_at (holding (reply_to (write 4 true) 7 1 ∷ [])) 1 1 ≡ false }
    ensures aborted { (without_task (holding (reply_to (write 4 true) 7 1 ∷ reply_to (tagged 2 (write 4 true)) 7 2 ∷ [])) 0 1).replies
        ≡ reply_to (tagged 2 (write 4 true)) 7 2 ∷ [] }
    ensures reset { (without_unit (holding (reply_to (write 4 true) 7 1 ∷ [])) 0).replies ≡ [] }
    ensures another_unit { without_unit (holding (reply_to (write 4 true) 7 1 ∷ [])) 1 ≡ holding (reply_to (write 4 true) 7 1 ∷ []) }
{}

/// Worked rows: a gap in the numbers. Commands behind it are passed over, so that theirs are awaited too.
pub fn gap_rows()
    ensures at_first { missing_number alone ≡ None }
    ensures in_order { missing_number (after_numbers alone (1 ∷ 2 ∷ [])) ≡ None }
    ensures gap { missing_number (after_numbers alone (2 ∷ [])) ≡ Some (sn 1) }
    ensures behind_one { missing_number (after_numbers alone (1 ∷ 3 ∷ [])) ≡ Some (sn 2) }
    ensures came_late { missing_number (after_numbers alone (2 ∷ 1 ∷ [])) ≡ Some (sn 2) }
    ensures closed { missing_number (after_numbers alone (2 ∷ 1 ∷ 2 ∷ [])) ≡ None }
    ensures furthest { missing_number (after_numbers alone (4 ∷ 2 ∷ 1 ∷ 2 ∷ 3 ∷ [])) ≡ Some (sn 4) }
    ensures a_second_time { missing_number (after_numbers alone (1 ∷ 1 ∷ [])) ≡ None }
    ensures last { missing_number (after_numbers alone (32 ∷ [])) ≡ Some (sn 1) }
    ensures beyond { missing_number (after_numbers alone (33 ∷ [])) ≡ None }
    ensures last_behind_others { missing_number (after_numbers (with_tags 31) (1 ∷ [])) ≡ None }
    ensures beyond_behind_others { missing_number (after_numbers (with_tags 31) (2 ∷ [])) ≡ None }
    ensures round { missing_number (after_numbers (record alone { exp_cmd_sn = sn 0xFFFFFFFF }) (1 ∷ [])) ≡ Some (sn 0xFFFFFFFF) }
{}

/// Worked rows: tasks that a reset by another session drops. Of 33 the first is forgotten.
pub fn reset_rows()
    ensures waits { was_reset (with_tags 1) 0 1 ≡ false }
    ensures dropped { was_reset (reset_by_another (with_tags 1) 0) 0 1 ≡ true }
    ensures goes { (reset_by_another (with_tags 2) 0).waiting ≡ [] }
    ensures another_tag { was_reset (reset_by_another (with_tags 1) 0) 0 2 ≡ false }
    ensures another_unit { was_reset (reset_by_another (with_tags 1) 0) 1 1 ≡ false }
    ensures elsewhere { reset_by_another (with_tags 1) 1 ≡ with_tags 1 }
    ensures its_own { was_reset (without_unit (with_tags 1) 0) 0 1 ≡ false }
    ensures held { was_reset (reset_by_another (holding (reply_to (write 4 true) 7 1 ∷ [])) 0) 0 1 ≡ true }
    ensures as_many { was_reset (reset_by_another (with_tags 32) 0) 0 1 ≡ true }
    ensures first { was_reset (reset_by_another (with_tags 33) 0) 0 1 ≡ false }
    ensures second { was_reset (reset_by_another (with_tags 33) 0) 0 2 ≡ true }
    ensures later { was_reset (reset_by_another (with_tags 33) 0) 0 33 ≡ true }
{}

ghost use Rattle.std.specs.Prelude.{map};
ghost use Rattle.iscsi_tasks.specs.OwnData.{came_for, piece};
ghost use Rattle.iscsi_tasks.specs.Rows.{at_number, in_halves, one_tag_twice};
ghost use Rattle.iscsi_tasks.specs.Runs.{Commanded, executed};

/// Worked rows: what has come for a command. A second one under a tag has nothing of the first; without W nothing that comes is
/// data; and what comes with a command that is rejected since its tag is in use is none of the data of the one that waits.
pub fn own_data_rows()
    ensures first { came_for 1 alone (in_halves 1 0 (7 ∷ 8 ∷ []) (9 ∷ 10 ∷ [])) [] ≡ piece 0 (7 ∷ 8 ∷ []) ∷ piece 2 (9 ∷ 10 ∷ []) ∷ [] }
    ensures second { came_for 1 alone one_tag_twice [] ≡ piece 0 (1 ∷ 2 ∷ []) ∷ piece 2 (3 ∷ 4 ∷ []) ∷ [] }
    ensures another_tag { came_for 2 alone one_tag_twice [] ≡ [] }
    ensures executed { map (λ e. e.bytes) (executed alone one_tag_twice) ≡ (7 ∷ 8 ∷ 9 ∷ 10 ∷ []) ∷ (1 ∷ 2 ∷ 3 ∷ 4 ∷ []) ∷ [] }
    ensures no_data { came_for 1 alone (Commanded (record (write 0 true) { writes = false }) (7 ∷ []) ∷ []) [] ≡ [] }
    ensures in_use { came_for 1 alone (Commanded (write 4 true) (7 ∷ []) ∷ Commanded (at_number 2 (write 4 true)) (8 ∷ []) ∷ []) []
        ≡ piece 0 (7 ∷ []) ∷ [] }
{}
