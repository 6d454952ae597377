ghost use Rattle.std.specs.Prelude.{◌≡◌, ◌<◌, ◌+◌, ◌==◌, ◌||◌, nat_lt, IsTrue, true, false, ℕ, [], ◌∷◌, ◌++◌, length, take, drop, replicate, Ok, Err, Some, None, is_some};
ghost use Rattle.std.specs.List.{list_all};
ghost use Rattle.scsi_sense.specs.declared.condition.Condition.TheVariants.{InvalidFieldInCdb};
ghost use Rattle.scsi_cdb.specs.Commands.{in_service_action};
ghost use Rattle.scsi_cdb.specs.ServiceActions.{out_service_action};
ghost use Rattle.scsi_cdb.specs.declared.kind.Kind.{Kind};
ghost use Rattle.scsi_cdb.specs.declared.kind.Kind.TheVariants.{Drive, Changer};
ghost use Rattle.supported_commands.specs.declared.options.ReportingOptions.{ReportingOptions};
ghost use Rattle.supported_commands.specs.declared.options.ReportingOptions.TheVariants.{All, OneWithoutServiceActions, OneWithServiceAction, Either};
ghost use Rattle.supported_commands.specs.Options.{options_at};
ghost use Rattle.supported_commands.specs.Commands.{table, commands_of};
ghost use Rattle.supported_commands.specs.Answers.{all_commands, operation_codes};
ghost use Rattle.supported_commands.specs.TaskManagement.{task_management};
ghost use Rattle.supported_commands.specs.Laws.{ListsEachCode, asked, has_action, has_cdb_length, is_well_formed, has_action_where_due, is_ascending};

/// Law: the operation codes that are listed for a kind of unit are those of its commands in the hosts' profile.
pub fn listed_codes()
    ensures { ListsEachCode }
{}

/// Law: the service actions that are listed are those that a CDB may have; of READ POSITION the short forms, with block identifiers
/// and vendor specific ones.
pub fn listed_service_actions()
    ensures reserve_in { (kind : Kind) (a : ℕ) → a < 0x20 → has_action kind 0x5E a ≡ is_some (in_service_action a) }
    ensures reserve_out { (kind : Kind) (a : ℕ) → a < 0x20 → has_action kind 0x5F a ≡ is_some (out_service_action a) }
    ensures read_position { (a : ℕ) → a < 0x20 → has_action Drive 0x34 a ≡ nat_lt a 2 }
    ensures maintenance_in { (kind : Kind) (a : ℕ) → a < 0x20 → has_action kind 0xA3 a ≡ (a == 0x0C || a == 0x0D) }
{}

/// Law: CDB USAGE DATA is as long as the command's CDB, begins with the operation code and has the service action in byte 1; four
/// operation codes have service actions; the commands ascend; a drive has 37 of them, and a changer 30.
#[tactic(auto, unfolding(crate::specs::Commands::table, scsi_cdb::specs::Commands::command_of))]
pub fn commands_are_well_formed()
    ensures cdb_length { IsTrue (list_all has_cdb_length table) }
    ensures usage { IsTrue (list_all is_well_formed table) }
    ensures service_actions { IsTrue (list_all has_action_where_due table) }
    ensures drives_ascend { IsTrue (is_ascending (commands_of Drive)) }
    ensures changers_ascend { IsTrue (is_ascending (commands_of Changer)) }
    ensures drives_have { length (commands_of Drive) ≡ 37 }
    ensures changers_have { length (commands_of Changer) ≡ 30 }
{}

/// Worked rows of the data of all commands: how many bytes follow, the first and the last descriptor.
#[tactic(auto, unfolding(crate::specs::Commands::table))]
pub fn worked_rows_of_all_commands()
    ensures drive { take 12 (all_commands Drive false)
        ≡ 0x00 ∷ 0x00 ∷ 0x01 ∷ 0x28 ∷ 0x00 ∷ 0x00 ∷ 0x00 ∷ 0x00 ∷ 0x00 ∷ 0x00 ∷ 0x00 ∷ 0x06 ∷ [] }
    ensures drive_length { length (all_commands Drive false) ≡ 4 + 296 }
    ensures drive_last { drop 292 (all_commands Drive false)
        ≡ 0xA3 ∷ 0x00 ∷ 0x00 ∷ 0x0D ∷ 0x00 ∷ 0x01 ∷ 0x00 ∷ 0x0C ∷ [] }
    ensures drive_timeouts { take 24 (all_commands Drive true)
        ≡ 0x00 ∷ 0x00 ∷ 0x02 ∷ 0xE4 ∷ 0x00 ∷ 0x00 ∷ 0x00 ∷ 0x00 ∷ 0x00 ∷ 0x02 ∷ 0x00 ∷ 0x06
        ∷ 0x00 ∷ 0x0A ∷ 0x00 ∷ 0x00 ∷ 0x00 ∷ 0x00 ∷ 0x00 ∷ 0x01 ∷ 0x00 ∷ 0x00 ∷ 0x00 ∷ 0x3C ∷ [] }
    ensures drive_timeouts_length { length (all_commands Drive true) ≡ 4 + 740 }
    ensures drive_timeouts_last { drop 724 (all_commands Drive true)
        ≡ 0xA3 ∷ 0x00 ∷ 0x00 ∷ 0x0D ∷ 0x00 ∷ 0x03 ∷ 0x00 ∷ 0x0C
        ∷ 0x00 ∷ 0x0A ∷ 0x00 ∷ 0x00 ∷ 0x00 ∷ 0x00 ∷ 0x00 ∷ 0x01 ∷ 0x00 ∷ 0x00 ∷ 0x00 ∷ 0x3C ∷ [] }
    ensures changer { take 12 (all_commands Changer false)
        ≡ 0x00 ∷ 0x00 ∷ 0x00 ∷ 0xF0 ∷ 0x00 ∷ 0x00 ∷ 0x00 ∷ 0x00 ∷ 0x00 ∷ 0x00 ∷ 0x00 ∷ 0x06 ∷ [] }
    ensures changer_length { length (all_commands Changer false) ≡ 4 + 240 }
    ensures changer_last { drop 236 (all_commands Changer false)
        ≡ 0xB8 ∷ 0x00 ∷ 0x00 ∷ 0x00 ∷ 0x00 ∷ 0x00 ∷ 0x00 ∷ 0x0C ∷ [] }
    ensures changer_timeouts { take 24 (all_commands Changer true)
        ≡ 0x00 ∷ 0x00 ∷ 0x02 ∷ 0x58 ∷ 0x00 ∷ 0x00 ∷ 0x00 ∷ 0x00 ∷ 0x00 ∷ 0x02 ∷ 0x00 ∷ 0x06
        ∷ 0x00 ∷ 0x0A ∷ 0x00 ∷ 0x00 ∷ 0x00 ∷ 0x00 ∷ 0x00 ∷ 0x01 ∷ 0x00 ∷ 0x00 ∷ 0x00 ∷ 0x3C ∷ [] }
    ensures changer_timeouts_length { length (all_commands Changer true) ≡ 4 + 600 }
    ensures changer_timeouts_last { drop 584 (all_commands Changer true)
        ≡ 0xB8 ∷ 0x00 ∷ 0x00 ∷ 0x00 ∷ 0x00 ∷ 0x02 ∷ 0x00 ∷ 0x0C
        ∷ 0x00 ∷ 0x0A ∷ 0x00 ∷ 0x00 ∷ 0x00 ∷ 0x00 ∷ 0x00 ∷ 0x01 ∷ 0x00 ∷ 0x00 ∷ 0x01 ∷ 0x2C ∷ [] }
    ensures answered { (operation_codes Changer (asked false All 0x5E 9) ≡ Ok (all_commands Changer false)) }
{}

/// Worked rows of the data of one command that has no service actions.
#[tactic(auto, unfolding(crate::specs::Commands::table))]
pub fn worked_rows_without_service_actions()
    ensures read { operation_codes Drive (asked false OneWithoutServiceActions 0x08 0)
        ≡ Ok (0x00 ∷ 0x03 ∷ 0x00 ∷ 0x06 ∷ 0x08 ∷ 0x03 ∷ 0xFF ∷ 0xFF ∷ 0xFF ∷ 0x04 ∷ []) }
    ensures read_with_timeouts { operation_codes Drive (asked true OneWithoutServiceActions 0x08 0)
        ≡ Ok (0x00 ∷ 0x83 ∷ 0x00 ∷ 0x06 ∷ 0x08 ∷ 0x03 ∷ 0xFF ∷ 0xFF ∷ 0xFF ∷ 0x04
        ∷ 0x00 ∷ 0x0A ∷ 0x00 ∷ 0x00 ∷ 0x00 ∷ 0x00 ∷ 0x00 ∷ 0x01 ∷ 0x00 ∷ 0x00 ∷ 0x03 ∷ 0x84 ∷ []) }
    ensures rewind_with_timeouts { operation_codes Drive (asked true Either 0x01 0)
        ≡ Ok (0x00 ∷ 0x83 ∷ 0x00 ∷ 0x06 ∷ 0x01 ∷ 0x00 ∷ 0x00 ∷ 0x00 ∷ 0x00 ∷ 0x04
        ∷ 0x00 ∷ 0x0A ∷ 0x00 ∷ 0x00 ∷ 0x00 ∷ 0x00 ∷ 0x00 ∷ 0x01 ∷ 0x00 ∷ 0x00 ∷ 0x38 ∷ 0x40 ∷ []) }
    ensures service_action_is_ignored { operation_codes Drive (asked false OneWithoutServiceActions 0x08 7)
        ≡ operation_codes Drive (asked false OneWithoutServiceActions 0x08 0) }
    ensures either { operation_codes Drive (asked false Either 0x2B 0)
        ≡ Ok (0x00 ∷ 0x03 ∷ 0x00 ∷ 0x0A ∷ 0x2B ∷ 0x02 ∷ 0x00 ∷ 0xFF ∷ 0xFF ∷ 0xFF ∷ 0xFF ∷ 0x00 ∷ 0xFF ∷ 0x04 ∷ []) }
    ensures no_such_service_action { operation_codes Drive (asked true Either 0x08 1) ≡ Ok (0x00 ∷ 0x01 ∷ 0x00 ∷ 0x00 ∷ []) }
    ensures refused { operation_codes Drive (asked false OneWithServiceAction 0x08 0) ≡ Err InvalidFieldInCdb }
    ensures unknown { operation_codes Drive (asked false OneWithoutServiceActions 0xE5 0) ≡ Ok (0x00 ∷ 0x01 ∷ 0x00 ∷ 0x00 ∷ []) }
    ensures unknown_with_service_action { operation_codes Drive (asked true OneWithServiceAction 0xE5 3)
        ≡ Ok (0x00 ∷ 0x01 ∷ 0x00 ∷ 0x00 ∷ []) }
    ensures unknown_either { operation_codes Changer (asked false Either 0xE5 0) ≡ Ok (0x00 ∷ 0x01 ∷ 0x00 ∷ 0x00 ∷ []) }
    ensures read_of_a_changer { operation_codes Changer (asked true OneWithoutServiceActions 0x08 0) ≡ Ok (0x00 ∷ 0x01 ∷ 0x00 ∷ 0x00 ∷ []) }
    ensures read_of_a_changer_with_service_action { operation_codes Changer (asked false OneWithServiceAction 0x08 0)
        ≡ Ok (0x00 ∷ 0x01 ∷ 0x00 ∷ 0x00 ∷ []) }
    ensures move_of_a_drive { operation_codes Drive (asked false Either 0xA5 0) ≡ Ok (0x00 ∷ 0x01 ∷ 0x00 ∷ 0x00 ∷ []) }
    ensures mode_select_of_a_changer { operation_codes Changer (asked false OneWithoutServiceActions 0x55 0)
        ≡ Ok (0x00 ∷ 0x01 ∷ 0x00 ∷ 0x00 ∷ []) }
    ensures read_element_status { operation_codes Changer (asked false OneWithoutServiceActions 0xB8 0)
        ≡ Ok (0x00 ∷ 0x03 ∷ 0x00 ∷ 0x0C ∷ 0xB8 ∷ 0x1F ∷ 0xFF ∷ 0xFF ∷ 0xFF ∷ 0xFF ∷ 0x03 ∷ 0xFF ∷ 0xFF ∷ 0xFF ∷ 0x00 ∷ 0x04 ∷ []) }
    ensures position_to_element { operation_codes Changer (asked true OneWithoutServiceActions 0x2B 0)
        ≡ Ok (0x00 ∷ 0x83 ∷ 0x00 ∷ 0x0A ∷ 0x2B ∷ 0x00 ∷ 0xFF ∷ 0xFF ∷ 0xFF ∷ 0xFF ∷ 0x00 ∷ 0x00 ∷ 0x01 ∷ 0x04
        ∷ 0x00 ∷ 0x0A ∷ 0x00 ∷ 0x00 ∷ 0x00 ∷ 0x00 ∷ 0x00 ∷ 0x01 ∷ 0x00 ∷ 0x00 ∷ 0x01 ∷ 0x2C ∷ []) }
    ensures locate_with_timeouts { operation_codes Drive (asked true OneWithoutServiceActions 0x2B 0)
        ≡ Ok (0x00 ∷ 0x83 ∷ 0x00 ∷ 0x0A ∷ 0x2B ∷ 0x02 ∷ 0x00 ∷ 0xFF ∷ 0xFF ∷ 0xFF ∷ 0xFF ∷ 0x00 ∷ 0xFF ∷ 0x04
        ∷ 0x00 ∷ 0x0A ∷ 0x00 ∷ 0x00 ∷ 0x00 ∷ 0x00 ∷ 0x00 ∷ 0x01 ∷ 0x00 ∷ 0x00 ∷ 0x38 ∷ 0x40 ∷ []) }
    ensures initialize_with_range { operation_codes Changer (asked true Either 0x37 0)
        ≡ Ok (0x00 ∷ 0x83 ∷ 0x00 ∷ 0x0A ∷ 0x37 ∷ 0x00 ∷ 0x00 ∷ 0x00 ∷ 0x00 ∷ 0x00 ∷ 0x00 ∷ 0x00 ∷ 0x00 ∷ 0x04
        ∷ 0x00 ∷ 0x0A ∷ 0x00 ∷ 0x00 ∷ 0x00 ∷ 0x00 ∷ 0x00 ∷ 0x01 ∷ 0x00 ∷ 0x00 ∷ 0x0E ∷ 0x10 ∷ []) }
    ensures initialize_with_range_of_a_drive { operation_codes Drive (asked false OneWithoutServiceActions 0x37 0)
        ≡ Ok (0x00 ∷ 0x01 ∷ 0x00 ∷ 0x00 ∷ []) }
    ensures exchange_medium { operation_codes Changer (asked true Either 0xA6 0)
        ≡ Ok (0x00 ∷ 0x83 ∷ 0x00 ∷ 0x0C ∷ 0xA6 ∷ 0x00 ∷ 0xFF ∷ 0xFF ∷ 0xFF ∷ 0xFF ∷ 0xFF ∷ 0xFF ∷ 0xFF ∷ 0xFF ∷ 0x03 ∷ 0x04
        ∷ 0x00 ∷ 0x0A ∷ 0x00 ∷ 0x00 ∷ 0x00 ∷ 0x00 ∷ 0x00 ∷ 0x01 ∷ 0x00 ∷ 0x00 ∷ 0x01 ∷ 0x2C ∷ []) }
    ensures exchange_medium_of_a_drive { operation_codes Drive (asked false Either 0xA6 0) ≡ Ok (0x00 ∷ 0x01 ∷ 0x00 ∷ 0x00 ∷ []) }
    ensures send_diagnostic { operation_codes Changer (asked false OneWithoutServiceActions 0x1D 0)
        ≡ Ok (0x00 ∷ 0x03 ∷ 0x00 ∷ 0x06 ∷ 0x1D ∷ 0xE4 ∷ 0x00 ∷ 0xFF ∷ 0xFF ∷ 0x04 ∷ []) }
{}

/// Worked rows of the data of one command by its service action.
#[tactic(auto, unfolding(crate::specs::Commands::table))]
pub fn worked_rows_of_service_actions()
    ensures refused { operation_codes Drive (asked false OneWithoutServiceActions 0x5E 0) ≡ Err InvalidFieldInCdb }
    ensures refused_read_position { operation_codes Drive (asked true OneWithoutServiceActions 0x34 0) ≡ Err InvalidFieldInCdb }
    ensures read_full_status { operation_codes Changer (asked false OneWithServiceAction 0x5E 3)
        ≡ Ok (0x00 ∷ 0x03 ∷ 0x00 ∷ 0x0A ∷ 0x5E ∷ 0x03 ∷ 0x00 ∷ 0x00 ∷ 0x00 ∷ 0x00 ∷ 0x00 ∷ 0xFF ∷ 0xFF ∷ 0x04 ∷ []) }
    ensures no_fifth_of_reserve_in { operation_codes Drive (asked true OneWithServiceAction 0x5E 4) ≡ Ok (0x00 ∷ 0x01 ∷ 0x00 ∷ 0x00 ∷ []) }
    ensures register_and_move { operation_codes Drive (asked false Either 0x5F 7)
        ≡ Ok (0x00 ∷ 0x03 ∷ 0x00 ∷ 0x0A ∷ 0x5F ∷ 0x07 ∷ 0xFF ∷ 0x00 ∷ 0x00 ∷ 0xFF ∷ 0xFF ∷ 0xFF ∷ 0xFF ∷ 0x04 ∷ []) }
    ensures no_ninth_of_reserve_out { operation_codes Changer (asked false Either 0x5F 8) ≡ Ok (0x00 ∷ 0x01 ∷ 0x00 ∷ 0x00 ∷ []) }
    ensures high_byte_counts { operation_codes Drive (asked false Either 0x5F 0x0107) ≡ Ok (0x00 ∷ 0x01 ∷ 0x00 ∷ 0x00 ∷ []) }
    ensures short_form_vendor_specific { operation_codes Drive (asked false OneWithServiceAction 0x34 1)
        ≡ Ok (0x00 ∷ 0x03 ∷ 0x00 ∷ 0x0A ∷ 0x34 ∷ 0x01 ∷ 0x00 ∷ 0x00 ∷ 0x00 ∷ 0x00 ∷ 0x00 ∷ 0x00 ∷ 0x00 ∷ 0x04 ∷ []) }
    ensures no_long_form { operation_codes Drive (asked false OneWithServiceAction 0x34 6) ≡ Ok (0x00 ∷ 0x01 ∷ 0x00 ∷ 0x00 ∷ []) }
    ensures read_position_of_a_changer { operation_codes Changer (asked false OneWithServiceAction 0x34 0)
        ≡ Ok (0x00 ∷ 0x01 ∷ 0x00 ∷ 0x00 ∷ []) }
    ensures itself { operation_codes Changer (asked true OneWithServiceAction 0xA3 0x0C)
        ≡ Ok (0x00 ∷ 0x83 ∷ 0x00 ∷ 0x0C ∷ 0xA3 ∷ 0x0C ∷ 0x87 ∷ 0xFF ∷ 0xFF ∷ 0xFF ∷ 0xFF ∷ 0xFF ∷ 0xFF ∷ 0xFF ∷ 0x00 ∷ 0x04
        ∷ 0x00 ∷ 0x0A ∷ 0x00 ∷ 0x00 ∷ 0x00 ∷ 0x00 ∷ 0x00 ∷ 0x01 ∷ 0x00 ∷ 0x00 ∷ 0x00 ∷ 0x3C ∷ []) }
    ensures task_management { operation_codes Drive (asked false Either 0xA3 0x0D)
        ≡ Ok (0x00 ∷ 0x03 ∷ 0x00 ∷ 0x0C ∷ 0xA3 ∷ 0x0D ∷ 0x80 ∷ 0x00 ∷ 0x00 ∷ 0x00 ∷ 0xFF ∷ 0xFF ∷ 0xFF ∷ 0xFF ∷ 0x00 ∷ 0x04 ∷ []) }
    ensures no_target_port_groups { operation_codes Drive (asked false OneWithServiceAction 0xA3 0x0A)
        ≡ Ok (0x00 ∷ 0x01 ∷ 0x00 ∷ 0x00 ∷ []) }
{}

/// Worked rows: the options by their bits, and the task management functions.
pub fn worked_rows()
    ensures all { options_at 0b000 ≡ Some All }
    ensures without { options_at 0b001 ≡ Some OneWithoutServiceActions }
    ensures with { options_at 0b010 ≡ Some OneWithServiceAction }
    ensures either { options_at 0b011 ≡ Some Either }
    ensures first_reserved { options_at 0b100 ≡ None }
    ensures last_reserved { options_at 0b111 ≡ None }
    ensures functions { task_management false ≡ 0xCA ∷ 0x00 ∷ 0x00 ∷ 0x00 ∷ [] }
    ensures extended { task_management true ≡ 0xCA ∷ 0x00 ∷ 0x00 ∷ 0x0C ∷ 0x00 ∷ 0x00 ∷ 0x00 ∷ 0x00
        ∷ 0x00 ∷ 0x00 ∷ 0x00 ∷ 0x00 ∷ 0x00 ∷ 0x00 ∷ 0x00 ∷ 0x00 ∷ [] }
{}
