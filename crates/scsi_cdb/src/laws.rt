ghost use Rattle.std.specs.Prelude.{◌≡◌, Ok, Err, [], ◌∷◌, pos, negsuc, true, false};
ghost use Rattle.scsi_cdb.specs.Commands.{decoded};
ghost use Rattle.scsi_cdb.specs.Bytes.{padded};
ghost use Rattle.scsi_cdb.specs.Encoding.{ReadsBack, encoded};
ghost use Rattle.scsi_cdb.specs.Profiles.{HostsDecodeWhatSpecDecodes};
ghost use Rattle.scsi_cdb.specs.Kinds.{kind_at, commands};
ghost use Rattle.scsi_cdb.specs.declared.action.InServiceAction.TheVariants.{ReadKeys, ReadFullStatus};
ghost use Rattle.scsi_cdb.specs.declared.service_action.OutServiceAction.TheVariants.{RegisterAndMove};
ghost use Rattle.scsi_cdb.specs.declared.fault.CdbFault.TheVariants.{Opcode, ShortCdb, ServiceAction, Naca};
ghost use Rattle.scsi_cdb.specs.declared.kind.Kind.TheVariants.{Drive, Changer};
ghost use Rattle.scsi_cdb.specs.declared.profile.Profile.TheVariants.{Spec, Hosts};
ghost use Rattle.scsi_cdb.specs.declared.host_request.HostRequest.TheVariants.{SendDiagnostic, LogSelect, LogSense, ModeSelect10, ModeSense10, ReportSupportedOperationCodes, ReportSupportedTaskManagementFunctions, PositionToElement, InitializeElementStatusWithRange, ExchangeMedium};
ghost use Rattle.scsi_cdb.specs.declared.request.Request.TheVariants.{TestUnitReady, Rewind, RequestSense, ReadBlockLimits, InitializeElementStatus, Read, Write, WriteFilemarks, Space, Inquiry, ModeSelect, Erase, ModeSense, LoadUnload, PreventAllowMediumRemoval, Locate, ReadPosition, PersistentReserveIn, PersistentReserveOut, ReportLuns, MoveMedium, ReadElementStatus, Host};

/// Law: a unit that has the command decodes what was encoded, where the fields fit their bits.
#[tactic(auto, unfolding(crate::specs::Commands::command_of))]
pub fn request_reads_back()
    ensures { ReadsBack }
{}

/// Worked rows of the table of commands, of the order of the faults, and of bytes to be written.
#[tactic(auto, unfolding(crate::specs::Commands::command_of))]
pub fn worked_rows()
    ensures test_unit_ready { decoded (commands Spec Changer) (0 ∷ 0 ∷ 0 ∷ 0 ∷ 0 ∷ 0 ∷ []) ≡ Ok TestUnitReady }
    ensures read_keys { decoded (commands Spec Changer) (0x5E ∷ 0 ∷ 0 ∷ 0 ∷ 0 ∷ 0 ∷ 0 ∷ 0 ∷ 0xFF ∷ 0 ∷ [])
        ≡ Ok (PersistentReserveIn ReadKeys 255) }
    ensures read_full_status { decoded (commands Spec Drive) (0x5E ∷ 0xE3 ∷ 9 ∷ 9 ∷ 9 ∷ 9 ∷ 9 ∷ 1 ∷ 2 ∷ 0 ∷ [])
        ≡ Ok (PersistentReserveIn ReadFullStatus 258) }
    ensures register_and_move { decoded (commands Spec Drive) (0x5F ∷ 7 ∷ 0x15 ∷ 0 ∷ 0 ∷ 0 ∷ 0 ∷ 0 ∷ 0x30 ∷ 0 ∷ [])
        ≡ Ok (PersistentReserveOut RegisterAndMove 0x15 48) }
    ensures longest_list { decoded (commands Spec Drive) (0x5F ∷ 7 ∷ 0 ∷ 0 ∷ 0 ∷ 0xFF ∷ 0xFF ∷ 0xFF ∷ 0xFF ∷ 0 ∷ 4 ∷ [])
        ≡ Ok (PersistentReserveOut RegisterAndMove 0 0xFFFFFFFF) }
    ensures request_sense { decoded (commands Spec Changer) (0x03 ∷ 1 ∷ 0 ∷ 0 ∷ 0x12 ∷ 0 ∷ []) ≡ Ok (RequestSense true 18) }
    ensures inquiry { decoded (commands Spec Drive) (0x12 ∷ 1 ∷ 0x80 ∷ 1 ∷ 2 ∷ 0 ∷ []) ≡ Ok (Inquiry true 0x80 258) }
    ensures prevent { decoded (commands Spec Changer) (0x1E ∷ 0 ∷ 0 ∷ 0 ∷ 0xFD ∷ 0 ∷ []) ≡ Ok (PreventAllowMediumRemoval 1) }
    ensures allow { decoded (commands Spec Drive) (0x1E ∷ 0xFF ∷ 0xFF ∷ 0xFF ∷ 0 ∷ 0xC0 ∷ []) ≡ Ok (PreventAllowMediumRemoval 0) }
    ensures report_luns { decoded (commands Spec Drive) (0xA0 ∷ 0 ∷ 2 ∷ 0 ∷ 0 ∷ 0 ∷ 0 ∷ 0 ∷ 1 ∷ 0 ∷ 0 ∷ 0 ∷ [])
        ≡ Ok (ReportLuns 2 256) }
    ensures short_report_luns { decoded (commands Spec Drive) (0xA0 ∷ 0 ∷ 2 ∷ 0 ∷ 0 ∷ 0 ∷ 0 ∷ 0 ∷ 1 ∷ 0 ∷ 0 ∷ [])
        ≡ Err ShortCdb }
    ensures empty { decoded (commands Spec Drive) [] ≡ Err ShortCdb }
    ensures unknown_and_short { decoded (commands Spec Drive) (0x16 ∷ []) ≡ Err Opcode }
    ensures short_before_service_action { decoded (commands Spec Drive) (0x5E ∷ 4 ∷ 0 ∷ 0 ∷ 0 ∷ 0 ∷ 0 ∷ 0 ∷ 0 ∷ [])
        ≡ Err ShortCdb }
    ensures service_action_before_naca { decoded (commands Spec Drive) (0x5E ∷ 4 ∷ 0 ∷ 0 ∷ 0 ∷ 0 ∷ 0 ∷ 0 ∷ 0 ∷ 4 ∷ [])
        ≡ Err ServiceAction }
    ensures no_eighth_act { decoded (commands Spec Changer) (0x5F ∷ 8 ∷ 0 ∷ 0 ∷ 0 ∷ 0 ∷ 0 ∷ 0 ∷ 24 ∷ 0 ∷ [])
        ≡ Err ServiceAction }
    ensures naca { decoded (commands Spec Changer) (0x5E ∷ 3 ∷ 0 ∷ 0 ∷ 0 ∷ 0 ∷ 0 ∷ 0 ∷ 0 ∷ 4 ∷ 0 ∷ []) ≡ Err Naca }
    ensures naca_of_six_bytes { decoded (commands Spec Changer) (0 ∷ 0 ∷ 0 ∷ 0 ∷ 0 ∷ 4 ∷ []) ≡ Err Naca }
    ensures space_two_filemarks_back { encoded (Space 1 (negsuc 1))
        ≡ padded (0x11 ∷ 1 ∷ 0xFF ∷ 0xFF ∷ 0xFE ∷ []) }
    ensures saved_values_of_all_pages { encoded (ModeSense true 3 0x3F 0 255)
        ≡ padded (0x1A ∷ 8 ∷ 0xFF ∷ 0 ∷ 0xFF ∷ []) }
    ensures storage_to_drive { encoded (MoveMedium 0 0x400 0x100 false)
        ≡ padded (0xA5 ∷ 0 ∷ 0 ∷ 0 ∷ 4 ∷ 0 ∷ 1 ∷ 0 ∷ []) }
    ensures all_elements { encoded (ReadElementStatus false 0 0 0xFFFF false false 0x1000)
        ≡ padded (0xB8 ∷ 0 ∷ 0 ∷ 0 ∷ 0xFF ∷ 0xFF ∷ 0 ∷ 0 ∷ 0x10 ∷ 0 ∷ []) }
    ensures all_elements_with_current_data { encoded (ReadElementStatus false 0 0 0xFFFF true false 0x1000)
        ≡ 0xB8 ∷ 0 ∷ 0 ∷ 0 ∷ 0xFF ∷ 0xFF ∷ 2 ∷ 0 ∷ 0x10 ∷ 0 ∷ 0 ∷ 0 ∷ 0 ∷ 0 ∷ 0 ∷ 0 ∷ [] }
{}

/// Worked rows of the commands that drives alone have.
#[tactic(auto, unfolding(crate::specs::Commands::command_of))]
pub fn worked_rows_of_drives()
    ensures rewind { decoded (commands Spec Drive) (1 ∷ 1 ∷ 0 ∷ 0 ∷ 0 ∷ 0 ∷ []) ≡ Ok Rewind }
    ensures read_block_limits { decoded (commands Spec Drive) (5 ∷ 0 ∷ 0 ∷ 0 ∷ 0 ∷ 0 ∷ []) ≡ Ok ReadBlockLimits }
    ensures read_of_300_bytes { decoded (commands Spec Drive) (8 ∷ 0 ∷ 0 ∷ 1 ∷ 0x2C ∷ 0 ∷ []) ≡ Ok (Read false false 300) }
    ensures read_of_two_blocks { decoded (commands Spec Drive) (8 ∷ 1 ∷ 0 ∷ 0 ∷ 2 ∷ 0 ∷ []) ≡ Ok (Read false true 2) }
    ensures longest_read { decoded (commands Spec Drive) (8 ∷ 2 ∷ 0xFF ∷ 0xFF ∷ 0xFF ∷ 0xC0 ∷ []) ≡ Ok (Read true false 0xFFFFFF) }
    ensures write { decoded (commands Spec Drive) (0x0A ∷ 1 ∷ 1 ∷ 2 ∷ 3 ∷ 0 ∷ []) ≡ Ok (Write true 0x010203) }
    ensures filemarks { decoded (commands Spec Drive) (0x10 ∷ 0 ∷ 0 ∷ 1 ∷ 2 ∷ 0 ∷ []) ≡ Ok (WriteFilemarks false false 258) }
    ensures filemark_at_once { decoded (commands Spec Drive) (0x10 ∷ 1 ∷ 0 ∷ 0 ∷ 1 ∷ 0 ∷ []) ≡ Ok (WriteFilemarks false true 1) }
    ensures setmark { decoded (commands Spec Drive) (0x10 ∷ 2 ∷ 0 ∷ 0 ∷ 1 ∷ 0 ∷ []) ≡ Ok (WriteFilemarks true false 1) }
    ensures space_to_end_of_data { decoded (commands Spec Drive) (0x11 ∷ 3 ∷ 0 ∷ 0 ∷ 0 ∷ 0 ∷ []) ≡ Ok (Space 3 (pos 0)) }
    ensures space_one_back { decoded (commands Spec Drive) (0x11 ∷ 0 ∷ 0xFF ∷ 0xFF ∷ 0xFF ∷ 0 ∷ []) ≡ Ok (Space 0 (negsuc 0)) }
    ensures space_furthest { decoded (commands Spec Drive) (0x11 ∷ 0xF1 ∷ 0x7F ∷ 0xFF ∷ 0xFF ∷ 0 ∷ []) ≡ Ok (Space 1 (pos 8388607)) }
    ensures space_furthest_back { decoded (commands Spec Drive) (0x11 ∷ 1 ∷ 0x80 ∷ 0 ∷ 0 ∷ 0 ∷ []) ≡ Ok (Space 1 (negsuc 8388607)) }
    ensures mode_select { decoded (commands Spec Drive) (0x15 ∷ 0x11 ∷ 0 ∷ 0 ∷ 12 ∷ 0 ∷ []) ≡ Ok (ModeSelect true 12) }
    ensures erase { decoded (commands Spec Drive) (0x19 ∷ 1 ∷ 0 ∷ 0 ∷ 0 ∷ 0 ∷ []) ≡ Ok Erase }
    ensures mode_sense { decoded (commands Spec Drive) (0x1A ∷ 8 ∷ 0xBF ∷ 1 ∷ 2 ∷ 0 ∷ []) ≡ Ok (ModeSense true 2 0x3F 1 2) }
    ensures load_and_hold { decoded (commands Spec Drive) (0x1B ∷ 1 ∷ 0 ∷ 0 ∷ 0x0B ∷ 0 ∷ []) ≡ Ok (LoadUnload true false true) }
    ensures unload_at_end_of_tape { decoded (commands Spec Drive) (0x1B ∷ 0 ∷ 0 ∷ 0 ∷ 4 ∷ 0 ∷ []) ≡ Ok (LoadUnload false true false) }
    ensures locate { decoded (commands Spec Drive) (0x2B ∷ 6 ∷ 9 ∷ 1 ∷ 2 ∷ 3 ∷ 4 ∷ 9 ∷ 9 ∷ 0 ∷ []) ≡ Ok (Locate true true 0x01020304 9) }
    ensures no_naca_within_ten_bytes { decoded (commands Spec Drive) (0x2B ∷ 0 ∷ 0 ∷ 0 ∷ 0 ∷ 4 ∷ 0 ∷ 0 ∷ 0 ∷ 0 ∷ [])
        ≡ Ok (Locate false false 1024 0) }
    ensures read_position { decoded (commands Spec Drive) (0x34 ∷ 0xE0 ∷ 0 ∷ 0 ∷ 0 ∷ 0 ∷ 0 ∷ 0 ∷ 0 ∷ 0 ∷ []) ≡ Ok ReadPosition }
    ensures no_long_form { decoded (commands Spec Drive) (0x34 ∷ 6 ∷ 0 ∷ 0 ∷ 0 ∷ 0 ∷ 0 ∷ 0 ∷ 0 ∷ 4 ∷ []) ≡ Err ServiceAction }
    ensures naca { decoded (commands Spec Drive) (0x34 ∷ 0 ∷ 0 ∷ 0 ∷ 0 ∷ 0 ∷ 0 ∷ 0 ∷ 0 ∷ 4 ∷ []) ≡ Err Naca }
    ensures short_locate { decoded (commands Spec Drive) (0x2B ∷ 0 ∷ 0 ∷ 0 ∷ 0 ∷ 0 ∷ 5 ∷ 0 ∷ 0 ∷ []) ≡ Err ShortCdb }
    ensures rewind_of_one_byte { decoded (commands Spec Drive) (1 ∷ []) ≡ Err ShortCdb }
    ensures rewind_of_a_changer { decoded (commands Spec Changer) (1 ∷ []) ≡ Err Opcode }
    ensures move_medium_of_a_drive { decoded (commands Spec Drive) (0xA5 ∷ 0 ∷ 0 ∷ 0 ∷ 4 ∷ 0 ∷ 1 ∷ 0 ∷ 0 ∷ 0 ∷ 0 ∷ 0 ∷ []) ≡ Err Opcode }
{}

/// Worked rows of the commands that changers alone have, and of MODE SENSE there.
#[tactic(auto, unfolding(crate::specs::Commands::command_of))]
pub fn worked_rows_of_changers()
    ensures initialize { decoded (commands Spec Changer) (7 ∷ 0 ∷ 0 ∷ 0 ∷ 0 ∷ 0 ∷ []) ≡ Ok InitializeElementStatus }
    ensures mode_sense { decoded (commands Spec Changer) (0x1A ∷ 0 ∷ 0x5D ∷ 3 ∷ 0x18 ∷ 0 ∷ []) ≡ Ok (ModeSense false 1 0x1D 3 24) }
    ensures move_medium { decoded (commands Spec Changer) (0xA5 ∷ 0 ∷ 1 ∷ 2 ∷ 4 ∷ 3 ∷ 1 ∷ 5 ∷ 0 ∷ 0 ∷ 0xFE ∷ 0 ∷ [])
        ≡ Ok (MoveMedium 0x0102 0x0403 0x0105 false) }
    ensures inverted { decoded (commands Spec Changer) (0xA5 ∷ 0 ∷ 0 ∷ 0 ∷ 4 ∷ 0 ∷ 1 ∷ 0 ∷ 0 ∷ 0 ∷ 1 ∷ 0 ∷ [])
        ≡ Ok (MoveMedium 0 0x400 0x100 true) }
    ensures all_elements { decoded (commands Spec Changer) (0xB8 ∷ 0 ∷ 0 ∷ 0 ∷ 0xFF ∷ 0xFF ∷ 0 ∷ 0 ∷ 0x10 ∷ 0 ∷ 0 ∷ 0 ∷ [])
        ≡ Ok (ReadElementStatus false 0 0 0xFFFF false false 0x1000) }
    ensures tags_of_two_slots { decoded (commands Spec Changer) (0xB8 ∷ 0xF2 ∷ 4 ∷ 1 ∷ 0 ∷ 2 ∷ 2 ∷ 1 ∷ 2 ∷ 3 ∷ 0 ∷ 0 ∷ [])
        ≡ Ok (ReadElementStatus true 2 0x401 2 true false 0x010203) }
    ensures identifiers_of_drives { decoded (commands Spec Changer) (0xB8 ∷ 0x04 ∷ 1 ∷ 0 ∷ 0 ∷ 1 ∷ 1 ∷ 0 ∷ 0 ∷ 0xFF ∷ 0 ∷ 0 ∷ [])
        ≡ Ok (ReadElementStatus false 4 0x100 1 false true 255) }
    ensures naca { decoded (commands Spec Changer) (0xA5 ∷ 0 ∷ 0 ∷ 0 ∷ 4 ∷ 0 ∷ 1 ∷ 0 ∷ 0 ∷ 0 ∷ 0 ∷ 4 ∷ []) ≡ Err Naca }
    ensures short_move { decoded (commands Spec Changer) (0xA5 ∷ 0 ∷ 0 ∷ 0 ∷ 4 ∷ 0 ∷ 1 ∷ 0 ∷ 0 ∷ 0 ∷ 0 ∷ []) ≡ Err ShortCdb }
    ensures short_status { decoded (commands Spec Changer) (0xB8 ∷ 0 ∷ 0 ∷ 0 ∷ 4 ∷ 0 ∷ 1 ∷ 0 ∷ 0 ∷ 0 ∷ 0 ∷ []) ≡ Err ShortCdb }
    ensures short_initialize { decoded (commands Spec Changer) (7 ∷ 0 ∷ 0 ∷ 0 ∷ 0 ∷ []) ≡ Err ShortCdb }
    ensures initialize_of_a_drive { decoded (commands Spec Drive) (7 ∷ 0 ∷ 0 ∷ 0 ∷ 0 ∷ 0 ∷ []) ≡ Err Opcode }
    ensures status_of_a_drive { decoded (commands Spec Drive) (0xB8 ∷ []) ≡ Err Opcode }
    ensures mode_select_of_a_changer { decoded (commands Spec Changer) (0x15 ∷ 0 ∷ 0 ∷ 0 ∷ 0 ∷ 0 ∷ []) ≡ Err Opcode }
{}

/// Law: where the default profile decodes a CDB, the hosts' profile decodes it to the same request.
#[tactic(auto, unfolding(crate::specs::Commands::command_of))]
pub fn hosts_decode_what_spec_decodes()
    ensures { HostsDecodeWhatSpecDecodes }
{}

/// Worked rows of the commands that only the hosts' profile has.
#[tactic(auto, unfolding(crate::specs::Commands::command_of))]
pub fn worked_rows_of_hosts()
    ensures self_test { decoded (commands Hosts Changer) (0x1D ∷ 0x04 ∷ 0 ∷ 1 ∷ 2 ∷ 0 ∷ []) ≡ Ok (Host (SendDiagnostic 0 true 258)) }
    ensures background_self_test { decoded (commands Hosts Drive) (0x1D ∷ 0x5B ∷ 9 ∷ 0 ∷ 0 ∷ 0 ∷ []) ≡ Ok (Host (SendDiagnostic 2 false 0)) }
    ensures reset_of_all_logs { decoded (commands Hosts Drive) (0x4C ∷ 2 ∷ 0xC0 ∷ 0 ∷ 9 ∷ 9 ∷ 9 ∷ 0 ∷ 0 ∷ 0 ∷ [])
        ≡ Ok (Host (LogSelect true false 3 0 0 0)) }
    ensures tape_alerts { decoded (commands Hosts Drive) (0x4D ∷ 0 ∷ 0x2E ∷ 0 ∷ 0 ∷ 0 ∷ 0 ∷ 1 ∷ 0x44 ∷ 0 ∷ [])
        ≡ Ok (Host (LogSense false false 0 0x2E 0 0 324)) }
    ensures from_a_parameter { decoded (commands Hosts Changer) (0x4D ∷ 3 ∷ 0x4C ∷ 0xFF ∷ 9 ∷ 1 ∷ 2 ∷ 3 ∷ 4 ∷ 0 ∷ [])
        ≡ Ok (Host (LogSense true true 1 0x0C 0xFF 258 772)) }
    ensures mode_select { decoded (commands Hosts Drive) (0x55 ∷ 0x11 ∷ 0 ∷ 0 ∷ 0 ∷ 0 ∷ 0 ∷ 1 ∷ 0 ∷ 0 ∷ []) ≡ Ok (Host (ModeSelect10 true 256)) }
    ensures all_mode_pages { decoded (commands Hosts Changer) (0x5A ∷ 0x18 ∷ 0x7F ∷ 0xFF ∷ 0 ∷ 0 ∷ 0 ∷ 0x10 ∷ 0 ∷ 0 ∷ [])
        ≡ Ok (Host (ModeSense10 true 1 0x3F 0xFF 4096)) }
    ensures one_operation_code { decoded (commands Hosts Drive) (0xA3 ∷ 0x0C ∷ 1 ∷ 8 ∷ 0 ∷ 0 ∷ 0 ∷ 0 ∷ 0 ∷ 0xFF ∷ 0 ∷ 0 ∷ [])
        ≡ Ok (Host (ReportSupportedOperationCodes false 1 8 0 255)) }
    ensures with_timeouts { decoded (commands Hosts Changer) (0xA3 ∷ 0xEC ∷ 0xFA ∷ 0x5E ∷ 1 ∷ 2 ∷ 0 ∷ 1 ∷ 0 ∷ 0 ∷ 0 ∷ 0 ∷ [])
        ≡ Ok (Host (ReportSupportedOperationCodes true 2 0x5E 258 65536)) }
    ensures task_management { decoded (commands Hosts Drive) (0xA3 ∷ 0x0D ∷ 0x80 ∷ 0 ∷ 0 ∷ 0 ∷ 0 ∷ 0 ∷ 0 ∷ 16 ∷ 0 ∷ 0 ∷ [])
        ≡ Ok (Host (ReportSupportedTaskManagementFunctions true 16)) }
    ensures no_target_port_groups { decoded (commands Hosts Drive) (0xA3 ∷ 0x0A ∷ 0 ∷ 0 ∷ 0 ∷ 0 ∷ 0 ∷ 0 ∷ 0 ∷ 16 ∷ 0 ∷ 0 ∷ []) ≡ Err ServiceAction }
    ensures position_with_vendor_specific_identifiers { decoded (commands Hosts Drive) (0x34 ∷ 1 ∷ 0 ∷ 0 ∷ 0 ∷ 0 ∷ 0 ∷ 0 ∷ 0 ∷ 0 ∷ []) ≡ Ok ReadPosition }
    ensures no_long_form { decoded (commands Hosts Drive) (0x34 ∷ 6 ∷ 0 ∷ 0 ∷ 0 ∷ 0 ∷ 0 ∷ 0 ∷ 0 ∷ 0 ∷ []) ≡ Err ServiceAction }
    ensures naca { decoded (commands Hosts Drive) (0x5A ∷ 0 ∷ 0 ∷ 0 ∷ 0 ∷ 0 ∷ 0 ∷ 0 ∷ 0 ∷ 4 ∷ []) ≡ Err Naca }
    ensures short_log_sense { decoded (commands Hosts Drive) (0x4D ∷ 0 ∷ 0x2E ∷ 0 ∷ 0 ∷ 0 ∷ 0 ∷ 1 ∷ 0x44 ∷ []) ≡ Err ShortCdb }
    ensures mode_select_of_a_changer { decoded (commands Hosts Changer) (0x55 ∷ 0 ∷ 0 ∷ 0 ∷ 0 ∷ 0 ∷ 0 ∷ 0 ∷ 0 ∷ 0 ∷ []) ≡ Err Opcode }
    ensures none_of_them_by_default { decoded (commands Spec Drive) (0x4D ∷ 0 ∷ 0x2E ∷ 0 ∷ 0 ∷ 0 ∷ 0 ∷ 1 ∷ 0x44 ∷ 0 ∷ []) ≡ Err Opcode }
    ensures position_by_default { decoded (commands Spec Drive) (0x34 ∷ 1 ∷ 0 ∷ 0 ∷ 0 ∷ 0 ∷ 0 ∷ 0 ∷ 0 ∷ 0 ∷ []) ≡ Err ServiceAction }
    ensures position_to_element { decoded (commands Hosts Changer) (0x2B ∷ 0xFF ∷ 1 ∷ 2 ∷ 4 ∷ 3 ∷ 9 ∷ 9 ∷ 0xFE ∷ 0 ∷ [])
        ≡ Ok (Host (PositionToElement 0x0102 0x0403 false)) }
    ensures position_inverted { decoded (commands Hosts Changer) (0x2B ∷ 0 ∷ 0 ∷ 0 ∷ 1 ∷ 0 ∷ 0 ∷ 0 ∷ 1 ∷ 0 ∷ [])
        ≡ Ok (Host (PositionToElement 0 0x0100 true)) }
    ensures locate_of_a_drive { decoded (commands Hosts Drive) (0x2B ∷ 0 ∷ 0 ∷ 0 ∷ 1 ∷ 0 ∷ 0 ∷ 0 ∷ 1 ∷ 0 ∷ [])
        ≡ Ok (Locate false false 0x00010000 1) }
    ensures position_by_naca { decoded (commands Hosts Changer) (0x2B ∷ 0 ∷ 0 ∷ 0 ∷ 4 ∷ 0 ∷ 0 ∷ 0 ∷ 0 ∷ 4 ∷ []) ≡ Err Naca }
    ensures short_position { decoded (commands Hosts Changer) (0x2B ∷ 0 ∷ 0 ∷ 0 ∷ 4 ∷ 0 ∷ 0 ∷ 0 ∷ 0 ∷ []) ≡ Err ShortCdb }
    ensures no_position_to_element_by_default { decoded (commands Spec Changer) (0x2B ∷ 0 ∷ 0 ∷ 0 ∷ 4 ∷ 0 ∷ 0 ∷ 0 ∷ 0 ∷ 0 ∷ []) ≡ Err Opcode }
    ensures initialize_a_range { decoded (commands Hosts Changer) (0x37 ∷ 0xFD ∷ 4 ∷ 1 ∷ 9 ∷ 9 ∷ 0 ∷ 2 ∷ 9 ∷ 0 ∷ [])
        ≡ Ok (Host (InitializeElementStatusWithRange false true 0x0401 2)) }
    ensures initialize_fast { decoded (commands Hosts Changer) (0x37 ∷ 2 ∷ 0 ∷ 0 ∷ 0 ∷ 0 ∷ 0xFF ∷ 0xFF ∷ 0 ∷ 0 ∷ [])
        ≡ Ok (Host (InitializeElementStatusWithRange true false 0 0xFFFF)) }
    ensures short_initialize { decoded (commands Hosts Changer) (0x37 ∷ 0 ∷ 0 ∷ 0 ∷ 0 ∷ 0 ∷ 0 ∷ 0 ∷ 0 ∷ []) ≡ Err ShortCdb }
    ensures initialize_of_a_drive { decoded (commands Hosts Drive) (0x37 ∷ 0 ∷ 0 ∷ 0 ∷ 0 ∷ 0 ∷ 0 ∷ 0 ∷ 0 ∷ 0 ∷ []) ≡ Err Opcode }
    ensures initialize_by_default { decoded (commands Spec Changer) (0x37 ∷ 0 ∷ 0 ∷ 0 ∷ 0 ∷ 0 ∷ 0 ∷ 0 ∷ 0 ∷ 0 ∷ []) ≡ Err Opcode }
    ensures exchange { decoded (commands Hosts Changer) (0xA6 ∷ 0xFF ∷ 1 ∷ 2 ∷ 4 ∷ 0 ∷ 1 ∷ 0 ∷ 4 ∷ 2 ∷ 0xFC ∷ 0 ∷ [])
        ≡ Ok (Host (ExchangeMedium 0x0102 0x0400 0x0100 0x0402 false false)) }
    ensures exchange_inverts_the_first { decoded (commands Hosts Changer) (0xA6 ∷ 0 ∷ 0 ∷ 0 ∷ 4 ∷ 0 ∷ 1 ∷ 0 ∷ 4 ∷ 0 ∷ 2 ∷ 0 ∷ [])
        ≡ Ok (Host (ExchangeMedium 0 0x0400 0x0100 0x0400 true false)) }
    ensures exchange_inverts_the_second { decoded (commands Hosts Changer) (0xA6 ∷ 0 ∷ 0 ∷ 0 ∷ 4 ∷ 0 ∷ 1 ∷ 0 ∷ 4 ∷ 0 ∷ 1 ∷ 0 ∷ [])
        ≡ Ok (Host (ExchangeMedium 0 0x0400 0x0100 0x0400 false true)) }
    ensures exchange_by_naca { decoded (commands Hosts Changer) (0xA6 ∷ 0 ∷ 0 ∷ 0 ∷ 4 ∷ 0 ∷ 1 ∷ 0 ∷ 4 ∷ 0 ∷ 0 ∷ 4 ∷ []) ≡ Err Naca }
    ensures short_exchange { decoded (commands Hosts Changer) (0xA6 ∷ 0 ∷ 0 ∷ 0 ∷ 4 ∷ 0 ∷ 1 ∷ 0 ∷ 4 ∷ 0 ∷ 0 ∷ []) ≡ Err ShortCdb }
    ensures exchange_of_a_drive { decoded (commands Hosts Drive) (0xA6 ∷ 0 ∷ 0 ∷ 0 ∷ 4 ∷ 0 ∷ 1 ∷ 0 ∷ 4 ∷ 0 ∷ 0 ∷ 0 ∷ []) ≡ Err Opcode }
    ensures exchange_by_default { decoded (commands Spec Changer) (0xA6 ∷ 0 ∷ 0 ∷ 0 ∷ 4 ∷ 0 ∷ 1 ∷ 0 ∷ 4 ∷ 0 ∷ 0 ∷ 0 ∷ []) ≡ Err Opcode }
    ensures exchanged { encoded (Host (ExchangeMedium 0 0x0400 0x0100 0x0402 true false))
        ≡ padded (0xA6 ∷ 0 ∷ 0 ∷ 0 ∷ 4 ∷ 0 ∷ 1 ∷ 0 ∷ 4 ∷ 2 ∷ 2 ∷ []) }
    ensures first_partition { decoded (commands Hosts Drive) (0x2B ∷ 2 ∷ 0 ∷ 0 ∷ 0 ∷ 0 ∷ 3 ∷ 9 ∷ 1 ∷ 0 ∷ []) ≡ Ok (Locate false true 3 1) }
    ensures located { encoded (Locate false true 3 1) ≡ padded (0x2B ∷ 2 ∷ 0 ∷ 0 ∷ 0 ∷ 0 ∷ 3 ∷ 0 ∷ 1 ∷ []) }
    ensures positioned { encoded (Host (PositionToElement 0 0x0403 false)) ≡ padded (0x2B ∷ 0 ∷ 0 ∷ 0 ∷ 4 ∷ 3 ∷ []) }
    ensures positioned_inverted { encoded (Host (PositionToElement 0 0x0100 true)) ≡ padded (0x2B ∷ 0 ∷ 0 ∷ 0 ∷ 1 ∷ 0 ∷ 0 ∷ 0 ∷ 1 ∷ []) }
    ensures initialized { encoded (Host (InitializeElementStatusWithRange true true 0x0400 32))
        ≡ padded (0x37 ∷ 3 ∷ 4 ∷ 0 ∷ 0 ∷ 0 ∷ 0 ∷ 0x20 ∷ []) }
    ensures written { encoded (Host (LogSense false false 1 0x2E 0 0 324)) ≡ padded (0x4D ∷ 0 ∷ 0x6E ∷ 0 ∷ 0 ∷ 0 ∷ 0 ∷ 1 ∷ 0x44 ∷ []) }
{}

/// Worked rows: the kinds of units by their numbers.
pub fn worked_rows_of_kinds()
    ensures changer { kind_at 0 ≡ Changer }
    ensures first_drive { kind_at 1 ≡ Drive }
    ensures last { kind_at 255 ≡ Drive }
{}
