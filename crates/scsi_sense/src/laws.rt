ghost use Rattle.std.specs.Prelude.{◌≡◌, ◌≢◌, ◌≤◌, ℕ, Ok, Err, None, Some, [], ◌∷◌, ◌++◌, replicate, true, false, codes};
ghost use Rattle.scsi_sense.specs.Conditions.{sense_for, reports, IsConditionOf, OneConditionAtMost, ConditionsReadBack};
ghost use Rattle.scsi_sense.specs.FixedSense.{ReadsBack, fixed_sense, decoded_sense};
ghost use Rattle.scsi_sense.specs.SenseKeys.{key_code, IsKeyOf, OneKeyAtMost};
ghost use Rattle.scsi_sense.specs.Text.{condition_name, key_name, status_name};
ghost use Rattle.scsi_sense.specs.declared.condition.Condition.TheVariants.{NoAdditionalSenseInformation, PowerOnOrResetOccurred, ModeParametersChanged, LogParametersChanged, RegistrationsPreempted, InvalidReleaseOfPersistentReservation, FilemarkDetected, EarlyWarning, EndOfDataDetected, NotReadyToReadyChange, InitializingCommandRequired, NexusLossOccurred, BeginningOfMediumDetected, EndOfMediumDetected};
ghost use Rattle.scsi_sense.specs.declared.fault.SenseFault.TheVariants.{Short, NotFixed};
ghost use Rattle.scsi_sense.specs.declared.sense_key.SenseKey.TheVariants.{NoSense, NotReady, HardwareError, IllegalRequest, UnitAttention, DataProtect, BlankCheck, VolumeOverflow};
ghost use Rattle.scsi_sense.specs.declared.status.Status.TheVariants.{CheckCondition, ReservationConflict};

/// Law: what was written is read again, where the format can carry it.
pub fn sense_reads_back()
    ensures { ReadsBack }
{}

/// Law: `Sense::condition` has one answer for each sense data, and it is `Some(condition)` for
/// `Sense::of(condition)`.
#[tactic(auto, using(crate::proofs::UniqueCodes::one_condition, crate::proofs::UniqueCodes::conditions_read_back))]
pub fn condition_reads_back()
    ensures one_at_most { OneConditionAtMost }
    ensures its_own { ConditionsReadBack }
{}

/// Law: `SenseKey::of` has one answer for each code.
#[tactic(auto, using(crate::proofs::UniqueCodes::one_key))]
pub fn key_is_unique()
    ensures { OneKeyAtMost }
{}

/// Worked rows: sense data that a host gets, byte by byte, and bytes that are none.
pub fn worked_rows()
    ensures nothing { fixed_sense (sense_for NoAdditionalSenseInformation)
        ≡ 0x70 ∷ 0 ∷ 0 ∷ 0 ∷ 0 ∷ 0 ∷ 0 ∷ 0x0A ∷ replicate 10 0 }
    ensures first_contact { fixed_sense (sense_for PowerOnOrResetOccurred)
        ≡ 0x70 ∷ 0 ∷ 6 ∷ 0 ∷ 0 ∷ 0 ∷ 0 ∷ 0x0A ∷ 0 ∷ 0 ∷ 0 ∷ 0 ∷ 0x29 ∷ 0 ∷ 0 ∷ 0 ∷ 0 ∷ 0 ∷ [] }
    ensures log_changed { fixed_sense (sense_for LogParametersChanged)
        ≡ 0x70 ∷ 0 ∷ 6 ∷ 0 ∷ 0 ∷ 0 ∷ 0 ∷ 0x0A ∷ 0 ∷ 0 ∷ 0 ∷ 0 ∷ 0x2A ∷ 2 ∷ 0 ∷ 0 ∷ 0 ∷ 0 ∷ [] }
    ensures preempted { fixed_sense (sense_for RegistrationsPreempted)
        ≡ 0x70 ∷ 0 ∷ 6 ∷ 0 ∷ 0 ∷ 0 ∷ 0 ∷ 0x0A ∷ 0 ∷ 0 ∷ 0 ∷ 0 ∷ 0x2A ∷ 5 ∷ 0 ∷ 0 ∷ 0 ∷ 0 ∷ [] }
    ensures invalid_release { fixed_sense (sense_for InvalidReleaseOfPersistentReservation)
        ≡ 0x70 ∷ 0 ∷ 5 ∷ 0 ∷ 0 ∷ 0 ∷ 0 ∷ 0x0A ∷ 0 ∷ 0 ∷ 0 ∷ 0 ∷ 0x26 ∷ 4 ∷ 0 ∷ 0 ∷ 0 ∷ 0 ∷ [] }
    ensures longer_block { fixed_sense (record (sense_for NoAdditionalSenseInformation) {
      valid = true;
      ili = true;
      information = 0xFFFFFF9C;
    })
        ≡ 0xF0 ∷ 0 ∷ 0x20 ∷ 0xFF ∷ 0xFF ∷ 0xFF ∷ 0x9C ∷ 0x0A ∷ replicate 10 0 }
    ensures filemark { fixed_sense (record (sense_for FilemarkDetected) {
      valid = true;
      filemark = true;
      information = 1000;
    })
        ≡ 0xF0 ∷ 0 ∷ 0x80 ∷ 0 ∷ 0 ∷ 3 ∷ 0xE8 ∷ 0x0A ∷ 0 ∷ 0 ∷ 0 ∷ 0 ∷ 0 ∷ 1 ∷ 0 ∷ 0 ∷ 0 ∷ 0 ∷ [] }
    ensures end_of_data_read { decoded_sense
        (0xF0 ∷ 0 ∷ 8 ∷ 0 ∷ 0 ∷ 3 ∷ 0xE8 ∷ 0x0A ∷ 0 ∷ 0 ∷ 0 ∷ 0 ∷ 0 ∷ 5 ∷ 0 ∷ 0 ∷ 0 ∷ 0 ∷ 9 ∷ [])
        ≡ Ok (record (sense_for EndOfDataDetected) { valid = true; information = 1000 }) }
    ensures cut { decoded_sense (0x70 ∷ 0 ∷ 6 ∷ 0 ∷ 0 ∷ 0 ∷ 0 ∷ 0x0A ∷ 0 ∷ 0 ∷ 0 ∷ 0 ∷ 0x29 ∷ 0 ∷ 0 ∷ 0 ∷ 0 ∷ []) ≡ Err Short }
    ensures short_before_format { decoded_sense (0x72 ∷ replicate 16 0) ≡ Err Short }
    ensures descriptor_format { decoded_sense (0x72 ∷ replicate 17 0) ≡ Err NotFixed }
    ensures of_another_condition { sense_for PowerOnOrResetOccurred ≢ sense_for NexusLossOccurred }
{}

/// Worked rows: the eight sense keys, and the code that each is known by. No other code is one.
pub fn worked_keys()
    ensures no_sense { key_code NoSense ≡ 0 }
    ensures not_ready { key_code NotReady ≡ 2 }
    ensures hardware_error { key_code HardwareError ≡ 4 }
    ensures illegal_request { key_code IllegalRequest ≡ 5 }
    ensures unit_attention { key_code UnitAttention ≡ 6 }
    ensures data_protect { key_code DataProtect ≡ 7 }
    ensures blank_check { key_code BlankCheck ≡ 8 }
    ensures volume_overflow { key_code VolumeOverflow ≡ 13 }
    ensures no_other { (code : ℕ) → 14 ≤ code → IsKeyOf code None }
{}

/// Worked rows: the words for statuses, keys and conditions, and the condition of sense data.
pub fn worked_words()
    ensures conflict { status_name ReservationConflict ≡ codes "RESERVATION CONFLICT" }
    ensures check { status_name CheckCondition ≡ codes "CHECK CONDITION" }
    ensures attention { key_name UnitAttention ≡ codes "UNIT ATTENTION" }
    ensures overflow_key { IsKeyOf 0xD (Some VolumeOverflow) }
    ensures medium_error { IsKeyOf 0x3 None }
    ensures changed { condition_name NotReadyToReadyChange ≡ codes "NOT READY TO READY CHANGE, MEDIUM MAY HAVE CHANGED" }
    ensures reset { condition_name PowerOnOrResetOccurred ≡ codes "POWER ON, RESET, OR BUS DEVICE RESET OCCURRED" }
    ensures loss { condition_name NexusLossOccurred ≡ codes "I_T NEXUS LOSS OCCURRED" }
    ensures mode { condition_name ModeParametersChanged ≡ codes "MODE PARAMETERS CHANGED" }
    ensures log { condition_name LogParametersChanged ≡ codes "LOG PARAMETERS CHANGED" }
    ensures loaded { condition_name InitializingCommandRequired ≡ codes "LOGICAL UNIT NOT READY, INITIALIZING COMMAND REQUIRED" }
    // additional sense code 00h, under two keys and under one that no condition with it has
    ensures at_a_filemark { IsConditionOf (record (sense_for FilemarkDetected) {
      valid = true;
      filemark = true;
      information = 1000;
    }) (Some FilemarkDetected) }
    ensures at_the_end { IsConditionOf (reports 0xD 0x00 0x02) (Some EndOfMediumDetected) }
    ensures at_early_warning { IsConditionOf (record (sense_for EarlyWarning) {
      valid = true;
      eom = true;
    }) (Some EarlyWarning) }
    ensures at_the_beginning { IsConditionOf (reports 0x0 0x00 0x04) (Some BeginningOfMediumDetected) }
    ensures under_another_key { IsConditionOf (reports 0x6 0x00 0x04) None }
{}

ghost use Rattle.scsi_sense.specs.CarriedOut.{is_carried_out};
ghost use Rattle.scsi_sense.specs.declared.status.Status.TheVariants.{Good, Busy};

/// Worked rows: which commands were carried out, by their ends.
pub fn worked_ends()
    ensures good { is_carried_out Good None ≡ true }
    ensures warned { is_carried_out CheckCondition (Some (reports 0x0 0x00 0x02)) ≡ true }
    ensures overflow { is_carried_out CheckCondition (Some (reports 0xD 0x00 0x02)) ≡ false }
    ensures at_a_filemark { is_carried_out CheckCondition (Some (reports 0x0 0x00 0x01)) ≡ false }
    ensures at_the_beginning { is_carried_out CheckCondition (Some (reports 0x0 0x00 0x04)) ≡ false }
    ensures of_other_length { is_carried_out CheckCondition (Some (reports 0x0 0x00 0x00)) ≡ false }
    ensures busy { is_carried_out Busy None ≡ false }
    ensures conflict { is_carried_out ReservationConflict None ≡ false }
{}
