ghost use Rattle.std.specs.Prelude.{◌≡◌, ◌≢◌, ℕ, [], ◌∷◌, Err, None, Ok, Some};
ghost use Rattle.device_server.specs.Attending.{WasAsked};
ghost use Rattle.device_server.specs.Drive.{empty_drive};
ghost use Rattle.device_server.specs.View.{DeviceView, Drive, Changer};
ghost use Rattle.scsi_cdb.specs.declared.kind.Kind.TheVariants as kind;
ghost use Rattle.tape_flush.specs.Images.{TapePartValue};
ghost use Rattle.tape_flush.specs.declared.fault.FlushFault.{FlushFault};
ghost use Rattle.tape_flush.specs.Saved.{SavedImageValue};
ghost use Rattle.saved_media.specs.LookRows.{Notes, loaded_drive, no_image, part_of_two_marks, settled_drive, up_to};
ghost use Rattle.saved_media.specs.Looking.{WasTaken, settled_by};
ghost use Rattle.tape_flush.specs.declared.part_range.PartRange.{PartRange};

use tape_medium::VolumeTag;

/// Worked rows: what a look for a volume takes at a drive that has it, that has another, and that has none; and what it settles.
pub fn look_rows(a: VolumeTag, b: VolumeTag)
    ensures part { WasTaken no_image (Drive (loaded_drive b)) 0 b (Some (Ok (up_to 2))) part_of_two_marks }
    ensures longer_part { (part : TapePartValue) → ¬ WasTaken no_image (Drive (loaded_drive b)) 0 b (Some (Ok (up_to 3))) part }
    ensures passed_over { (kept : SavedImageValue (Unit {0})) → (part : TapePartValue) → ¬ WasTaken kept (Drive (loaded_drive b)) 0 b None part }
    ensures another { (kept : SavedImageValue (Unit {0})) → (part : TapePartValue) → a ≢ b → WasTaken kept (Drive (loaded_drive b)) 0 a None part }
    ensures part_of_another { (kept : SavedImageValue (Unit {0})) → (range : PartRange) → (part : TapePartValue) → a ≢ b → ¬ WasTaken kept (Drive (loaded_drive b)) 0 a (Some (Ok range)) part }
    ensures none { (kept : SavedImageValue (Unit {0})) → (part : TapePartValue) → WasTaken kept (Drive empty_drive) 0 b None part }
    ensures part_of_none { (kept : SavedImageValue (Unit {0})) → (range : PartRange) → (part : TapePartValue) → ¬ WasTaken kept (Drive empty_drive) 0 b (Some (Ok range)) part }
    ensures fault_of_none { (kept : SavedImageValue (Unit {0})) → (fault : FlushFault) → (part : TapePartValue) → ¬ WasTaken kept (Drive empty_drive) 0 b (Some (Err fault)) part }
    ensures settled { settled_by (Some (Ok (up_to 1))) 0 (Drive (loaded_drive b)) ≡ Drive (settled_drive b) }
    ensures unsettled { (fault : FlushFault) → (settled_by (Some (Err fault)) 0 (Drive (loaded_drive b)) ≡ Drive (loaded_drive b)) × (settled_by None 0 (Drive (loaded_drive b)) ≡ Drive (loaded_drive b)) }
{}

/// Worked rows: an attendant that notes each device which it is let at was asked once, at a drive, and at that of unit 1.
pub fn asked_rows()
    ensures once { WasAsked Notes 1 kind.Drive [] ((1, Drive empty_drive) ∷ []) }
    ensures never { ¬ WasAsked Notes 1 kind.Drive [] [] }
    ensures twice { (first second : ℕ × DeviceView) → ¬ WasAsked Notes 1 kind.Drive [] (first ∷ second ∷ []) }
    ensures another_kind { ¬ WasAsked Notes 1 kind.Changer [] ((1, Drive empty_drive) ∷ []) }
    ensures another_unit { ¬ WasAsked Notes 2 kind.Drive [] ((1, Drive empty_drive) ∷ []) }
{}
