ghost use Rattle.std.specs.Prelude.{◌≡◌, [], ◌∷◌};
ghost use Rattle.device_server.specs.HostChanger.{spec_changer};
ghost use Rattle.device_server.specs.View.{Drive, Changer};
ghost use Rattle.library_inventory.specs.declared.element.Element.TheVariants.{DataTransfer, Storage};
ghost use Rattle.logical_unit.specs.Step.{made};
ghost use Rattle.library_start.specs.Starting.{ShelvesView, empty_shelves, IsShelved, IsLibraryOf};
ghost use Rattle.program_options.specs.declared.library_profile.LibraryProfile.TheVariants.{Spec, Hosts};
ghost use Rattle.library_start.specs.StartRows.{two_marks, one_drive, in_slot_and_drive, with_one, loaded_drive, with_both, one_number, from_slot_in_drive, loaded_host_drive, sourced_changer};

use tape_medium::VolumeTag;

/// Worked rows: volumes that are put into a library of one drive and two slots, of both profiles, and what takes none.
pub fn placing_rows(a: VolumeTag, b: VolumeTag)
    ensures in_slot { IsShelved (empty_shelves Spec one_drive) (Storage 1) (two_marks a 2) (with_one a) }
    ensures in_drive { IsShelved (with_one a) (DataTransfer 0) (two_marks b 2) (with_both a b) }
    ensures full_slot { (t : ShelvesView) → ¬ IsShelved (with_one a) (Storage 1) (two_marks b 2) t }
    ensures full_drive { (t : ShelvesView) → ¬ IsShelved (with_both a b) (DataTransfer 0) (two_marks a 2) t }
    ensures no_slot { (t : ShelvesView) → ¬ IsShelved (with_one a) (Storage 2) (two_marks b 2) t }
    ensures no_drive { (t : ShelvesView) → ¬ IsShelved (with_one a) (DataTransfer 1) (two_marks b 2) t }
    ensures library { IsLibraryOf Spec one_drive (in_slot_and_drive a b)
        (made (Changer (spec_changer (with_both a b).elements)) 0 2 0 ∷ made (Drive (loaded_drive b)) 1 2 0 ∷ []) }
    ensures for_hosts { IsLibraryOf (Hosts one_number) one_drive (from_slot_in_drive a b)
        (made (Changer (sourced_changer a b)) 0 2 0 ∷ made (Drive (loaded_host_drive b)) 1 2 0 ∷ []) }
{}
