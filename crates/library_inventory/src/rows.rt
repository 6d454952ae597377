ghost use Rattle.std.specs.Prelude.{◌≡◌, ◌∷◌, [], codes, Some, None, Ok, Err};
ghost use Rattle.library_inventory.specs.declared.element.Element.TheVariants.{Storage};
ghost use Rattle.library_inventory.specs.declared.fault.SizeOption.TheVariants.{Slots};
ghost use Rattle.library_inventory.specs.declared.fault.StartFault.TheVariants.{Disagrees};
ghost use Rattle.library_inventory.specs.declared.fault.StartFault.TheVariants as fault;
ghost use Rattle.library_inventory.specs.declared.profile.StartProfile.TheVariants as start;
ghost use Rattle.library_inventory.specs.Names.{named};
ghost use Rattle.library_inventory.specs.Profiles.{nothing_given, profile_at_start};
ghost use Rattle.program_options.specs.declared.library_profile.LibraryProfile.TheVariants as library;
ghost use Rattle.scsi_cdb.specs.declared.profile.Profile.TheVariants.{Spec, Hosts};
ghost use Rattle.library_inventory.specs.Sizes.{size_of};
ghost use Rattle.library_inventory.specs.Starts.{made_count, put_back, unused_of};
ghost use Rattle.library_inventory.specs.Tags.{tag_of};

/// Worked rows: tags by number and by name, sizes, where volumes go back that were missing, and how many are made.
pub fn worked_rows()
    ensures first_tag { tag_of 1 ≡ record { 0 = codes "VOL00001                        " } }
    ensures last_tag { tag_of 4095 ≡ record { 0 = codes "VOL04095                        " } }
    ensures name { named (codes "A-1_b") ≡ Some (record { 0 = codes "A-1_b                           " }) }
    ensures no_name { named (codes "A/b") ≡ None }
    ensures disagrees { size_of (record { drives = None; slots = Some 5; import_exports = None; volumes = None }) (Some (record { drives = 1; slots = 4; import_exports = 1 })) ≡ Err (Disagrees Slots 5 4) }
    ensures new_library { size_of (record { drives = Some 2; slots = None; import_exports = None; volumes = None }) None ≡ Ok (record { drives = 2; slots = 8; import_exports = 0 }) }
    ensures goes_back { put_back (tag_of 1 ∷ []) [] (record { tag = tag_of 1; element = Storage 2; source = None }) ≡ record { tag = tag_of 1; element = Storage 2; source = None } ∷ [] }
    ensures is_taken { put_back (tag_of 1 ∷ []) (record { tag = tag_of 2; element = Storage 2; source = None } ∷ []) (record { tag = tag_of 1; element = Storage 2; source = None }) ≡ record { tag = tag_of 2; element = Storage 2; source = None } ∷ [] }
    ensures is_missing { put_back (tag_of 2 ∷ []) [] (record { tag = tag_of 1; element = Storage 2; source = None }) ≡ [] }
    ensures unused { unused_of (tag_of 1 ∷ tag_of 2 ∷ tag_of 3 ∷ tag_of 4 ∷ []) (record { tag = tag_of 1; element = Storage 2; source = None } ∷ []) [] (tag_of 2 ∷ []) (tag_of 3 ∷ []) ≡ tag_of 4 ∷ [] }
    ensures made { made_count 5 (tag_of 1 ∷ []) (tag_of 2 ∷ tag_of 3 ∷ []) (record { tag = tag_of 3; element = Storage 0; source = None } ∷ []) ≡ 2 }
{}

/// Worked rows: profiles and numbers at a start.
pub fn worked_profiles()
    ensures new_library { profile_at_start nothing_given None ≡ Ok start.Spec }
    ensures new_for_hosts { profile_at_start (record { profile = Some Hosts; library_number = None }) None ≡ Ok (start.Hosts None) }
    ensures new_with_number { profile_at_start (record { profile = Some Hosts; library_number = Some (record { number = 9 }) }) None ≡ Ok (start.Hosts (Some (record { number = 9 }))) }
    ensures number_alone { profile_at_start (record { profile = None; library_number = Some (record { number = 9 }) }) None ≡ Err fault.NumberWithoutHosts }
    ensures becomes_hosts { profile_at_start (record { profile = Some Hosts; library_number = None }) (Some library.Spec) ≡ Ok (start.Hosts None) }
    ensures number_of_a_default_one { profile_at_start (record { profile = None; library_number = Some (record { number = 9 }) }) (Some library.Spec) ≡ Err fault.NumberWithoutHosts }
    ensures stays { profile_at_start nothing_given (Some (library.Hosts (record { number = 7 }))) ≡ Ok (start.Hosts (Some (record { number = 7 }))) }
    ensures same_number { profile_at_start (record { profile = None; library_number = Some (record { number = 7 }) }) (Some (library.Hosts (record { number = 7 }))) ≡ Ok (start.Hosts (Some (record { number = 7 }))) }
    ensures other_number { profile_at_start (record { profile = Some Hosts; library_number = Some (record { number = 9 }) }) (Some (library.Hosts (record { number = 7 }))) ≡ Err (fault.OtherNumber (record { number = 9 }) (record { number = 7 })) }
    ensures no_way_back { profile_at_start (record { profile = Some Spec; library_number = None }) (Some (library.Hosts (record { number = 7 }))) ≡ Err fault.KeptForHosts }
{}
