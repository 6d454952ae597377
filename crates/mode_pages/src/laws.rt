//! Laws of what a drive shows and takes, and worked rows.
ghost use Rattle.std.specs.Prelude.{◌≡◌, Ok, Err, Some, None, [], ◌∷◌, true, false};
ghost use Rattle.scsi_sense.specs.declared.condition.Condition.TheVariants.{InvalidFieldInCdb, InvalidFieldInParameterList, ParameterListLengthError, SavingParametersNotSupported};
ghost use Rattle.mode_pages.specs.ChangerData.{changer_answer};
ghost use Rattle.mode_pages.specs.DriveData.{drive_answer, drive_fault};
ghost use Rattle.mode_pages.specs.Laws.{AllPagesAreSelected, DescriptorIsSelected, EachPageIsSelected, LengthStaysWithin, PagesAreWhole, ShownChangesNothing, drive_state, elements, sense};
ghost use Rattle.mode_pages.specs.Select.{selected};
ghost use Rattle.mode_pages.specs.Values.{default_values, mode_values};
ghost use Rattle.mode_pages.specs.declared.request.HeaderForm.TheVariants.{Six, Ten};
ghost use Rattle.mode_pages.specs.declared.request.PageControl.TheVariants.{Changeable, Current, Default, Saved};

/// Law: what MODE SENSE shows as current values may be sent back by MODE SELECT, and the values are then those shown.
pub fn shown_is_selected()
    ensures page { EachPageIsSelected }
    ensures all { AllPagesAreSelected }
    ensures descriptor { DescriptorIsSelected }
    ensures unchanged { ShownChangesNothing }
{}

/// Law: MODE SELECT leaves no block length above that of the longest block.
pub fn selected_stays_within()
    ensures { LengthStaysWithin }
{}

/// Law: each page of a drive begins with its code and length, has that length, and is found by its code.
pub fn pages_are_whole()
    ensures { PagesAreWhole }
{}

/// Worked rows: each page of a drive with a volume, after a reset, without block descriptor.
#[tactic(auto, unfolding(crate::specs::DriveData::pages_shown))]
pub fn drive_page_rows()
    ensures read_write_error_recovery { drive_answer (sense Six true Current 0x01 0x00) (drive_state default_values false true)
        ≡ Ok (0x0F ∷ 0x80 ∷ 0x10 ∷ 0 ∷ 0x01 ∷ 0x0A ∷ 0 ∷ 0x08 ∷ 0 ∷ 0 ∷ 0 ∷ 0 ∷ 0x08 ∷ 0 ∷ 0 ∷ 0 ∷ []) }
    ensures disconnect_reconnect { drive_answer (sense Six true Current 0x02 0x00) (drive_state default_values false true)
        ≡ Ok (0x13 ∷ 0x80 ∷ 0x10 ∷ 0 ∷ 0x02 ∷ 0x0E ∷ 0 ∷ 0 ∷ 0 ∷ 0 ∷ 0 ∷ 0 ∷ 0 ∷ 0 ∷ 0 ∷ 0 ∷ 0 ∷ 0 ∷ 0 ∷ 0 ∷ []) }
    ensures control { drive_answer (sense Six true Current 0x0A 0x00) (drive_state default_values false true)
        ≡ Ok (0x0F ∷ 0x80 ∷ 0x10 ∷ 0 ∷ 0x0A ∷ 0x0A ∷ 0x02 ∷ 0 ∷ 0 ∷ 0 ∷ 0 ∷ 0 ∷ 0 ∷ 0 ∷ 0 ∷ 0 ∷ []) }
    ensures data_compression { drive_answer (sense Six true Current 0x0F 0x00) (drive_state default_values false true)
        ≡ Ok (0x13 ∷ 0x80 ∷ 0x10 ∷ 0 ∷ 0x0F ∷ 0x0E ∷ 0xC0 ∷ 0x80 ∷ 0 ∷ 0 ∷ 0 ∷ 0xFF ∷ 0 ∷ 0 ∷ 0 ∷ 0xFF ∷ 0 ∷ 0 ∷ 0 ∷ 0 ∷ []) }
    ensures device_configuration { drive_answer (sense Six true Current 0x10 0x00) (drive_state default_values false true)
        ≡ Ok (0x13 ∷ 0x80 ∷ 0x10 ∷ 0 ∷ 0x10 ∷ 0x0E ∷ 0 ∷ 0 ∷ 0 ∷ 0 ∷ 0 ∷ 0 ∷ 0x40 ∷ 0 ∷ 0x18 ∷ 0 ∷ 0 ∷ 0 ∷ 0x01 ∷ 0x08 ∷ []) }
    ensures medium_partition { drive_answer (sense Six true Current 0x11 0x00) (drive_state default_values false true)
        ≡ Ok (0x0B ∷ 0x80 ∷ 0x10 ∷ 0 ∷ 0x11 ∷ 0x06 ∷ 0 ∷ 0 ∷ 0x10 ∷ 0x03 ∷ 0 ∷ 0 ∷ []) }
    ensures informational_exceptions_control { drive_answer (sense Six true Current 0x1C 0x00) (drive_state default_values false true)
        ≡ Ok (0x0F ∷ 0x80 ∷ 0x10 ∷ 0 ∷ 0x1C ∷ 0x0A ∷ 0x08 ∷ 0x03 ∷ 0 ∷ 0 ∷ 0 ∷ 0 ∷ 0 ∷ 0 ∷ 0 ∷ 0 ∷ []) }
    ensures medium_configuration { drive_answer (sense Six true Current 0x1D 0x00) (drive_state default_values false true)
        ≡ Ok (0x23 ∷ 0x80 ∷ 0x10 ∷ 0 ∷ 0x1D ∷ 0x1E ∷ 0 ∷ 0 ∷ 0 ∷ 0 ∷ 0 ∷ 0 ∷ 0 ∷ 0 ∷ 0 ∷ 0 ∷ 0 ∷ 0 ∷ 0 ∷ 0 ∷ 0 ∷ 0 ∷ 0 ∷ 0 ∷ 0 ∷ 0
        ∷ 0 ∷ 0 ∷ 0 ∷ 0 ∷ 0 ∷ 0 ∷ 0 ∷ 0 ∷ 0 ∷ 0 ∷ []) }
{}

/// Worked rows: headers, block descriptors, all pages, values of each kind.
#[tactic(auto, unfolding(crate::specs::DriveData::pages_shown))]
pub fn drive_data_rows()
    ensures compression_of_six { drive_answer (sense Six false Current 0x0F 0x00) (drive_state default_values false true)
        ≡ Ok (0x1B ∷ 0x80 ∷ 0x10 ∷ 0x08 ∷ 0 ∷ 0 ∷ 0 ∷ 0 ∷ 0 ∷ 0 ∷ 0 ∷ 0 ∷ 0x0F ∷ 0x0E ∷ 0xC0 ∷ 0x80 ∷ 0 ∷ 0 ∷ 0 ∷ 0xFF ∷ 0 ∷ 0 ∷ 0
        ∷ 0xFF ∷ 0 ∷ 0 ∷ 0 ∷ 0 ∷ []) }
    ensures no_page_of_ten { drive_answer (sense Ten false Current 0x00 0x00) (drive_state default_values false true)
        ≡ Ok (0 ∷ 0x0E ∷ 0x80 ∷ 0x10 ∷ 0 ∷ 0 ∷ 0 ∷ 0x08 ∷ 0 ∷ 0 ∷ 0 ∷ 0 ∷ 0 ∷ 0 ∷ 0 ∷ 0 ∷ []) }
    ensures changeable_bits_of_all { drive_answer (sense Six false Changeable 0x3F 0x00) (drive_state default_values false true)
        ≡ Ok (0x87 ∷ 0x80 ∷ 0x10 ∷ 0x08 ∷ 0 ∷ 0 ∷ 0 ∷ 0 ∷ 0 ∷ 0xFF ∷ 0xFF ∷ 0xFF ∷ 0x01 ∷ 0x0A ∷ 0 ∷ 0 ∷ 0 ∷ 0 ∷ 0 ∷ 0 ∷ 0 ∷ 0 ∷ 0
        ∷ 0 ∷ 0x02 ∷ 0x0E ∷ 0 ∷ 0 ∷ 0 ∷ 0 ∷ 0 ∷ 0 ∷ 0 ∷ 0 ∷ 0 ∷ 0 ∷ 0 ∷ 0 ∷ 0 ∷ 0 ∷ 0x0A ∷ 0x0A ∷ 0 ∷ 0 ∷ 0 ∷ 0 ∷ 0 ∷ 0 ∷ 0 ∷ 0 ∷ 0
        ∷ 0 ∷ 0x0F ∷ 0x0E ∷ 0x80 ∷ 0 ∷ 0 ∷ 0 ∷ 0 ∷ 0 ∷ 0 ∷ 0 ∷ 0 ∷ 0 ∷ 0 ∷ 0 ∷ 0 ∷ 0 ∷ 0x10 ∷ 0x0E ∷ 0 ∷ 0 ∷ 0 ∷ 0 ∷ 0 ∷ 0 ∷ 0 ∷ 0
        ∷ 0 ∷ 0 ∷ 0 ∷ 0 ∷ 0xFF ∷ 0 ∷ 0x11 ∷ 0x06 ∷ 0 ∷ 0 ∷ 0 ∷ 0 ∷ 0 ∷ 0 ∷ 0x1C ∷ 0x0A ∷ 0 ∷ 0 ∷ 0 ∷ 0 ∷ 0 ∷ 0 ∷ 0 ∷ 0 ∷ 0 ∷ 0 ∷ 0x1D
        ∷ 0x1E ∷ 0 ∷ 0 ∷ 0 ∷ 0 ∷ 0 ∷ 0 ∷ 0 ∷ 0 ∷ 0 ∷ 0 ∷ 0 ∷ 0 ∷ 0 ∷ 0 ∷ 0 ∷ 0 ∷ 0 ∷ 0 ∷ 0 ∷ 0 ∷ 0 ∷ 0 ∷ 0 ∷ 0 ∷ 0 ∷ 0 ∷ 0 ∷ 0 ∷ 0
        ∷ 0 ∷ []) }
    ensures all_pages_of_six { drive_answer (sense Six false Current 0x3F 0x00) (drive_state default_values false true)
        ≡ Ok (0x87 ∷ 0x80 ∷ 0x10 ∷ 0x08 ∷ 0 ∷ 0 ∷ 0 ∷ 0 ∷ 0 ∷ 0 ∷ 0 ∷ 0 ∷ 0x01 ∷ 0x0A ∷ 0 ∷ 0x08 ∷ 0 ∷ 0 ∷ 0 ∷ 0 ∷ 0x08 ∷ 0 ∷ 0 ∷ 0
        ∷ 0x02 ∷ 0x0E ∷ 0 ∷ 0 ∷ 0 ∷ 0 ∷ 0 ∷ 0 ∷ 0 ∷ 0 ∷ 0 ∷ 0 ∷ 0 ∷ 0 ∷ 0 ∷ 0 ∷ 0x0A ∷ 0x0A ∷ 0x02 ∷ 0 ∷ 0 ∷ 0 ∷ 0 ∷ 0 ∷ 0 ∷ 0 ∷ 0
        ∷ 0 ∷ 0x0F ∷ 0x0E ∷ 0xC0 ∷ 0x80 ∷ 0 ∷ 0 ∷ 0 ∷ 0xFF ∷ 0 ∷ 0 ∷ 0 ∷ 0xFF ∷ 0 ∷ 0 ∷ 0 ∷ 0 ∷ 0x10 ∷ 0x0E ∷ 0 ∷ 0 ∷ 0 ∷ 0 ∷ 0 ∷ 0
        ∷ 0x40 ∷ 0 ∷ 0x18 ∷ 0 ∷ 0 ∷ 0 ∷ 0x01 ∷ 0x08 ∷ 0x11 ∷ 0x06 ∷ 0 ∷ 0 ∷ 0x10 ∷ 0x03 ∷ 0 ∷ 0 ∷ 0x1C ∷ 0x0A ∷ 0x08 ∷ 0x03 ∷ 0 ∷ 0
        ∷ 0 ∷ 0 ∷ 0 ∷ 0 ∷ 0 ∷ 0 ∷ 0x1D ∷ 0x1E ∷ 0 ∷ 0 ∷ 0 ∷ 0 ∷ 0 ∷ 0 ∷ 0 ∷ 0 ∷ 0 ∷ 0 ∷ 0 ∷ 0 ∷ 0 ∷ 0 ∷ 0 ∷ 0 ∷ 0 ∷ 0 ∷ 0 ∷ 0 ∷ 0 ∷ 0
        ∷ 0 ∷ 0 ∷ 0 ∷ 0 ∷ 0 ∷ 0 ∷ 0 ∷ 0 ∷ []) }
    ensures all_pages_of_ten { drive_answer (sense Ten true Current 0x3F 0xFF) (drive_state default_values false true)
        ≡ Ok (0 ∷ 0x82 ∷ 0x80 ∷ 0x10 ∷ 0 ∷ 0 ∷ 0 ∷ 0 ∷ 0x01 ∷ 0x0A ∷ 0 ∷ 0x08 ∷ 0 ∷ 0 ∷ 0 ∷ 0 ∷ 0x08 ∷ 0 ∷ 0 ∷ 0 ∷ 0x02 ∷ 0x0E ∷ 0
        ∷ 0 ∷ 0 ∷ 0 ∷ 0 ∷ 0 ∷ 0 ∷ 0 ∷ 0 ∷ 0 ∷ 0 ∷ 0 ∷ 0 ∷ 0 ∷ 0x0A ∷ 0x0A ∷ 0x02 ∷ 0 ∷ 0 ∷ 0 ∷ 0 ∷ 0 ∷ 0 ∷ 0 ∷ 0 ∷ 0 ∷ 0x0F ∷ 0x0E
        ∷ 0xC0 ∷ 0x80 ∷ 0 ∷ 0 ∷ 0 ∷ 0xFF ∷ 0 ∷ 0 ∷ 0 ∷ 0xFF ∷ 0 ∷ 0 ∷ 0 ∷ 0 ∷ 0x10 ∷ 0x0E ∷ 0 ∷ 0 ∷ 0 ∷ 0 ∷ 0 ∷ 0 ∷ 0x40 ∷ 0 ∷ 0x18
        ∷ 0 ∷ 0 ∷ 0 ∷ 0x01 ∷ 0x08 ∷ 0x11 ∷ 0x06 ∷ 0 ∷ 0 ∷ 0x10 ∷ 0x03 ∷ 0 ∷ 0 ∷ 0x1C ∷ 0x0A ∷ 0x08 ∷ 0x03 ∷ 0 ∷ 0 ∷ 0 ∷ 0 ∷ 0 ∷ 0 ∷ 0
        ∷ 0 ∷ 0x1D ∷ 0x1E ∷ 0 ∷ 0 ∷ 0 ∷ 0 ∷ 0 ∷ 0 ∷ 0 ∷ 0 ∷ 0 ∷ 0 ∷ 0 ∷ 0 ∷ 0 ∷ 0 ∷ 0 ∷ 0 ∷ 0 ∷ 0 ∷ 0 ∷ 0 ∷ 0 ∷ 0 ∷ 0 ∷ 0 ∷ 0 ∷ 0 ∷ 0
        ∷ 0 ∷ 0 ∷ 0 ∷ []) }
    ensures empty_bay { drive_answer (sense Six true Current 0x00 0x00) (drive_state default_values false false)
        ≡ Ok (0x03 ∷ 0 ∷ 0x10 ∷ 0 ∷ []) }
    ensures protected_blocks { drive_answer (sense Six false Current 0x00 0x00) (drive_state (mode_values 0x010203 false) true true)
        ≡ Ok (0x0B ∷ 0x80 ∷ 0x90 ∷ 0x08 ∷ 0 ∷ 0 ∷ 0 ∷ 0 ∷ 0 ∷ 0x01 ∷ 0x02 ∷ 0x03 ∷ []) }
    ensures compression_is_off { drive_answer (sense Six true Current 0x0F 0xFF) (drive_state (mode_values 0x200 false) false true)
        ≡ Ok (0x13 ∷ 0x80 ∷ 0x10 ∷ 0 ∷ 0x0F ∷ 0x0E ∷ 0x40 ∷ 0x80 ∷ 0 ∷ 0 ∷ 0 ∷ 0xFF ∷ 0 ∷ 0 ∷ 0 ∷ 0xFF ∷ 0 ∷ 0 ∷ 0 ∷ 0 ∷ []) }
    ensures no_algorithm { drive_answer (sense Ten true Current 0x10 0x00) (drive_state (mode_values 0x200 false) false true)
        ≡ Ok (0 ∷ 0x16 ∷ 0x80 ∷ 0x10 ∷ 0 ∷ 0 ∷ 0 ∷ 0 ∷ 0x10 ∷ 0x0E ∷ 0 ∷ 0 ∷ 0 ∷ 0 ∷ 0 ∷ 0 ∷ 0x40 ∷ 0 ∷ 0x18 ∷ 0 ∷ 0 ∷ 0 ∷ 0 ∷ 0x08
        ∷ []) }
    ensures values_of_a_reset { drive_answer (sense Six false Default 0x0F 0x00) (drive_state (mode_values 0x200 false) false true)
        ≡ Ok (0x1B ∷ 0x80 ∷ 0x10 ∷ 0x08 ∷ 0 ∷ 0 ∷ 0 ∷ 0 ∷ 0 ∷ 0 ∷ 0 ∷ 0 ∷ 0x0F ∷ 0x0E ∷ 0xC0 ∷ 0x80 ∷ 0 ∷ 0 ∷ 0 ∷ 0xFF ∷ 0 ∷ 0 ∷ 0
        ∷ 0xFF ∷ 0 ∷ 0 ∷ 0 ∷ 0 ∷ []) }
{}

/// Worked rows: what MODE SENSE of a drive is refused for.
pub fn drive_fault_rows()
    ensures saved_values { drive_fault (sense Six false Saved 0x3F 0x00)
        ≡ Some SavingParametersNotSupported }
    ensures saved_values_of_no_page { drive_fault (sense Six false Saved 0x03 0x01)
        ≡ Some SavingParametersNotSupported }
    ensures page_of_disks { drive_fault (sense Six false Current 0x08 0x00)
        ≡ Some InvalidFieldInCdb }
    ensures page_of_changers { drive_fault (sense Six false Current 0x1F 0x00)
        ≡ Some InvalidFieldInCdb }
    ensures subpage { drive_fault (sense Six false Changeable 0x10 0x01)
        ≡ Some InvalidFieldInCdb }
    ensures subpages_of_all { drive_fault (sense Six false Default 0x3F 0x01)
        ≡ Some InvalidFieldInCdb }
    ensures subpages_of_no_page { drive_fault (sense Six false Current 0x03 0xFF)
        ≡ Some InvalidFieldInCdb }
    ensures subpages_of_a_page { drive_fault (sense Six false Current 0x10 0xFF)
        ≡ None }
    ensures all { drive_fault (sense Six false Default 0x3F 0xFF)
        ≡ None }
    ensures no_page { drive_fault (sense Six false Current 0x00 0x00)
        ≡ None }
{}

/// Worked rows of a changer with 20 storage, four import/export and two data transfer elements, and of one without import/export elements.
#[tactic(auto, unfolding(crate::specs::ChangerData::pages_shown))]
pub fn changer_rows()
    ensures control { changer_answer (sense Six false Current 0x0A 0x00) (elements 0x14 0x04 0x02)
        ≡ Ok (0x0F ∷ 0 ∷ 0 ∷ 0 ∷ 0x0A ∷ 0x0A ∷ 0x02 ∷ 0 ∷ 0 ∷ 0 ∷ 0 ∷ 0 ∷ 0 ∷ 0 ∷ 0 ∷ 0 ∷ []) }
    ensures informational_exceptions_control { changer_answer (sense Six false Current 0x1C 0x00) (elements 0x14 0x04 0x02)
        ≡ Ok (0x0F ∷ 0 ∷ 0 ∷ 0 ∷ 0x1C ∷ 0x0A ∷ 0x08 ∷ 0x03 ∷ 0 ∷ 0 ∷ 0 ∷ 0 ∷ 0 ∷ 0 ∷ 0 ∷ 0 ∷ []) }
    ensures element_address_assignment { changer_answer (sense Six false Current 0x1D 0x00) (elements 0x14 0x04 0x02)
        ≡ Ok (0x17 ∷ 0 ∷ 0 ∷ 0 ∷ 0x1D ∷ 0x12 ∷ 0 ∷ 0 ∷ 0 ∷ 0x01 ∷ 0x04 ∷ 0 ∷ 0 ∷ 0x14 ∷ 0x02 ∷ 0 ∷ 0 ∷ 0x04 ∷ 0x01 ∷ 0 ∷ 0 ∷ 0x02 ∷ 0
        ∷ 0 ∷ []) }
    ensures transport_geometry_parameters { changer_answer (sense Six false Current 0x1E 0x00) (elements 0x14 0x04 0x02)
        ≡ Ok (0x07 ∷ 0 ∷ 0 ∷ 0 ∷ 0x1E ∷ 0x02 ∷ 0 ∷ 0 ∷ []) }
    ensures device_capabilities { changer_answer (sense Six false Current 0x1F 0x00) (elements 0x14 0x04 0x02)
        ≡ Ok (0x17 ∷ 0 ∷ 0 ∷ 0 ∷ 0x1F ∷ 0x12 ∷ 0x0E ∷ 0x03 ∷ 0 ∷ 0x0E ∷ 0x0E ∷ 0x0E ∷ 0 ∷ 0 ∷ 0 ∷ 0 ∷ 0 ∷ 0x0E ∷ 0x0E ∷ 0x06 ∷ 0 ∷ 0
        ∷ 0 ∷ 0 ∷ []) }
    ensures all_pages_of_ten { changer_answer (sense Ten true Default 0x3F 0x00) (elements 0x14 0x04 0x02)
        ≡ Ok (0 ∷ 0x4A ∷ 0 ∷ 0 ∷ 0 ∷ 0 ∷ 0 ∷ 0 ∷ 0x0A ∷ 0x0A ∷ 0x02 ∷ 0 ∷ 0 ∷ 0 ∷ 0 ∷ 0 ∷ 0 ∷ 0 ∷ 0 ∷ 0 ∷ 0x1C ∷ 0x0A ∷ 0x08 ∷ 0x03
        ∷ 0 ∷ 0 ∷ 0 ∷ 0 ∷ 0 ∷ 0 ∷ 0 ∷ 0 ∷ 0x1D ∷ 0x12 ∷ 0 ∷ 0 ∷ 0 ∷ 0x01 ∷ 0x04 ∷ 0 ∷ 0 ∷ 0x14 ∷ 0x02 ∷ 0 ∷ 0 ∷ 0x04 ∷ 0x01 ∷ 0 ∷ 0
        ∷ 0x02 ∷ 0 ∷ 0 ∷ 0x1E ∷ 0x02 ∷ 0 ∷ 0 ∷ 0x1F ∷ 0x12 ∷ 0x0E ∷ 0x03 ∷ 0 ∷ 0x0E ∷ 0x0E ∷ 0x0E ∷ 0 ∷ 0 ∷ 0 ∷ 0 ∷ 0 ∷ 0x0E ∷ 0x0E
        ∷ 0x06 ∷ 0 ∷ 0 ∷ 0 ∷ 0 ∷ []) }
    ensures no_page { changer_answer (sense Six false Current 0x00 0x00) (elements 0x14 0x04 0x02)
        ≡ Ok (0x03 ∷ 0 ∷ 0 ∷ 0 ∷ []) }
    ensures no_import_export { changer_answer (sense Six true Current 0x1F 0x00) (elements 0x14 0x00 0x02)
        ≡ Ok (0x17 ∷ 0 ∷ 0 ∷ 0 ∷ 0x1F ∷ 0x12 ∷ 0x0A ∷ 0x03 ∷ 0 ∷ 0x0A ∷ 0 ∷ 0x0A ∷ 0 ∷ 0 ∷ 0 ∷ 0 ∷ 0 ∷ 0x0A ∷ 0 ∷ 0x02 ∷ 0 ∷ 0 ∷ 0
        ∷ 0 ∷ []) }
    ensures nothing_is_changeable { changer_answer (sense Six true Changeable 0x1F 0xFF) (elements 0x14 0x04 0x02)
        ≡ Ok (0x17 ∷ 0 ∷ 0 ∷ 0 ∷ 0x1F ∷ 0x12 ∷ 0 ∷ 0 ∷ 0 ∷ 0 ∷ 0 ∷ 0 ∷ 0 ∷ 0 ∷ 0 ∷ 0 ∷ 0 ∷ 0 ∷ 0 ∷ 0 ∷ 0 ∷ 0 ∷ 0 ∷ 0 ∷ []) }
    ensures saved_values { changer_answer (sense Six true Saved 0x0F 0x01) (elements 0x14 0x04 0x02)
        ≡ Err SavingParametersNotSupported }
    ensures page_of_drives { changer_answer (sense Six true Current 0x0F 0x00) (elements 0x14 0x04 0x02)
        ≡ Err InvalidFieldInCdb }
    ensures subpage { changer_answer (sense Ten true Current 0x1D 0x01) (elements 0x14 0x04 0x02)
        ≡ Err InvalidFieldInCdb }
{}

/// Worked rows: what MODE SELECT changes.
#[tactic(auto, unfolding(crate::specs::Select::pages_taken))]
pub fn select_rows()
    ensures compression_off { selected default_values 1048576 Six false 28 (0 ∷ 0 ∷ 0x10 ∷ 0x08 ∷ 0 ∷ 0 ∷ 0 ∷ 0 ∷ 0 ∷ 0 ∷ 0 ∷ 0
        ∷ 0x0F ∷ 0x0E ∷ 0x40 ∷ 0x80 ∷ 0 ∷ 0 ∷ 0 ∷ 0xFF ∷ 0 ∷ 0 ∷ 0 ∷ 0xFF ∷ 0 ∷ 0 ∷ 0 ∷ 0 ∷ [])
        ≡ Ok (mode_values 0 false) }
    ensures again { selected (mode_values 0 false) 1048576 Six false 28 (0 ∷ 0 ∷ 0x10 ∷ 0x08 ∷ 0 ∷ 0 ∷ 0 ∷ 0 ∷ 0 ∷ 0 ∷ 0 ∷ 0 ∷ 0x0F
        ∷ 0x0E ∷ 0x40 ∷ 0x80 ∷ 0 ∷ 0 ∷ 0 ∷ 0xFF ∷ 0 ∷ 0 ∷ 0 ∷ 0xFF ∷ 0 ∷ 0 ∷ 0 ∷ 0 ∷ [])
        ≡ Ok (mode_values 0 false) }
    ensures no_list { selected (mode_values 512 false) 1048576 Six false 0 ([])
        ≡ Ok (mode_values 512 false) }
    ensures header_alone { selected (mode_values 512 false) 1048576 Six false 4 (0 ∷ 0 ∷ 0 ∷ 0 ∷ [])
        ≡ Ok (mode_values 512 false) }
    ensures header_of_ten { selected (mode_values 512 false) 1048576 Ten false 8 (0 ∷ 0 ∷ 0 ∷ 0 ∷ 0 ∷ 0 ∷ 0 ∷ 0 ∷ [])
        ≡ Ok (mode_values 512 false) }
    ensures longest_block { selected default_values 1048576 Six false 12 (0 ∷ 0 ∷ 0 ∷ 0x08 ∷ 0 ∷ 0 ∷ 0 ∷ 0 ∷ 0 ∷ 0x10 ∷ 0 ∷ 0 ∷ [])
        ≡ Ok (mode_values 1048576 true) }
    ensures density_is_ignored { selected default_values 1048576 Six false 12 (0 ∷ 0 ∷ 0 ∷ 0x08 ∷ 0x42 ∷ 0 ∷ 0 ∷ 0 ∷ 0 ∷ 0 ∷ 0x02 ∷ 0
        ∷ [])
        ≡ Ok (mode_values 512 true) }
    ensures blocks_of_ten { selected default_values 1048576 Ten false 16 (0 ∷ 0 ∷ 0 ∷ 0 ∷ 0 ∷ 0 ∷ 0 ∷ 0x08 ∷ 0x7F ∷ 0 ∷ 0 ∷ 0 ∷ 0 ∷ 0
        ∷ 0x02 ∷ 0 ∷ [])
        ≡ Ok (mode_values 512 true) }
    ensures algorithm { selected default_values 1048576 Six false 20 (0 ∷ 0 ∷ 0 ∷ 0 ∷ 0x10 ∷ 0x0E ∷ 0 ∷ 0 ∷ 0 ∷ 0 ∷ 0 ∷ 0 ∷ 0x40 ∷ 0
        ∷ 0x18 ∷ 0 ∷ 0 ∷ 0 ∷ 0 ∷ 0x08 ∷ [])
        ≡ Ok (mode_values 0 false) }
    ensures last_page_counts { selected default_values 1048576 Six false 36 (0 ∷ 0 ∷ 0 ∷ 0 ∷ 0x0F ∷ 0x0E ∷ 0x40 ∷ 0x80 ∷ 0 ∷ 0 ∷ 0
        ∷ 0xFF ∷ 0 ∷ 0 ∷ 0 ∷ 0xFF ∷ 0 ∷ 0 ∷ 0 ∷ 0 ∷ 0x10 ∷ 0x0E ∷ 0 ∷ 0 ∷ 0 ∷ 0 ∷ 0 ∷ 0 ∷ 0x40 ∷ 0 ∷ 0x18 ∷ 0 ∷ 0 ∷ 0 ∷ 0xFF ∷ 0x08 ∷ [])
        ≡ Ok (mode_values 0 true) }
    ensures other_fields_are_ignored { selected (mode_values 0 false) 1048576 Six false 20 (0 ∷ 0 ∷ 0 ∷ 0 ∷ 0x8F ∷ 0x0E ∷ 0x80 ∷ 0
        ∷ 0 ∷ 0 ∷ 0 ∷ 0 ∷ 0 ∷ 0 ∷ 0 ∷ 0 ∷ 0 ∷ 0 ∷ 0 ∷ 0 ∷ [])
        ≡ Ok (mode_values 0 true) }
    ensures no_additional_partition { selected default_values 1048576 Six false 12 (0 ∷ 0 ∷ 0 ∷ 0 ∷ 0x11 ∷ 0x06 ∷ 0 ∷ 0 ∷ 0x10 ∷ 0x03
        ∷ 0 ∷ 0 ∷ [])
        ≡ Ok (mode_values 0 true) }
{}

/// Worked rows: what MODE SELECT is refused for, and the order of the tests.
#[tactic(auto, unfolding(crate::specs::Select::pages_taken))]
pub fn select_fault_rows()
    ensures save_pages { selected default_values 1048576 Six true 0 ([])
        ≡ Err InvalidFieldInCdb }
    ensures save_pages_first { selected default_values 1048576 Six true 4 (0 ∷ 0 ∷ 0 ∷ [])
        ≡ Err InvalidFieldInCdb }
    ensures longer_than_announced { selected default_values 1048576 Six false 4 (0 ∷ 0 ∷ 0 ∷ 0 ∷ 0 ∷ [])
        ≡ Err ParameterListLengthError }
    ensures shorter_than_announced { selected default_values 1048576 Six false 12 (0 ∷ 0 ∷ 0 ∷ 0x08 ∷ 0 ∷ 0 ∷ 0 ∷ 0 ∷ 0 ∷ 0x02 ∷ 0 ∷ [])
        ≡ Err ParameterListLengthError }
    ensures no_header_of_six { selected default_values 1048576 Six false 3 (0 ∷ 0 ∷ 0 ∷ [])
        ≡ Err ParameterListLengthError }
    ensures no_header_of_ten { selected default_values 1048576 Ten false 7 (0 ∷ 0 ∷ 0 ∷ 0 ∷ 0 ∷ 0 ∷ 0 ∷ [])
        ≡ Err ParameterListLengthError }
    ensures descriptor_of_seven_bytes { selected default_values 1048576 Six false 11 (0 ∷ 0 ∷ 0 ∷ 0x07 ∷ 0 ∷ 0 ∷ 0 ∷ 0 ∷ 0 ∷ 0 ∷ 0 ∷ [])
        ≡ Err InvalidFieldInParameterList }
    ensures two_descriptors { selected default_values 1048576 Six false 20 (0 ∷ 0 ∷ 0 ∷ 0x10 ∷ 0 ∷ 0 ∷ 0 ∷ 0 ∷ 0 ∷ 0 ∷ 0 ∷ 0 ∷ 0 ∷ 0
        ∷ 0 ∷ 0 ∷ 0 ∷ 0 ∷ 0 ∷ 0 ∷ [])
        ≡ Err InvalidFieldInParameterList }
    ensures long_descriptor { selected default_values 1048576 Ten false 24 (0 ∷ 0 ∷ 0 ∷ 0 ∷ 0x01 ∷ 0 ∷ 0 ∷ 0x10 ∷ 0 ∷ 0 ∷ 0 ∷ 0 ∷ 0
        ∷ 0 ∷ 0 ∷ 0 ∷ 0 ∷ 0 ∷ 0 ∷ 0 ∷ 0 ∷ 0 ∷ 0 ∷ 0 ∷ [])
        ≡ Err InvalidFieldInParameterList }
    ensures long_lba { selected default_values 1048576 Ten false 8 (0 ∷ 0 ∷ 0 ∷ 0 ∷ 0x01 ∷ 0 ∷ 0 ∷ 0 ∷ [])
        ≡ Err InvalidFieldInParameterList }
    ensures descriptor_length_of_two_bytes { selected default_values 1048576 Ten false 8 (0 ∷ 0 ∷ 0 ∷ 0 ∷ 0 ∷ 0 ∷ 0x01 ∷ 0x08 ∷ [])
        ≡ Err InvalidFieldInParameterList }
    ensures descriptor_cut_off { selected default_values 1048576 Six false 11 (0 ∷ 0 ∷ 0 ∷ 0x08 ∷ 0 ∷ 0 ∷ 0 ∷ 0 ∷ 0 ∷ 0x02 ∷ 0 ∷ [])
        ≡ Err ParameterListLengthError }
    ensures block_too_long { selected default_values 1048576 Six false 12 (0 ∷ 0 ∷ 0 ∷ 0x08 ∷ 0 ∷ 0 ∷ 0 ∷ 0 ∷ 0 ∷ 0x10 ∷ 0 ∷ 0x01 ∷ [])
        ≡ Err InvalidFieldInParameterList }
    ensures longest_number { selected default_values 1048576 Six false 12 (0 ∷ 0 ∷ 0 ∷ 0x08 ∷ 0 ∷ 0 ∷ 0 ∷ 0 ∷ 0 ∷ 0xFF ∷ 0xFF ∷ 0xFF ∷ [])
        ≡ Err InvalidFieldInParameterList }
    ensures one_byte_left { selected default_values 1048576 Six false 5 (0 ∷ 0 ∷ 0 ∷ 0 ∷ 0x0F ∷ [])
        ≡ Err ParameterListLengthError }
    ensures page_cut_off { selected default_values 1048576 Six false 19 (0 ∷ 0 ∷ 0 ∷ 0 ∷ 0x0F ∷ 0x0E ∷ 0x40 ∷ 0x80 ∷ 0 ∷ 0 ∷ 0 ∷ 0xFF
        ∷ 0 ∷ 0 ∷ 0 ∷ 0xFF ∷ 0 ∷ 0 ∷ 0 ∷ [])
        ≡ Err ParameterListLengthError }
    ensures page_cut_off_before_its_code { selected default_values 1048576 Six false 6 (0 ∷ 0 ∷ 0 ∷ 0 ∷ 0x03 ∷ 0x02 ∷ [])
        ≡ Err ParameterListLengthError }
    ensures subpage_header_cut_off { selected default_values 1048576 Six false 7 (0 ∷ 0 ∷ 0 ∷ 0 ∷ 0x50 ∷ 0x01 ∷ 0 ∷ [])
        ≡ Err ParameterListLengthError }
    ensures subpage_cut_off { selected default_values 1048576 Six false 9 (0 ∷ 0 ∷ 0 ∷ 0 ∷ 0x50 ∷ 0x01 ∷ 0 ∷ 0x02 ∷ 0 ∷ [])
        ≡ Err ParameterListLengthError }
    ensures subpage { selected default_values 1048576 Six false 10 (0 ∷ 0 ∷ 0 ∷ 0 ∷ 0x50 ∷ 0x01 ∷ 0 ∷ 0x02 ∷ 0 ∷ 0 ∷ [])
        ≡ Err InvalidFieldInParameterList }
    ensures page_of_disks { selected default_values 1048576 Six false 16 (0 ∷ 0 ∷ 0 ∷ 0 ∷ 0x08 ∷ 0x0A ∷ 0 ∷ 0 ∷ 0 ∷ 0 ∷ 0 ∷ 0 ∷ 0 ∷ 0
        ∷ 0 ∷ 0 ∷ [])
        ≡ Err InvalidFieldInParameterList }
    ensures all_pages { selected default_values 1048576 Six false 6 (0 ∷ 0 ∷ 0 ∷ 0 ∷ 0x3F ∷ 0 ∷ [])
        ≡ Err InvalidFieldInParameterList }
    ensures another_length { selected default_values 1048576 Six false 18 (0 ∷ 0 ∷ 0 ∷ 0 ∷ 0x0F ∷ 0x0C ∷ 0x40 ∷ 0x80 ∷ 0 ∷ 0 ∷ 0
        ∷ 0xFF ∷ 0 ∷ 0 ∷ 0 ∷ 0xFF ∷ 0 ∷ 0 ∷ [])
        ≡ Err InvalidFieldInParameterList }
    ensures active_format { selected default_values 1048576 Six false 20 (0 ∷ 0 ∷ 0 ∷ 0 ∷ 0x10 ∷ 0x0E ∷ 0x20 ∷ 0 ∷ 0 ∷ 0 ∷ 0 ∷ 0
        ∷ 0x40 ∷ 0 ∷ 0x18 ∷ 0 ∷ 0 ∷ 0 ∷ 0x01 ∷ 0x08 ∷ [])
        ≡ Err InvalidFieldInParameterList }
    ensures additional_partition { selected default_values 1048576 Six false 12 (0 ∷ 0 ∷ 0 ∷ 0 ∷ 0x11 ∷ 0x06 ∷ 0x01 ∷ 0x01 ∷ 0x10
        ∷ 0x03 ∷ 0 ∷ 0 ∷ [])
        ≡ Err InvalidFieldInParameterList }
    ensures second_page { selected default_values 1048576 Six false 30 (0 ∷ 0 ∷ 0 ∷ 0x08 ∷ 0 ∷ 0 ∷ 0 ∷ 0 ∷ 0 ∷ 0 ∷ 0x02 ∷ 0 ∷ 0x0F
        ∷ 0x0E ∷ 0x40 ∷ 0x80 ∷ 0 ∷ 0 ∷ 0 ∷ 0xFF ∷ 0 ∷ 0 ∷ 0 ∷ 0xFF ∷ 0 ∷ 0 ∷ 0 ∷ 0 ∷ 0x03 ∷ 0 ∷ [])
        ≡ Err InvalidFieldInParameterList }
{}
